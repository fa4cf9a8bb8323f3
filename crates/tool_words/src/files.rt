// The files of a job.
ghost use Rattle.std.specs.Prelude.{◌≡◌, IfOk, None, Some};
ghost use Rattle.tool_words.specs.PathsOf.{folder_path_of, index_path_of, main_path_of};
ghost use Rattle.tool_words.specs.PathsOf.{second_path_of};

use crate::{Job, Paths};
use base_bytes::{NoMemory, Text};
use std::alloc::Global;

// The path of a folder's index.
fn index_path(alloc: Global, folder: &Text) -> Result<Text, NoMemory>
    ensures { IfOk result (λ path. path ≡ index_path_of folder.now) }
{
    match format!(in alloc; "{}/cyrus.index", folder.as_str()) {
        Ok(path) => Text::of(alloc, path.as_str()),
        Err(_) => Err(NoMemory),
    }
}

fn copy(alloc: Global, text: &Text) -> Result<Text, NoMemory>
    ensures { IfOk result (λ copy. copy ≡ text.now) }
{
    Text::of(alloc, text.as_str())
}

// The index of a folder, and the folder.
fn in_folder(alloc: Global, folder: &Text) -> Result<Paths, NoMemory>
    ensures main { IfOk result (λ paths. paths.main ≡ index_path_of folder.now) }
    ensures second { IfOk result (λ paths. paths.second ≡ None) }
    ensures folder { IfOk result (λ paths. paths.folder ≡ Some folder.now) }
{
    Ok(Paths {
        main: index_path(alloc, folder)?,
        second: None,
        folder: Some(copy(alloc, folder)?),
    })
}

/// The paths of a job's files.
pub fn paths(alloc: Global, job: &Job) -> Result<Paths, NoMemory>
    ensures main { IfOk result (λ paths. paths.main ≡ main_path_of job.now) }
    ensures second { IfOk result (λ paths. paths.second ≡ second_path_of job.now) }
    ensures folder { IfOk result (λ paths. paths.folder ≡ folder_path_of job.now) }
{
    match job {
        Job::Dbtool { file, .. } => Ok(Paths {
            main: copy(alloc, file)?,
            second: None,
            folder: None,
        }),
        Job::Convert { from, to, .. } => Ok(Paths {
            main: copy(alloc, from)?,
            second: Some(copy(alloc, to)?),
            folder: None,
        }),
        Job::Recurse { list, .. } => Ok(Paths {
            main: Text::of(alloc, "")?,
            second: Some(copy(alloc, list)?),
            folder: None,
        }),
        Job::Reconstruct { folder, .. }
        | Job::Unexpunge { folder, .. }
        | Job::Purge { folder, .. }
        | Job::Check { folder } => in_folder(alloc, folder),
    }
}
