// The files of a conversion are files of their own, or the old one would be written while it is read.
use base_bytes::{NoMemory, Text};
use std::alloc::Global;
use std::fs;
use std::os::unix::fs::MetadataExt;
use std::path::Path;
use std::rt::Files;

// Whether the system leads both paths to one file or folder.
fn is_one_node(files: &impl Files, one: &str, other: &str) -> bool {
    match (fs::metadata(files, one), fs::metadata(files, other)) {
        (Ok(one), Ok(other)) => one.dev() == other.dev() && one.ino() == other.ino(),
        _ => false,
    }
}

// The folder of a path.
fn folder_of(path: &str) -> &str {
    match Path::new(path).parent() {
        Some(folder) if !folder.as_str().is_empty() => folder.as_str(),
        _ => ".",
    }
}

// Whether both paths are one name in one folder, whether or not a file is there.
fn is_one_name(files: &impl Files, one: &str, other: &str) -> bool {
    match (Path::new(one).file_name(), Path::new(other).file_name()) {
        (Some(name), Some(found)) => {
            name == found && is_one_node(files, folder_of(one), folder_of(other))
        }
        _ => false,
    }
}

// Whether both paths name one file.
fn is_one_file(files: &impl Files, one: &str, other: &str) -> bool {
    is_one_node(files, one, other) || is_one_name(files, one, other)
}

// The path of the new file beside a file.
fn new_file_of(alloc: Global, path: &Text) -> Result<String, NoMemory> {
    match format!(in alloc; "{}.NEW", path.as_str()) {
        Ok(name) => Ok(name),
        Err(_) => Err(NoMemory),
    }
}

/// Whether OLD and NEW of a conversion, and the new files beside them, are files of their own. They are compared by what
/// the system says of them, so that links and other spellings of a path are seen.
pub(crate) fn are_apart(
    files: &impl Files,
    alloc: Global,
    old: &Text,
    new: &Text,
) -> Result<bool, NoMemory> {
    let beside_old = new_file_of(alloc, old)?;
    let beside_new = new_file_of(alloc, new)?;
    let (old, new) = (old.as_str(), new.as_str());
    let (beside_old, beside_new) = (beside_old.as_str(), beside_new.as_str());
    Ok(
        !is_one_file(files, old, new)
            && !is_one_file(files, old, beside_new)
            && !is_one_file(files, beside_old, new)
            && !is_one_file(files, beside_old, beside_new),
    )
}
