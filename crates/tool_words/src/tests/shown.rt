// A job and its files as text. Each word of a user stands between `<` and `>`.
use crate::{Job, Paths, Test, UidList, What};
use base_bytes::{Bytes, Text};
use base_notes::{Action, Options};
use std::alloc::{AllocError, Global};

fn text(bytes: &Bytes) -> &str {
    str::from_utf8(bytes.as_slice()).unwrap_or("not text")
}

// The word, behind a space, where the flag is set.
fn where_set(flag: bool, word: &'static str) -> &'static str {
    if flag { word } else { "" }
}

fn shown_action(alloc: Global, action: &Action) -> Result<String, AllocError> {
    match action {
        Action::Show { prefix } => format!(in alloc; "show <{}>", text(prefix)),
        Action::Get { key } => format!(in alloc; "get <{}>", text(key)),
        Action::Set { key, value } => format!(in alloc; "set <{}> <{}>", text(key), text(value)),
        Action::Delete { key } => format!(in alloc; "delete <{}>", text(key)),
        Action::Consistent => format!(in alloc; "consistent"),
        Action::Repack => format!(in alloc; "repack"),
        Action::Batch => format!(in alloc; "batch"),
        Action::Exercise { rounds } => format!(in alloc; "exercise {rounds}"),
    }
}

fn shown_options(alloc: Global, options: &Options) -> Result<String, AllocError> {
    let dry = where_set(options.dry, " dry");
    let quiet = where_set(options.quiet, " quiet");
    let skip_odd = where_set(options.skip_odd, " skip_odd");
    let force = where_set(options.force, " force");
    format!(in alloc; "{dry}{quiet}{skip_odd}{force}")
}

fn shown_uids(alloc: Global, uids: &UidList) -> Result<String, AllocError> {
    let mut shown = String::from_str(alloc, "uids")?;
    for uid in uids.as_slice() {
        let uid = format!(in alloc; " {uid}")?;
        shown.push_str(uid.as_str())?;
    }
    Ok(shown)
}

fn shown_what(alloc: Global, what: &What) -> Result<String, AllocError> {
    match what {
        What::List => format!(in alloc; "list"),
        What::All => format!(in alloc; "all"),
        What::Uids { uids } => shown_uids(alloc, uids),
    }
}

fn shown_test(alloc: Global, test: &Test) -> Result<String, AllocError> {
    let invert = where_set(test.invert, " invert");
    let exact = where_set(test.exact, " exact");
    let skip_flagged = where_set(test.skip_flagged, " skip_flagged");
    format!(in alloc;
        "{:?} {}{invert}{exact}{skip_flagged}",
        test.by, test.number
    )
}

fn shown_folder_job(alloc: Global, job: &Job) -> Result<String, AllocError> {
    match job {
        Job::Reconstruct { options, folder } => {
            let options = shown_options(alloc, options)?;
            format!(in alloc; "reconstruct <{}>{options}", folder.as_str())
        }
        Job::Recurse {
            options,
            list,
            prefix,
        } => {
            let options = shown_options(alloc, options)?;
            format!(in alloc; "recurse <{}> <{}>{options}", list.as_str(), text(prefix))
        }
        Job::Unexpunge { folder, what } => {
            let what = shown_what(alloc, what)?;
            format!(in alloc; "unexpunge <{}> {what}", folder.as_str())
        }
        Job::Purge { folder, test } => {
            let test = shown_test(alloc, test)?;
            format!(in alloc; "purge <{}> {test}", folder.as_str())
        }
        Job::Check { folder } => format!(in alloc; "check <{}>", folder.as_str()),
        _ => format!(in alloc; "a database"),
    }
}

pub(crate) fn shown_job(alloc: Global, job: &Job) -> Result<String, AllocError> {
    match job {
        Job::Dbtool {
            make,
            file,
            backend,
            action,
        } => {
            let how = if *make { "make" } else { "open" };
            let action = shown_action(alloc, action)?;
            format!(in alloc; "{how} <{}> {backend:?} {action}", file.as_str())
        }
        Job::Convert {
            from,
            from_kind,
            to,
            to_kind,
        } => format!(in alloc;
            "convert <{}> {from_kind:?} <{}> {to_kind:?}",
            from.as_str(),
            to.as_str()
        ),
        _ => shown_folder_job(alloc, job),
    }
}

fn shown_path(alloc: Global, path: &Option<Text>) -> Result<String, AllocError> {
    match path {
        Some(path) => format!(in alloc; "<{}>", path.as_str()),
        None => format!(in alloc; "-"),
    }
}

pub(crate) fn shown_paths(alloc: Global, paths: &Paths) -> Result<String, AllocError> {
    let second = shown_path(alloc, &paths.second)?;
    let folder = shown_path(alloc, &paths.folder)?;
    format!(in alloc; "<{}> {second} {folder}", paths.main.as_str())
}
