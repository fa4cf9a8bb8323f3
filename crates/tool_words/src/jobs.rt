// The job of each tool, its files, and why words give none.
ghost use Rattle.std.specs.Prelude.{◌≡◌, if◌then◌else◌};
ghost use Rattle.clap.specs.Words.{kind_of};
ghost use Rattle.tool_words.specs.Reading.{word_fault_of};
ghost use Rattle.tool_words.specs.declared.jobs.WordFault.TheVariants.{NoMemory as NoRoom};

use crate::{Test, What};
use base_bytes::{Bytes, NoMemory, Text};
use base_notes::{Action, Backend, Options};
use clap::error::ErrorKind;
use std::alloc::{AllocError, AllocFailed};

/// What a command line asks for.
#[derive(Drop)]
pub enum Job {
    /// `cyr_dbtool [-n] FILE BACKEND ACTION ..`; `make` is the flag `-n`.
    Dbtool {
        make: bool,
        file: Text,
        backend: Backend,
        action: Action,
    },
    /// `cvt_cyrusdb OLD BACKEND NEW BACKEND`.
    Convert {
        from: Text,
        from_kind: Backend,
        to: Text,
        to_kind: Backend,
    },
    /// `reconstruct [-n] [-q] [-o] [-G] FOLDER`.
    Reconstruct {
        options: Options,
        folder: Text,
    },
    /// `reconstruct -r [-n] [-q] [-o] [-G] LIST PREFIX`; `list` is a database of mailboxes.
    Recurse {
        options: Options,
        list: Text,
        prefix: Bytes,
    },
    /// `unexpunge (-l | -a) FOLDER` or `unexpunge -u FOLDER UID ..`.
    Unexpunge {
        folder: Text,
        what: What,
    },
    /// `ipurge [-i] [-s] [-x] (-d N | -b N | -k N | -m N) FOLDER`.
    Purge {
        folder: Text,
        test: Test,
    },
    /// `chk_cyrus -M FOLDER`.
    Check {
        folder: Text,
    },
}

/// The paths of a job's files.
#[derive(Drop)]
pub struct Paths {
    /// FILE of `cyr_dbtool`, OLD of `cvt_cyrusdb`, or the index of FOLDER. It is empty with `-r`,
    /// where each folder of the list has a file of its own.
    pub main: Text,
    /// NEW of `cvt_cyrusdb`, or LIST of `reconstruct -r`.
    pub second: Option<Text>,
    /// FOLDER of message files.
    pub folder: Option<Text>,
}

/// Why words gave no job.
#[derive(Clone, Copy, Debug, PartialEq, Eq)]
pub enum WordFault {
    /// They stand for none.
    Usage,
    /// Memory ran out.
    NoMemory,
}

impl From<NoMemory> for WordFault {
    ghost from_gives = { λ _ e. e ≡ NoRoom };

    fn from(_: NoMemory) -> WordFault {
        WordFault::NoMemory
    }
}

impl From<AllocError> for WordFault {
    ghost from_gives = { λ _ e. e ≡ NoRoom };

    fn from(_: AllocError) -> WordFault {
        WordFault::NoMemory
    }
}

impl<T: Drop> From<AllocFailed<T>> for WordFault {
    ghost from_gives = { λ _ e. e ≡ NoRoom };

    fn from(_: AllocFailed<T>) -> WordFault {
        WordFault::NoMemory
    }
}

impl From<clap::Error> for WordFault {
    ghost from_gives = { λ error e. e ≡ word_fault_of (kind_of error) };

    fn from(error: clap::Error) -> WordFault {
        match error.kind() {
            ErrorKind::OutOfMemory => WordFault::NoMemory,
            _ => WordFault::Usage,
        }
    }
}
