// What the tools of mailboxes can be asked for.
ghost use Rattle.std.specs.Prelude.{◌≡◌, IfOk};

use base_bytes::NoMemory;
use std::alloc::Global;
use std::marker::Model;

/// Some uids, in the order of the words. A contract sees their list.
#[derive(Drop)]
pub struct UidList {
    uids: Vec<u32>,
}

impl Model for UidList {
    ghost use Rattle.std.specs.Prelude.{List, ℕ};

    ghost Value = { List ℕ };

    ghost view = { λ u. u.uids.items };
}

impl UidList {
    /// A copy of the uids.
    pub fn of(alloc: Global, uids: &[u32]) -> Result<UidList, NoMemory>
        ensures { IfOk result (λ list. list ≡ uids.now) }
    {
        match uids.to_vec(alloc) {
            Ok(uids) => Ok(UidList { uids }),
            Err(_) => Err(NoMemory),
        }
    }

    /// The uids.
    pub fn as_slice(&self) -> &[u32]
        ensures { result.now ≡ self.now }
    {
        &self.uids
    }
}

/// Which expunged messages `unexpunge` works on.
#[derive(Drop)]
pub enum What {
    /// `-l`: none. All that could be restored are listed.
    List,
    /// `-a`: all.
    All,
    /// `-u`: those with these uids.
    Uids { uids: UidList },
}

/// What `ipurge` measures of a message.
#[derive(Clone, Copy, Debug, PartialEq, Eq)]
pub enum Measure {
    /// `-d`: its age in days of 86,400 seconds.
    Days,
    /// `-b`: its size in bytes.
    Bytes,
    /// `-k`: its size, where the number counts units of 1,024 bytes.
    Kilo,
    /// `-m`: its size, where the number counts units of 1,048,576 bytes.
    Mega,
}

/// Which messages `ipurge` marks as expunged: those that measure more than the number.
#[derive(Clone, Copy, Debug, PartialEq, Eq)]
pub struct Test {
    /// What is measured.
    pub by: Measure,
    /// The number that it is compared with.
    pub number: u32,
    /// `-i`: those that measure less.
    pub invert: bool,
    /// `-x`: those that measure just the number; with `-i` those that do not.
    pub exact: bool,
    /// `-s`: no flagged message.
    pub skip_flagged: bool,
}
