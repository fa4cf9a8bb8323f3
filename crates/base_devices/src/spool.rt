// A folder of message files.
ghost use Rattle.std.specs.Prelude.{◌≡◌, ◌≤◌, IfOk, OnErr, IfSome, ◌↔◌, IsSome, Some, length};
ghost use Rattle.base_devices.specs.Causes.{HasCause};
ghost use Rattle.base_devices.specs.SpoolCalls.{MessageFile, Folder, SpoolState, HasDistinctNames, HasFile, GivesName, ReadsFrom, shown_files};

use crate::Failed;
use arrayvec::ArrayString;
use std::marker::Model;

/// The longest name of a file, in bytes.
pub const NAME_LIMIT: usize = 255;

const _: () = prove!(NAME_LIMIT == 255);

/// A file's name: at most 255 bytes of UTF-8, which lie in the value itself, so that it takes no memory. A contract
/// sees its bytes.
#[derive(Drop)]
pub struct Name {
    text: ArrayString<255>,
}

impl Model for Name {
    ghost use Rattle.std.specs.Prelude.{List, ℕ};

    ghost Value = { List ℕ };

    ghost view = { λ n. n.text.bytes };
}

impl Name {
    /// The name, or None exactly where the text has more than 255 bytes.
    pub fn of(text: &str) -> Option<Name>
        ensures some { IsSome result ↔ (length text.now ≤ 255) }
        ensures text { IfSome result (λ name. name ≡ text.now) }
    {
        let text = ArrayString::from(text).ok()?;
        Some(Name { text })
    }

    /// The text.
    pub fn as_str(&self) -> &str
        ensures text { result.now ≡ self.now }
        ensures short { length result.now ≤ 255 }
    {
        self.text.as_str()
    }
}

/// A folder of message files, each with a name, a time and bytes.
///
/// A spool in memory shows its files to contracts, and a real one does not. No call changes a file, also where it fails.
pub trait Spool {
    /// The files, the names given so far, and how often a call failed.
    ghost state: { Self → SpoolState };

    /// What every step keeps of a spool besides, from a state to a later one.
    ghost spool_rest: { Self → Self → Type 0 };

    /// The name of the next file, each name once, in any order; then None.
    fn next_name(&mut self) -> Result<Option<Name>, Failed>
        ensures name { IfOk result (λ name. (folder : Folder) →
            (state self.old).folder ≡ Some folder → GivesName folder name (state self.new).folder) }
        ensures failed { OnErr result ((state self.new).folder ≡ (state self.old).folder) }
        ensures files { shown_files (state self.new) ≡ shown_files (state self.old) }
        ensures cause { HasCause (state self.old).faults (state self.new).faults result }
        ensures rest { spool_rest self.old self.new };

    /// The time of a file in whole seconds since 1970, 0 where it is earlier.
    fn time(&mut self, name: &Name) -> Result<u64, Failed>
        ensures time { IfOk result (λ time. (file : MessageFile) →
            HasFile (state self.old).folder name.now file → time ≡ file.time) }
        ensures folder { (state self.new).folder ≡ (state self.old).folder }
        ensures cause { HasCause (state self.old).faults (state self.new).faults result }
        ensures rest { spool_rest self.old self.new };

    /// Some of a file's bytes from the offset `at` on. At least one is read where `into` is not empty and bytes remain,
    /// and 0 at the end.
    fn read(&mut self, name: &Name, at: u64, into: &mut [u8]) -> Result<usize, Failed>
        ensures bytes { IfOk result (λ count. (file : MessageFile) →
            HasFile (state self.old).folder name.now file → ReadsFrom file.bytes at into.new count) }
        ensures bound { IfOk result (λ count. count ≤ length into.new) }
        ensures folder { (state self.new).folder ≡ (state self.old).folder }
        ensures cause { HasCause (state self.old).faults (state self.new).faults result }
        ensures rest { spool_rest self.old self.new };

    ghost distinct: { (s : Self) (folder : Folder) →
        (state s).folder ≡ Some folder → HasDistinctNames folder.files };

    ghost rest_same: { (s : Self) → spool_rest s s };

    ghost rest_then: { (a b c : Self) → spool_rest a b → spool_rest b c → spool_rest a c };
}
