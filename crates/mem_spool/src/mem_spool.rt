// A folder of message files in memory.
ghost use Rattle.std.specs.Prelude.{◌≡◌, drop};
ghost use Rattle.mem_spool.specs.MemFiles.{AreDistinct};

use base_bytes::NoMemory;
use base_devices::{Failed, Name, Spool};
use std::alloc::Global;

#[derive(Drop)]
struct MemFile {
    name: Name,
    time: u64,
    bytes: Vec<u8>,
}

/// Message files in memory, and a list of the calls that are to fail.
///
/// The calls of `Spool` count from 1, and a call answers `Failed` exactly where its number is on the list. The names
/// are given in the order in which the files were added. For a name that no file has, `time` and `read` answer 0.
#[derive(Drop)]
pub struct MemSpool {
    alloc: Global,
    files: Vec<MemFile>,
    given: usize,
    fails: Vec<u64>,
    calls: u64,
    faults: u64,
    ghost distinct: { AreDistinct files.items },
}

impl MemSpool {
    ghost use Rattle.std.specs.Prelude.{◌≡◌, ◌≤◌, [], ◌∷◌, ◌++◌, ℕ, Some, IfOk, OnOk, OnErr, Contains, IsTrue, ◌↔◌, length, find, nat_eq};
    ghost use Rattle.std.specs.Cmp.Lexicographic.{pointwise};
    ghost use Rattle.std.specs.Option.{option_copied};
    ghost use Rattle.base_devices.specs.SpoolCalls.{names_of};
    ghost use Rattle.mem_spool.specs.MemSpool.{mem_folder, mem_spool_state, spool_fails, next_spool_call, CountsSpoolCall, KeepsCalls};

    /// A folder without files, whose calls do not fail.
    pub fn new(alloc: Global) -> Result<MemSpool, NoMemory>
        ensures files { IfOk result (λ s. mem_spool_state s
            ≡ record { folder = Some (record { files = []; given = 0 }); faults = 0 }) }
        ensures calls { IfOk result (λ s. (spool_fails s ≡ []) × (next_spool_call s ≡ 1)) }
    {
        Ok(MemSpool {
            alloc,
            files: Vec::new(alloc),
            given: 0,
            fails: Vec::new(alloc),
            calls: 0,
            faults: 0,
        })
    }

    /// Whether a file has this name.
    pub fn has(&self, name: &str) -> bool
        ensures { IsTrue result ↔ Contains (names_of (mem_folder self.now).files) name.now }
    {
        self.files.iter().any(|file| file.name.as_str() == name)
    }

    /// Adds a file.
    pub fn add(&mut self, name: &str, time: u64, bytes: &[u8]) -> Result<(), NoMemory>
        requires short { length name.now ≤ 255 }
        requires new { Contains (names_of (mem_folder self.old).files) name.now → ⊥ }
        ensures added { OnOk result ((mem_folder self.new).files ≡ (mem_folder self.old).files
            ++ record { name = name.now; time = time; bytes = bytes.now } ∷ []) }
        ensures refused { OnErr result ((mem_folder self.new).files ≡ (mem_folder self.old).files) }
        ensures calls { KeepsCalls self.old self.new }
        ensures fails { spool_fails self.new ≡ spool_fails self.old }
    {
        let name = Name::of(name).unwrap();
        let Ok(bytes) = bytes.to_vec(self.alloc) else {
            return Err(NoMemory);
        };
        match self.files.push(MemFile { name, time, bytes }) {
            Ok(()) => Ok(()),
            Err(_) => Err(NoMemory),
        }
    }

    /// The call with this number is to fail.
    pub fn fail_at(&mut self, call: u64) -> Result<(), NoMemory>
        ensures listed { OnOk result (spool_fails self.new ≡ spool_fails self.old ++ call ∷ []) }
        ensures refused { OnErr result (spool_fails self.new ≡ spool_fails self.old) }
        ensures calls { KeepsCalls self.old self.new }
        ensures files { (mem_folder self.new).files ≡ (mem_folder self.old).files }
    {
        match self.fails.push(call) {
            Ok(()) => Ok(()),
            Err(_) => Err(NoMemory),
        }
    }

    // Counts a call, which fails where its number is on the list.
    fn count_call(&mut self) -> Result<(), Failed>
        ensures counted { CountsSpoolCall self.old self.new result }
        ensures given { self.new.given ≡ self.old.given }
    {
        self.calls = self.calls.saturating_add(1);
        if self.fails.contains(&self.calls) {
            self.faults = self.faults.saturating_add(1);
            return Err(Failed);
        }
        Ok(())
    }

    // The file with this name.
    fn find(&self, name: &Name) -> Option<&MemFile>
        ensures { option_copied result
            ≡ find (λ file. pointwise nat_eq file.name name.now) self.now.files.items }
    {
        self.files
            .iter()
            .find(|file| file.name.as_str() == name.as_str())
    }
}

// The bytes from an offset on, none where it is past the end.
fn bytes_from(bytes: &[u8], at: u64) -> &[u8]
    ensures { result.now ≡ drop at bytes.now }
{
    &bytes[(at as usize).min(bytes.len())..]
}

impl Spool for MemSpool {
    ghost use Rattle.std.specs.Prelude.{◌≡◌, ◌≤◌, Some, IsErr, IfOk, OnErr, length};
    ghost use Rattle.base_devices.specs.Causes.{HasCause};
    ghost use Rattle.base_devices.specs.SpoolCalls.{MessageFile, Folder, HasFile, GivesName, ReadsFrom};
    ghost use Rattle.mem_spool.specs.MemSpool.{mem_folder, mem_spool_state, CountsSpoolCall, SpoolRest, spool_distinct, spool_rest_same, spool_rest_then};

    ghost state = { mem_spool_state };

    ghost spool_rest = { SpoolRest };

    ghost distinct = { spool_distinct };

    ghost rest_same = { spool_rest_same };

    ghost rest_then = { spool_rest_then };

    fn next_name(&mut self) -> Result<Option<Name>, Failed>
        ensures name { IfOk result (λ name. GivesName (mem_folder self.old) name (Some (mem_folder self.new))) }
        ensures failed { OnErr result (mem_folder self.new ≡ mem_folder self.old) }
        ensures files { (mem_folder self.new).files ≡ (mem_folder self.old).files }
        ensures call { CountsSpoolCall self.old self.new result }
    {
        self.count_call()?;
        match self.files.get(self.given) {
            Some(file) => {
                self.given += 1;
                Ok(Name::of(file.name.as_str()))
            }
            None => Ok(None),
        }
    }

    fn time(&mut self, name: &Name) -> Result<u64, Failed>
        ensures time { IfOk result (λ time. (file : MessageFile) →
            HasFile (Some (mem_folder self.old)) name.now file → time ≡ file.time) }
        ensures folder { mem_folder self.new ≡ mem_folder self.old }
        ensures call { CountsSpoolCall self.old self.new result }
    {
        self.count_call()?;
        match self.find(name) {
            Some(file) => Ok(file.time),
            None => Ok(0),
        }
    }

    fn read(&mut self, name: &Name, at: u64, into: &mut [u8]) -> Result<usize, Failed>
        ensures bytes { IfOk result (λ count. (file : MessageFile) →
            HasFile (Some (mem_folder self.old)) name.now file → ReadsFrom file.bytes at into.new count) }
        ensures bound { IfOk result (λ count. count ≤ length into.new) }
        ensures folder { mem_folder self.new ≡ mem_folder self.old }
        ensures call { CountsSpoolCall self.old self.new result }
    {
        self.count_call()?;
        let Some(file) = self.find(name) else {
            return Ok(0);
        };
        let rest = bytes_from(&file.bytes, at);
        let count = rest.len().min(into.len());
        into[..count].copy_from_slice(&rest[..count]);
        Ok(count)
    }
}
