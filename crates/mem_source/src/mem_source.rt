// A source of bytes in memory.
ghost use Rattle.std.specs.Prelude.{◌≤◌, vec_len};

use base_bytes::NoMemory;
use base_devices::Failed;
use base_source::Source;
use std::alloc::Global;

/// Bytes in memory that are read in pieces, and a list of the calls that are to fail.
///
/// The calls count from 1, and a call answers `Failed` exactly where its number is on the list.
#[derive(Drop)]
pub struct MemSource {
    bytes: Vec<u8>,
    at: usize,
    piece: usize,
    fails: Vec<u64>,
    calls: u64,
    faults: u64,
    ghost within: { at ≤ vec_len bytes },
    ghost some: { 1 ≤ piece },
}

impl MemSource {
    ghost use Rattle.std.specs.Prelude.{◌≡◌, ◌≤◌, [], Some, IfOk};
    ghost use Rattle.mem_source.specs.MemSource.{mem_source_state, next_source_call, source_fails, source_piece, CountsSourceCall};

    /// A source of these bytes, of which a read gives at most `piece`, and at least one.
    pub fn new(
        alloc: Global,
        bytes: &[u8],
        piece: usize,
        fails: &[u64],
    ) -> Result<MemSource, NoMemory>
        requires { 1 ≤ piece }
        ensures bytes { IfOk result (λ s. mem_source_state s
            ≡ record { left = Some bytes.now; faults = 0 }) }
        ensures piece { IfOk result (λ s. source_piece s ≡ piece) }
        ensures calls { IfOk result (λ s. (source_fails s ≡ fails.now) × (next_source_call s ≡ 1)) }
    {
        let Ok(bytes) = bytes.to_vec(alloc) else {
            return Err(NoMemory);
        };
        let Ok(fails) = fails.to_vec(alloc) else {
            return Err(NoMemory);
        };
        Ok(MemSource {
            bytes,
            at: 0,
            piece,
            fails,
            calls: 0,
            faults: 0,
        })
    }

    // Counts a call, which fails where its number is on the list.
    fn count_call(&mut self) -> Result<(), Failed>
        ensures counted { CountsSourceCall self.old self.new result }
        ensures bytes { self.new.bytes ≡ self.old.bytes }
        ensures at { self.new.at ≡ self.old.at }
    {
        self.calls = self.calls.saturating_add(1);
        if self.fails.contains(&self.calls) {
            self.faults = self.faults.saturating_add(1);
            return Err(Failed);
        }
        Ok(())
    }
}

impl Source for MemSource {
    ghost use Rattle.std.specs.Prelude.{◌≡◌, ◌≤◌, IfOk, OnErr, length, drop, min};
    ghost use Rattle.base_source.specs.SourceCalls.{Takes};
    ghost use Rattle.mem_source.specs.MemSource.{mem_left, mem_source_state, source_piece, CountsSourceCall};

    ghost state = { mem_source_state };

    fn read(&mut self, into: &mut [u8]) -> Result<usize, Failed>
        ensures bytes { IfOk result (λ count. Takes (mem_left self.old) into.new count) }
        ensures taken { IfOk result (λ count. mem_left self.new ≡ drop count (mem_left self.old)) }
        ensures failed { OnErr result (mem_left self.new ≡ mem_left self.old) }
        ensures size { IfOk result (λ count. count
            ≡ min (min (length (mem_left self.old)) (length into.new)) (source_piece self.old)) }
        ensures call { CountsSourceCall self.old self.new result }
    {
        self.count_call()?;
        let rest = &self.bytes[self.at..];
        let count = rest.len().min(into.len()).min(self.piece);
        into[..count].copy_from_slice(&rest[..count]);
        self.at += count;
        Ok(count)
    }
}
