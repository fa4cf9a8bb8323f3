// A file is read whole.
ghost use Rattle.std.specs.Prelude.{◌≡◌, ◌≤◌, ◌<◌, ◌+◌, take, ℕ, List, Some, IsSome, IfOk, OnOk, length, vec_len};
ghost use Rattle.base_devices.specs.Causes.{HasCause, FaultHasCause, IsReadFault};
ghost use Rattle.base_devices.specs.Frames.{StaysAs};
ghost use Rattle.base_devices.specs.CrashImages.{Shows, Reads};
ghost use Rattle.base_devices.specs.DiskCalls.{HasLength};

use crate::{Disk, Failed};
use std::alloc::Global;

/// Why a file could not be read whole.
#[derive(Clone, Copy, Debug, PartialEq, Eq)]
pub enum ReadFault {
    NoMemory,
    DiskFault,
}

/// All the bytes of the main file, whose length was answered before. No other call of the disk is made than reads.
pub fn read_whole<D: Disk>(alloc: Global, disk: &mut D, length: u64) -> Result<Vec<u8>, ReadFault>
    requires { Shows (D.state disk.old) → HasLength (D.state disk.old).reads length }
    ensures bytes { IfOk result (λ v. (b : List ℕ) → Reads (D.state disk.old) b → v.items ≡ b) }
    ensures size { IfOk result (λ v. vec_len v ≡ length) }
    ensures cause { FaultHasCause IsReadFault (D.state disk.old).faults (D.state disk.new).faults
        result }
    ensures fresh { (D.state disk.new).fresh ≡ (D.state disk.old).fresh }
    ensures stays { StaysAs (D.state disk.old) (D.state disk.new) }
    ensures rest { D.disk_rest disk.old disk.new }
{
    let Ok(mut bytes) = vec![in alloc; 0u8; length as usize] else {
        return Err(ReadFault::NoMemory);
    };
    match fill(disk, &mut bytes) {
        Ok(()) => Ok(bytes),
        Err(_) => Err(ReadFault::DiskFault),
    }
}

// Reads the first bytes of the main file, as many as there is room for.
fn fill<D: Disk>(disk: &mut D, into: &mut [u8]) -> Result<(), Failed>
    requires { Shows (D.state disk.old)
        → HasLength (D.state disk.old).reads (length into.old) }
    ensures bytes { OnOk result ((b : List ℕ) → Reads (D.state disk.old) b → into.new ≡ b) }
    ensures fresh { (D.state disk.new).fresh ≡ (D.state disk.old).fresh }
    ensures stays { StaysAs (D.state disk.old) (D.state disk.new) }
    ensures cause { HasCause (D.state disk.old).faults (D.state disk.new).faults result }
    ensures rest { D.disk_rest disk.old disk.new }
{
    let mut at = 0;
    while at < into.len() {
        at += read_piece(disk, at, into)?;
    }
    Ok(())
}

// Reads some of the bytes from `at` on into their place.
fn read_piece<D: Disk>(disk: &mut D, at: usize, into: &mut [u8]) -> Result<usize, Failed>
    requires at { at < length into.old }
    requires there { Shows (D.state disk.old)
        → HasLength (D.state disk.old).reads (length into.old) }
    ensures bound { IfOk result (λ count. (0 < count) × (at + count ≤ length into.old)) }
    ensures before { take at into.new ≡ take at into.old }
    ensures bytes { IfOk result (λ count. (b : List ℕ) → Reads (D.state disk.old) b
        → take at into.old ≡ take at b → take (at + count) into.new ≡ take (at + count) b) }
    ensures fresh { (D.state disk.new).fresh ≡ (D.state disk.old).fresh }
    ensures stays { StaysAs (D.state disk.old) (D.state disk.new) }
    ensures cause { HasCause (D.state disk.old).faults (D.state disk.new).faults result }
    ensures rest { D.disk_rest disk.old disk.new }
{
    let count = disk.read_at(at as u64, &mut into[at..])?;
    Ok(count)
}
