// A flat file is looked through, and no map of it is made.
ghost use Rattle.std.specs.Prelude.{◌≡◌, ◌≤◌, [], OnOk, IfOk, IfErr, length};
ghost use Rattle.base_devices.specs.Causes.{FaultHasCause};
ghost use Rattle.base_devices.specs.CrashImages.{Shows, WhereRead};
ghost use Rattle.base_devices.specs.DiskCalls.{HasLength};
ghost use Rattle.base_devices.specs.Frames.{StaysAs};
ghost use Rattle.db_core.specs.Opening.{IsDeviceFault, IsOpenRefusal, OpensDisk};
ghost use Rattle.flat_db.specs.Finding.{FindsValue};
ghost use Rattle.flat_db.specs.Opening.{HasValue, IsFlat};
ghost use Rattle.flat_db.specs.Reading.{IsFlatFault};
ghost use Rattle.flat_db.specs.Sessions.{flat_kind};

use crate::FlatFault;
use crate::finding::last_value;
use crate::pairs::part;
use base_bytes::{Bytes, FLAT_LIMIT};
use base_devices::{Disk, ReadFault, read_whole};
use db_core::{OpenFault, file_size};
use std::alloc::Global;

// The value of a key in a text.
pub(crate) fn value_in(alloc: Global, text: Vec<u8>, key: &[u8]) -> Result<Option<Bytes>, FlatFault>
    ensures found { IfOk result (λ value. FindsValue text.items key.now value) }
    ensures fault { IfErr result (λ fault. IsFlatFault text.items fault) }
{
    let mut text = text;
    if text.len() > u32::MAX as usize {
        return Err(FlatFault::NoMemory);
    }
    let Some(span) = last_value(&mut text, key)? else {
        return Ok(None);
    };
    match Bytes::of(alloc, part(&text, span)) {
        Ok(value) => Ok(Some(value)),
        Err(_) => Err(FlatFault::NoMemory),
    }
}

// The value of a key in the main file, whose size was told before.
fn read_value<D: Disk>(
    alloc: Global,
    disk: &mut D,
    size: u64,
    key: &[u8],
) -> Result<Option<Bytes>, OpenFault>
    requires size { Shows (D.state disk.old) → HasLength (D.state disk.old).reads size }
    requires within { size ≤ FLAT_LIMIT }
    ensures value { IfOk result (λ value. HasValue key.now value (D.state disk.old)) }
    ensures refused { IfErr result (λ fault. WhereRead (D.state disk.old)
        (λ main. IsOpenRefusal flat_kind main fault)) }
    ensures cause { FaultHasCause IsDeviceFault (D.state disk.old).faults (D.state disk.new).faults
        result }
    ensures fresh { (D.state disk.new).fresh ≡ (D.state disk.old).fresh }
    ensures stays { StaysAs (D.state disk.old) (D.state disk.new) }
    ensures rest { D.disk_rest disk.old disk.new }
{
    let text = match read_whole(alloc, disk, size) {
        Ok(text) => text,
        Err(ReadFault::NoMemory) => return Err(OpenFault::NoMemory),
        Err(ReadFault::DiskFault) => return Err(OpenFault::DiskFault),
    };
    match value_in(alloc, text, key) {
        Ok(value) => Ok(value),
        Err(FlatFault::Damaged { at, check }) => Err(OpenFault::Damaged { at, check }),
        Err(FlatFault::NoMemory) => Err(OpenFault::NoMemory),
    }
}

/// The value of a key in a flat file, by the same tests and with the same calls of the disk as `open_db`.
///
/// Lines in no order are not sorted. It takes memory for the bytes of the file and those of the value.
pub fn fetch_db<D: Disk>(
    alloc: Global,
    disk: &mut D,
    key: &[u8],
) -> Result<Option<Bytes>, OpenFault>
    ensures value { IfOk result (λ value. HasValue key.now value (D.state disk.old)) }
    ensures refused { IfErr result (λ fault. WhereRead (D.state disk.old)
        (λ main. IsOpenRefusal flat_kind main fault)) }
    ensures cause { FaultHasCause IsDeviceFault (D.state disk.old).faults (D.state disk.new).faults
        result }

    // What it does to the disk.
    ensures disk { OpensDisk flat_kind (D.state disk.old) (D.state disk.new) result }
    ensures reads { OnOk result ((D.state disk.new).reads ≡ (D.state disk.old).reads) }
    ensures rest { D.disk_rest disk.old disk.new }
{
    let size = file_size(disk, FLAT_LIMIT)?;
    let Ok(()) = disk.sync() else {
        return Err(OpenFault::DiskFault);
    };
    let value = read_value(alloc, disk, size, key)?;
    Ok(value)
}

/// Whether a flat file opens, by the same tests as `open_db`. It only reads, and takes memory for the bytes of the file.
pub fn verify_db<D: Disk>(alloc: Global, disk: &mut D) -> Result<(), OpenFault>
    ensures opens { OnOk result (WhereRead (D.state disk.old) IsFlat) }
    ensures refused { IfErr result (λ fault. WhereRead (D.state disk.old)
        (λ main. IsOpenRefusal flat_kind main fault)) }
    ensures cause { FaultHasCause IsDeviceFault (D.state disk.old).faults (D.state disk.new).faults
        result }

    // What it does to the disk.
    ensures fresh { (D.state disk.new).fresh ≡ (D.state disk.old).fresh }
    ensures stays { StaysAs (D.state disk.old) (D.state disk.new) }
    ensures rest { D.disk_rest disk.old disk.new }
{
    let size = file_size(disk, FLAT_LIMIT)?;
    let _no_value = read_value(alloc, disk, size, &[])?;
    Ok(())
}
