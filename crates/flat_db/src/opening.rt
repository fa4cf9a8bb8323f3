// A flat file is opened, or looked through.
ghost use Rattle.std.specs.Prelude.{◌≡◌, ◌≤◌, IfOk, IfErr, OnOk};
ghost use Rattle.base_bytes.specs.OrderedMap.{IsDbMap};
ghost use Rattle.base_devices.specs.Causes.{FaultHasCause};
ghost use Rattle.base_devices.specs.CrashImages.{Shows, WhereRead};
ghost use Rattle.base_devices.specs.DiskCalls.{HasLength};
ghost use Rattle.base_devices.specs.Frames.{StaysAs};
ghost use Rattle.db_core.specs.Opening.{ChecksAs, IsDeviceFault, IsOpenRefusal, OpensAs, OpensDisk};
ghost use Rattle.flat_db.specs.Opening.{flat_opens};
ghost use Rattle.flat_db.specs.Sessions.{FlatTied, flat_kind, flat_state};

use crate::flat_map::{FlatFault, FlatMap, map_of};
use crate::session::FlatDb;
use base_bytes::FLAT_LIMIT;
use base_devices::{Disk, ReadFault, read_whole};
use db_core::{OpenFault, file_size};
use std::alloc::Global;

// The map of the main file, whose size was told before.
fn read_map<D: Disk>(alloc: Global, disk: &mut D, size: u64) -> Result<FlatMap, OpenFault>
    requires size { Shows (D.state disk.old) → HasLength (D.state disk.old).reads size }
    requires within { size ≤ FLAT_LIMIT }
    ensures map { IfOk result (λ map. WhereRead (D.state disk.old) (λ main. flat_opens main map)) }
    ensures sound { IfOk result IsDbMap }
    ensures refused { IfErr result (λ fault. WhereRead (D.state disk.old)
        (λ main. IsOpenRefusal flat_kind main fault)) }
    ensures cause { FaultHasCause IsDeviceFault (D.state disk.old).faults (D.state disk.new).faults
        result }
    ensures fresh { (D.state disk.new).fresh ≡ (D.state disk.old).fresh }
    ensures stays { StaysAs (D.state disk.old) (D.state disk.new) }
    ensures rest { D.disk_rest disk.old disk.new }
{
    let text = match read_whole(alloc, disk, size) {
        Ok(text) => text,
        Err(ReadFault::NoMemory) => return Err(OpenFault::NoMemory),
        Err(ReadFault::DiskFault) => return Err(OpenFault::DiskFault),
    };
    match map_of(alloc, text) {
        Ok(map) => Ok(map),
        Err(FlatFault::Damaged { at, check }) => Err(OpenFault::Damaged { at, check }),
        Err(FlatFault::NoMemory) => Err(OpenFault::NoMemory),
    }
}

/// Opens a flat file: a session over its map, where it is there, within its limit and without a flaw.
///
/// The file is synced before it is read, so that a crash later leaves no other one than was read. An absent file
/// is not synced, and one over the limit is refused as soon as its length is known.
pub fn open_db<D: Disk>(alloc: Global, disk: &mut D) -> Result<FlatDb, OpenFault>
    ensures opens { OpensAs flat_kind flat_state (D.state disk.old) result }
    ensures disk { OpensDisk flat_kind (D.state disk.old) (D.state disk.new) result }
    ensures reads { OnOk result ((D.state disk.new).reads ≡ (D.state disk.old).reads) }
    ensures cause { FaultHasCause IsDeviceFault (D.state disk.old).faults (D.state disk.new).faults
        result }
    ensures tied { IfOk result (λ db. FlatTied db (D.state disk.new)) }
    ensures rest { D.disk_rest disk.old disk.new }
{
    let size = file_size(disk, FLAT_LIMIT)?;
    let Ok(()) = disk.sync() else {
        return Err(OpenFault::DiskFault);
    };
    let map = read_map(alloc, disk, size)?;
    Ok(FlatDb::over(alloc, map))
}

/// How many pairs the map of a flat file has, by the same tests as `open_db`. It only reads.
pub fn check_db<D: Disk>(alloc: Global, disk: &mut D) -> Result<u64, OpenFault>
    ensures checks { ChecksAs flat_kind (D.state disk.old) result }
    ensures cause { FaultHasCause IsDeviceFault (D.state disk.old).faults (D.state disk.new).faults
        result }
    ensures fresh { (D.state disk.new).fresh ≡ (D.state disk.old).fresh }
    ensures stays { StaysAs (D.state disk.old) (D.state disk.new) }
    ensures rest { D.disk_rest disk.old disk.new }
{
    let size = file_size(disk, FLAT_LIMIT)?;
    let map = read_map(alloc, disk, size)?;
    Ok(map.count())
}
