// A flat file is opened to be shown: where its text is shown as it stands, no map of it is made.
ghost use Rattle.std.specs.Prelude.{◌≡◌, ◌≤◌, true, IfOk, IfErr, OnOk, length};
ghost use Rattle.base_devices.specs.Causes.{FaultHasCause};
ghost use Rattle.base_devices.specs.CrashImages.{Shows, WhereRead};
ghost use Rattle.base_devices.specs.DiskCalls.{HasLength};
ghost use Rattle.base_devices.specs.Frames.{StaysAs};
ghost use Rattle.db_core.specs.Opening.{IsDeviceFault, IsOpenRefusal, OpensDisk};
ghost use Rattle.flat_db.specs.Sessions.{flat_kind};
ghost use Rattle.flat_db.specs.Showing.{IsBare, ShownTied, ShowsAs};

use crate::flat_map::{FlatFault, map_of};
use crate::lines::{plain_end, plain_line};
use crate::pairs::{Span, part};
use crate::session::FlatDb;
use base_bytes::{FLAT_LIMIT, compare_keys};
use base_devices::{Disk, ReadFault, read_whole};
use db_core::{OpenFault, file_size};
use std::alloc::Global;

/// What a flat file gives that is opened to be shown.
#[derive(Drop)]
pub enum Shown {
    /// Its text, in which each line is a pair as it is, by rising key.
    Text(Vec<u8>),
    /// A session over its map.
    Session(FlatDb),
}

// Whether a text has its pairs as they are, by rising key. In front of the first line stands a key without a byte.
fn is_bare(text: &[u8]) -> bool
    requires { length text.now ≤ 4294967295 }
    ensures { result ≡ true → IsBare text.now }
{
    let mut at = 0;
    let mut known = 0;
    let mut last = Span { start: 0, size: 0 };
    while at < text.len() {
        known = plain_end(text, at, known);
        let Some(line) = plain_line(text, at, known) else {
            return false;
        };
        if !compare_keys(part(text, last), part(text, line.entry.key)).is_lt() {
            return false;
        }
        last = line.entry.key;
        at = line.next;
    }
    true
}

// What the main file gives, whose size was told before.
fn read_shown<D: Disk>(alloc: Global, disk: &mut D, size: u64) -> Result<Shown, OpenFault>
    requires size { Shows (D.state disk.old) → HasLength (D.state disk.old).reads size }
    requires within { size ≤ FLAT_LIMIT }
    ensures shows { IfOk result (ShowsAs (D.state disk.old)) }
    ensures refused { IfErr result (λ fault. WhereRead (D.state disk.old)
        (λ main. IsOpenRefusal flat_kind main fault)) }
    ensures cause { FaultHasCause IsDeviceFault (D.state disk.old).faults (D.state disk.new).faults
        result }
    ensures fresh { (D.state disk.new).fresh ≡ (D.state disk.old).fresh }
    ensures stays { StaysAs (D.state disk.old) (D.state disk.new) }
    ensures rest { D.disk_rest disk.old disk.new }
{
    let text = match read_whole(alloc, disk, size) {
        Ok(text) => text,
        Err(ReadFault::NoMemory) => return Err(OpenFault::NoMemory),
        Err(ReadFault::DiskFault) => return Err(OpenFault::DiskFault),
    };
    if is_bare(&text) {
        return Ok(Shown::Text(text));
    }
    match map_of(alloc, text) {
        Ok(map) => Ok(Shown::Session(FlatDb::over(alloc, map))),
        Err(FlatFault::Damaged { at, check }) => Err(OpenFault::Damaged { at, check }),
        Err(FlatFault::NoMemory) => Err(OpenFault::NoMemory),
    }
}

/// Opens a flat file to be shown, by the same tests and with the same calls of the disk as `open_db`.
///
/// A text whose lines are pairs as they are, by rising key, takes memory for its bytes alone.
pub fn open_shown<D: Disk>(alloc: Global, disk: &mut D) -> Result<Shown, OpenFault>
    ensures shows { IfOk result (ShowsAs (D.state disk.old)) }
    ensures refused { IfErr result (λ fault. WhereRead (D.state disk.old)
        (λ main. IsOpenRefusal flat_kind main fault)) }
    ensures cause { FaultHasCause IsDeviceFault (D.state disk.old).faults (D.state disk.new).faults
        result }

    // What it does to the disk.
    ensures disk { OpensDisk flat_kind (D.state disk.old) (D.state disk.new) result }
    ensures reads { OnOk result ((D.state disk.new).reads ≡ (D.state disk.old).reads) }
    ensures tied { IfOk result (ShownTied (D.state disk.new)) }
    ensures rest { D.disk_rest disk.old disk.new }
{
    let size = file_size(disk, FLAT_LIMIT)?;
    let Ok(()) = disk.sync() else {
        return Err(OpenFault::DiskFault);
    };
    let shown = read_shown(alloc, disk, size)?;
    Ok(shown)
}
