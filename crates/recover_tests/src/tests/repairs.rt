// A file is repaired over a disk in memory, whole or up to a stop.
ghost use Rattle.std.specs.Prelude.{List, ℕ, length, Some, IfOk};
ghost use Rattle.base_bytes.specs.OrderedMap.{Map};
ghost use Rattle.base_devices.specs.CrashImages.{Image, Reads};
ghost use Rattle.mem_devices.specs.Memory.{mem_state};
ghost use Rattle.skip_spec.specs.Opens.{Opens};
ghost use Rattle.recover_tests.specs.Left.{HasMap, LeavesMapNow};

use mem_devices::MemDisk;
use skip_image::Image;
use skip_recover::recover;
use std::alloc::Global;
use std::process::Abort;
use std::test::Fail;

// More than a repair writes.
const ROOM: u64 = 40_000;

/// Which of the pending landings are made when a stop comes: none, all, and each second one.
pub const LANDED: [[bool; 8]; 4] = [
    [false; 8],
    [true; 8],
    [true, false, true, false, true, false, true, false],
    [false, true, false, true, false, true, false, true],
];

// A disk with this file, which is synced.
fn disk_of(alloc: Global, file: &[u8]) -> Result<MemDisk, Fail>
    ensures { IfOk result (λ d. (m : Map) → Opens file.now m → HasMap m (mem_state d)) }
{
    if file.len() as u64 > ROOM {
        return Err("the file is too long for the test".into());
    }
    Ok(MemDisk::new(alloc, Some(file), ROOM, &[])?)
}

// The bytes of the file that the disk reads.
fn bytes_of(alloc: Global, disk: &MemDisk) -> Result<Vec<u8>, Fail>
    ensures { IfOk result (λ bytes. Reads (mem_state disk.now) bytes.items) }
{
    let Some(bytes) = disk.main() else {
        return Err("there is no file".into());
    };
    Ok(bytes.to_vec(alloc)?)
}

// The file that the disk reads, in memory.
fn image_of(alloc: Global, disk: &MemDisk) -> Result<Image, Fail>
    ensures { IfOk result (λ i. Reads (mem_state disk.now) i.bytes) }
{
    let bytes = bytes_of(alloc, disk)?;
    if bytes.len() > 100_000 {
        return Err("the file is too long for the test".into());
    }
    Ok(Image::of(alloc, bytes)?)
}

// Repairs the file of a disk, where it has DIRTY, and answers whether the disk failed.
fn repair(alloc: Global, disk: &mut MemDisk) -> Result<bool, Fail>
    requires { (m : Map) × HasMap m (mem_state disk.old) }
    ensures { (m : Map) → HasMap m (mem_state disk.old) → LeavesMapNow m (mem_state disk.new) }
{
    let mut image = image_of(alloc, disk)?;
    if image.header().flags % 2 == 0 {
        return Ok(false);
    }
    Ok(recover(&mut image, disk).is_err())
}

// The file that a stop leaves of a repair after so many landings, where of those that pend some are made.
fn stopped(alloc: Global, file: &[u8], landings: u64, landed: &[bool]) -> Result<Vec<u8>, Fail>
    requires { (m : Map) × Opens file.now m }
    ensures { IfOk result (λ left. (m : Map) → Opens file.now m → Opens left.items m) }
{
    let mut disk = disk_of(alloc, file)?;
    disk.stop_after(landings);
    let _ = repair(alloc, &mut disk)?;
    let left = disk.left(alloc, landed)?;
    let bytes = bytes_of(alloc, &left)?;
    Ok(bytes)
}

// A repair without a stop, and how many landings it makes.
fn assert_repaired(rt: &impl Abort, alloc: Global, file: &[u8], wanted: &[u8]) -> Result<u64, Fail>
    requires { (m : Map) × Opens file.now m }
{
    let mut disk = disk_of(alloc, file)?;
    let failed = repair(alloc, &mut disk)?;
    let is_wanted = disk.main() == Some(wanted);
    assert_eq!(rt; (failed, is_wanted), (false, true));
    Ok(disk.landings())
}

/// The file is repaired to the one that is wanted, also after a stop at each landing, in each of these cases.
pub fn assert_stopped(
    rt: &impl Abort,
    alloc: Global,
    file: &[u8],
    wanted: &[u8],
    cases: &[[bool; 8]],
) -> Result<(), Fail>
    requires { (m : Map) × Opens file.now m }
{
    let landings = assert_repaired(rt, alloc, file, wanted)?;
    for stop in 0..landings {
        for landed in cases {
            let left = stopped(alloc, file, stop, landed)?;
            let _ = assert_repaired(rt, alloc, &left, wanted)?;
        }
    }
    Ok(())
}

/// And so is it where the repair after the stop is stopped too.
pub fn assert_stopped_twice(
    rt: &impl Abort,
    alloc: Global,
    file: &[u8],
    wanted: &[u8],
    cases: &[[bool; 8]],
) -> Result<(), Fail>
    requires { (m : Map) × Opens file.now m }
{
    let landings = assert_repaired(rt, alloc, file, wanted)?;
    for stop in 0..landings {
        for landed in cases {
            let left = stopped(alloc, file, stop, landed)?;
            assert_stopped(rt, alloc, &left, wanted, cases)?;
        }
    }
    Ok(())
}
