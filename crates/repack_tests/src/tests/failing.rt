// Each call of a repack that fails: the file stays, and opens to its map.
use db_core::{Db, DbFault};
use mem_devices::MemDisk;
use rand_pcg::Pcg32;
use std::alloc::Global;
use std::process::Abort;
use std::test::Fail;

// More than each test writes.
const ROOM: u64 = 400_000;

pub fn disk_of(alloc: Global, main: &[u8], fails: &[u64]) -> Result<MemDisk, Fail> {
    if main.len() as u64 > ROOM {
        return Err("the file is too long for the test".into());
    }
    Ok(MemDisk::new(alloc, Some(main), ROOM, fails)?)
}

/// How a repack of a flat file ends.
pub fn flat_fault(alloc: Global, disk: &mut MemDisk) -> Result<Option<DbFault>, Fail> {
    let mut db = flat_db::open_db(alloc, disk)?;
    Ok(flat_db::repack(alloc, &mut db, disk).err())
}

/// How a repack of a twoskip file ends.
pub fn twoskip_fault(alloc: Global, disk: &mut MemDisk) -> Result<Option<DbFault>, Fail> {
    let mut db = twoskip::open_db(alloc, disk)?;
    Ok(twoskip::repack(alloc, &mut db, disk).err())
}

// A flat text of three values of 30,000 letters, which is written in two pieces.
fn long_text(alloc: Global) -> Result<Vec<u8>, Fail> {
    let mut text = Vec::new(alloc);
    for key in [b'a', b'b', b'c'] {
        text.push(key)?;
        text.push(b'\t')?;
        for _ in 0..30_000 {
            text.push(b'v')?;
        }
        text.push(b'\n')?;
    }
    Ok(text)
}

// Fills a twoskip file.
fn fill<B: Db<MemDisk>>(alloc: Global, from: &B, to: &mut MemDisk) -> Result<(), Fail> {
    if from.broken() {
        return Err("the session is broken".into());
    }
    twoskip::fill(alloc, from, to, &mut Pcg32::new(42, 54))?;
    Ok(())
}

// The same pairs as a twoskip file.
fn long_file(alloc: Global, text: &[u8]) -> Result<Vec<u8>, Fail> {
    let mut from = disk_of(alloc, text, &[])?;
    let mut to = MemDisk::new(alloc, None, ROOM, &[])?;
    let db = flat_db::open_db(alloc, &mut from)?;
    fill(alloc, &db, &mut to)?;
    Ok(to.main().unwrap_or(b"").to_vec(alloc)?)
}

fn fault_of(alloc: Global, is_flat: bool, disk: &mut MemDisk) -> Result<Option<DbFault>, Fail> {
    if is_flat {
        flat_fault(alloc, disk)
    } else {
        twoskip_fault(alloc, disk)
    }
}

// Opening makes three calls of the disk. A repack begins the new file, writes it in two pieces, syncs it and publishes it.
fn assert_failing(rt: &impl Abort, alloc: Global, is_flat: bool, file: &[u8]) -> Result<(), Fail> {
    for call in 4..9u64 {
        let mut disk = disk_of(alloc, file, &[call])?;
        let fault = fault_of(alloc, is_flat, &mut disk)?;
        let stays = disk.main() == Some(file);
        assert_eq!(rt;
            (fault, disk.counts().faults, stays),
            (Some(DbFault::DiskFault), 1, true),
            "flat: {is_flat}, call {call}"
        );
        // And nothing is broken for the next session.
        assert_eq!(rt; fault_of(alloc, is_flat, &mut disk)?, None, "call {call}");
    }
    let mut disk = disk_of(alloc, file, &[9])?;
    assert_eq!(rt; fault_of(alloc, is_flat, &mut disk)?, None);
    Ok(())
}

#[test]
fn each_call_of_a_repack_fails(rt: HostRuntime) -> Result<(), Fail> {
    let text = long_text(rt.alloc())?;
    let file = long_file(rt.alloc(), &text)?;
    assert!(rt; text.len() > 65_536 && file.len() > 65_536);
    assert_failing(&rt, rt.alloc(), true, &text)?;
    assert_failing(&rt, rt.alloc(), false, &file)
}
