// What is measured, over any disk.
ghost use Rattle.std.specs.Prelude.{◌≡◌, false};
ghost use Rattle.skip_txn.specs.Sessions.{session_state};

use crate::pairs::{KeyOrder, key_of};
use base_bytes::SKIP_LIMIT;
use base_devices::{Disk, read_whole};
use check_word::check;
use db_core::{Change, Db, OpenFault, file_size, run_changes};
use mem_devices::MemDisk;
use rand_core::Rng;
use rand_pcg::Pcg32;
use std::alloc::Global;
use twoskip::{Twoskip, create, open_db};

// A new file, and in it all changes, in one transaction.
pub fn store_all<D: Disk>(alloc: Global, disk: &mut D, changes: &[Change]) -> Option<()> {
    create(disk).ok()?;
    let mut db = open_db(alloc, disk).ok()?;
    run_changes(&mut db, disk, changes).ok()
}

// The same over a disk in memory with much room; the answer is how many bytes were written into its file.
pub fn stored_in_memory(alloc: Global, changes: &[Change]) -> Option<u64> {
    let mut disk = MemDisk::new(alloc, None, SKIP_LIMIT, &[]).ok()?;
    store_all(alloc, &mut disk, changes)?;
    Some(disk.counts().written)
}

// How many of the keys that are looked up are there.
fn found_in<D: Disk>(_disk: &D, db: &Twoskip, count: u32, times: u32) -> u32
    requires { (session_state db.now).is_broken ≡ false }
{
    let mut rng = Pcg32::new(1, 1);
    let mut found = 0u32;
    for _ in 0..times {
        let key = key_of(rng.next_u32() % count.max(1), KeyOrder::None);
        if <Twoskip as Db<D>>::fetch(db, &key).is_some() {
            found = found.saturating_add(1);
        }
    }
    found
}

// Opens the file, and looks up so many keys of its pairs.
pub fn look_up<D: Disk>(alloc: Global, disk: &mut D, count: u32, times: u32) -> Option<u32> {
    let db = open_db(alloc, disk).ok()?;
    Some(found_in(disk, &db, count, times))
}

// All bytes of the main file.
fn bytes_of<D: Disk>(alloc: Global, disk: &mut D) -> Result<Vec<u8>, OpenFault> {
    let size = file_size(disk, SKIP_LIMIT)?;
    match read_whole(alloc, disk, size) {
        Ok(bytes) => Ok(bytes),
        Err(_) => Err(OpenFault::DiskFault),
    }
}

// The check word of all bytes of the main file.
pub fn word_of<D: Disk>(alloc: Global, disk: &mut D) -> Option<u32> {
    let bytes = bytes_of(alloc, disk).ok()?;
    Some(check(&bytes))
}
