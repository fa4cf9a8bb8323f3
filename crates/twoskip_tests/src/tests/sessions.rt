// Transactions on a twoskip file, and what the disk reads after them.
use super::files::{DELETED, EMPTY, ONE_PAIR};
use base_bytes::Bytes;
use db_core::{Change, run_changes};
use mem_devices::MemDisk;
use std::test::Fail;
use twoskip::open_db;

// A word of which the last bit is 0 gives level 1.
const WORD: u32 = 0;

// The first transaction puts `a` = `b` at 336, and the second deletes it; one of an absent key writes nothing.
#[test]
fn changes_append_records(rt: HostRuntime) -> Result<(), Fail> {
    let alloc = rt.alloc();
    let mut disk = MemDisk::new(alloc, Some(&EMPTY), 4_000, &[])?;
    let mut db = open_db(alloc, &mut disk)?;
    let put = Change::Put {
        word: WORD,
        key: Bytes::of(alloc, b"a")?,
        value: Bytes::of(alloc, b"b")?,
    };
    run_changes(&mut db, &mut disk, &[put])?;
    let is_put = disk.main() == Some(&ONE_PAIR);
    let del = [Change::Del {
        key: Bytes::of(alloc, b"a")?,
    }];
    run_changes(&mut db, &mut disk, &del)?;
    let is_deleted = disk.main() == Some(&DELETED);
    let written = disk.counts().written;
    run_changes(&mut db, &mut disk, &del)?;
    let is_same = disk.counts().written == written;
    assert_eq!(rt; (is_put, is_deleted, is_same), (true, true, true));
    Ok(())
}
