// Whole transactions over each session.
use super::map_db::MapDb;
use super::steps::{Pairs, reads, walks};
use base_bytes::{Bytes, NoMemory};
use db_core::{Change, Db, DbFault, run_changes};
use flat_db::open_db;
use mem_devices::MemDisk;
use std::alloc::Global;
use std::process::Abort;
use std::test::Fail;

// A change, as the table names it.
#[derive(Clone, Copy)]
enum Edit {
    Put(&'static [u8], &'static [u8]),
    /// Puts a key of so many bytes, without a value.
    PutLong(usize),
    Del(&'static [u8]),
}

// A transaction on the map that the case before it left, what it answers, and the map after it.
struct Case {
    name: &'static str,
    edits: &'static [Edit],
    answer: Result<(), DbFault>,
    after: Pairs,
}

const CASES: &[Case] = &[
    Case {
        name: "an empty list",
        edits: &[],
        answer: Ok(()),
        after: &[],
    },
    Case {
        name: "two puts",
        edits: &[Edit::Put(b"b", b"2"), Edit::Put(b"a", b"1")],
        answer: Ok(()),
        after: &[(b"a", b"1"), (b"b", b"2")],
    },
    Case {
        name: "a put over an old value, and a deletion",
        edits: &[Edit::Put(b"a", b"one"), Edit::Del(b"b")],
        answer: Ok(()),
        after: &[(b"a", b"one")],
    },
    Case {
        name: "a deletion of an absent key",
        edits: &[Edit::Del(b"b")],
        answer: Ok(()),
        after: &[(b"a", b"one")],
    },
    Case {
        name: "an empty key in second place",
        edits: &[Edit::Put(b"c", b"3"), Edit::Put(b"", b"4")],
        answer: Err(DbFault::KeyEmpty),
        after: &[(b"a", b"one")],
    },
    Case {
        name: "a key that is too long",
        edits: &[Edit::PutLong(65_535)],
        answer: Err(DbFault::KeyTooLong { length: 65_535 }),
        after: &[(b"a", b"one")],
    },
    Case {
        name: "an empty list over a pair",
        edits: &[],
        answer: Ok(()),
        after: &[(b"a", b"one")],
    },
];

// One case more for a file that has room for five changes.
const FULL: &[Case] = &[Case {
    name: "a sixth change, for which there is no room",
    edits: &[
        Edit::Put(b"a", b"2"),
        Edit::Del(b"a"),
        Edit::Put(b"b", b"3"),
        Edit::Put(b"b", b"4"),
        Edit::Put(b"c", b"5"),
        Edit::Del(b"b"),
    ],
    answer: Err(DbFault::Full { size: 10 }),
    after: &[(b"a", b"one")],
}];

fn change_of(alloc: Global, edit: Edit) -> Result<Change, NoMemory> {
    let word = 0;
    match edit {
        Edit::Put(key, value) => Ok(Change::Put {
            word,
            key: Bytes::of(alloc, key)?,
            value: Bytes::of(alloc, value)?,
        }),
        Edit::PutLong(size) => {
            let Ok(key) = vec![in alloc; b'k'; size] else {
                return Err(NoMemory);
            };
            Ok(Change::Put {
                word,
                key: Bytes::of(alloc, &key)?,
                value: Bytes::of(alloc, b"")?,
            })
        }
        Edit::Del(key) => Ok(Change::Del {
            key: Bytes::of(alloc, key)?,
        }),
    }
}

fn changes_of(alloc: Global, edits: &[Edit]) -> Result<Vec<Change>, Fail> {
    let mut changes = Vec::new(alloc);
    for edit in edits {
        changes.push(change_of(alloc, *edit)?)?;
    }
    Ok(changes)
}

// Makes a transaction where none stands.
fn make<B: Db<MemDisk>>(db: &mut B, disk: &mut MemDisk, changes: &[Change]) -> Result<(), DbFault>
    requires { B.tie db.old disk.old }
    ensures { B.tie db.new disk.new }
{
    if db.in_transaction() {
        return Err(DbFault::Broken);
    }
    run_changes(db, disk, changes)
}

fn assert_cases<B: Db<MemDisk>>(
    rt: &impl Abort,
    alloc: Global,
    db: &mut B,
    disk: &mut MemDisk,
    cases: &[Case],
) -> Result<(), Fail>
    requires { B.tie db.old disk.old }
    ensures { B.tie db.new disk.new }
{
    for case in cases {
        let changes = changes_of(alloc, case.edits)?;
        let answer = make(db, disk, &changes);
        assert_eq!(rt; answer, case.answer, "{}", case.name);
        assert!(rt; reads(db, disk, case.after), "{}", case.name);
        assert!(rt; walks(db, disk, case.after), "{}", case.name);
    }
    Ok(())
}

#[test]
fn transactions_in_memory(rt: HostRuntime) -> Result<(), Fail> {
    let alloc = rt.alloc();
    let mut disk = MemDisk::new(alloc, None, 1_000, &[])?;
    let mut db = MapDb::new(alloc);
    assert_cases(&rt, alloc, &mut db, &mut disk, CASES)?;
    assert_cases(&rt, alloc, &mut db, &mut disk, FULL)
}

#[test]
fn transactions_in_flat_text(rt: HostRuntime) -> Result<(), Fail> {
    let alloc = rt.alloc();
    let mut disk = MemDisk::new(alloc, Some(b""), 1_000, &[])?;
    let mut db = open_db(alloc, &mut disk)?;
    assert_cases(&rt, alloc, &mut db, &mut disk, CASES)
}
