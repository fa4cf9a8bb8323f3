// Sessions over flat text in a disk in memory, and what its file reads after them.
use super::steps::{Answer, Pairs, Step, first_wrong};
use base_bytes::Flaw;
use base_devices::Failed;
use db_core::{Db, DbFault, OpenFault};
use flat_db::{check_db, create, open_db};
use mem_devices::MemDisk;
use std::alloc::Global;
use std::process::Abort;
use std::test::Fail;

// More than most tests write.
const ROOM: u64 = 4_000;

fn disk_of(alloc: Global, main: Option<&[u8]>, room: u64, fails: &[u64]) -> Result<MemDisk, Fail> {
    if main.is_some_and(|bytes| bytes.len() as u64 > room) {
        return Err("the file is too long for the test".into());
    }
    Ok(MemDisk::new(alloc, main, room, fails)?)
}

// A session on a file, and what the file then reads. Opening makes the calls 1 to 3 of the disk, where the file has
// a byte: its length, its sync and one read.
struct Case {
    name: &'static str,
    main: &'static [u8],
    /// The numbers of the calls that are to fail, none of which opening makes.
    fails: &'static [u64],
    script: &'static [(Step, Answer)],
    left: &'static [u8],
    /// How many calls failed, and how many were to publish.
    faults: u64,
    publishes: u64,
}

// Any call after opening fails.
const NO_CALL: &[u64] = &[4, 5, 6, 7, 8, 9, 10, 11];

const OK: Answer = Ok(true);

const NO: Answer = Ok(false);

const BROKEN: Answer = Err(DbFault::Broken);

// Takes the steps of a case.
fn assert_case(rt: &impl Abort, alloc: Global, case: &Case) -> Result<(), Fail> {
    let mut disk = disk_of(alloc, Some(case.main), ROOM, case.fails)?;
    let mut db = open_db(alloc, &mut disk)?;
    let wrong = first_wrong(&mut db, &mut disk, b"", case.script);
    let counts = disk.counts();
    let is_left = disk.main() == Some(case.left);
    assert_eq!(rt;
        (wrong, is_left, counts.faults, counts.publishes),
        (None, true, case.faults, case.publishes),
        "{}",
        case.name
    );
    Ok(())
}

const WRITING: &[Case] = &[
    Case {
        name: "lines in any order become canonical",
        main: b"b\t1\na\t2\nb\t3",
        fails: &[],
        script: &[
            (Step::Begin, OK),
            (Step::Store(b"c", b"4"), OK),
            (Step::Commit, OK),
        ],
        left: b"a\t2\nb\t3\nc\t4\n",
        faults: 0,
        publishes: 1,
    },
    Case {
        name: "a value with TAB is escaped",
        main: b"a\t1\n",
        fails: &[],
        script: &[
            (Step::Begin, OK),
            (Step::Store(b"a", b"x\ty"), OK),
            (Step::Commit, OK),
            (Step::Reads(&[(b"a", b"x\ty")]), OK),
        ],
        left: b"a\tx\xff\x89y\n",
        faults: 0,
        publishes: 1,
    },
    Case {
        name: "an equal value rewrites the file",
        main: b"b\t1\na\t2\nb\t3",
        fails: &[],
        script: &[
            (Step::Begin, OK),
            (Step::Store(b"b", b"3"), OK),
            (Step::Commit, OK),
        ],
        left: b"a\t2\nb\t3\n",
        faults: 0,
        publishes: 1,
    },
    Case {
        name: "a key is deleted, and stored in the next transaction",
        main: b"a\t1\nb\t2\n",
        fails: &[],
        script: &[
            (Step::Begin, OK),
            (Step::Delete(b"a"), OK),
            (Step::Delete(b"a"), NO),
            (Step::Commit, OK),
            (Step::Reads(&[(b"b", b"2")]), OK),
            (Step::Begin, OK),
            (Step::Store(b"a", b""), OK),
            (Step::Commit, OK),
            (Step::Reads(&[(b"a", b""), (b"b", b"2")]), OK),
        ],
        left: b"a\t\nb\t2\n",
        faults: 0,
        publishes: 2,
    },
    Case {
        name: "the last key is deleted",
        main: b"a\t1\n",
        fails: &[],
        script: &[
            (Step::Begin, OK),
            (Step::Delete(b"a"), OK),
            (Step::Commit, OK),
            (Step::Reads(&[]), OK),
        ],
        left: b"",
        faults: 0,
        publishes: 1,
    },
];

#[test]
fn commit_writes_canonical_text(rt: HostRuntime) -> Result<(), Fail> {
    for case in WRITING {
        assert_case(&rt, rt.alloc(), case)?;
    }
    Ok(())
}

const BEFORE: Pairs = &[(b"a", b"1"), (b"c", b"3"), (b"e", b"5")];

const SILENT: &[Case] = &[
    Case {
        name: "only an absent key is deleted",
        main: b"b\t1\na\t2\nb\t3",
        fails: NO_CALL,
        script: &[
            (Step::Begin, OK),
            (Step::Delete(b"c"), NO),
            (Step::Commit, OK),
            (Step::Reads(&[(b"a", b"2"), (b"b", b"3")]), OK),
        ],
        left: b"b\t1\na\t2\nb\t3",
        faults: 0,
        publishes: 0,
    },
    Case {
        name: "an empty transaction",
        main: b"b\t1\na\t2\nb\t3",
        fails: NO_CALL,
        script: &[
            (Step::Begin, OK),
            (Step::IsOpen, OK),
            (Step::Commit, OK),
            (Step::IsOpen, NO),
        ],
        left: b"b\t1\na\t2\nb\t3",
        faults: 0,
        publishes: 0,
    },
    Case {
        name: "a transaction is given up",
        main: b"e\t5\nc\t3\na\t1\n",
        fails: NO_CALL,
        script: &[
            (Step::Reads(BEFORE), OK),
            (Step::Next(b"b", b"c", b"c"), OK),
            (Step::Begin, OK),
            (Step::Store(b"b", b"2"), OK),
            (Step::Store(b"c", b"three"), OK),
            (Step::Delete(b"e"), OK),
            (
                Step::Reads(&[(b"a", b"1"), (b"b", b"2"), (b"c", b"three")]),
                OK,
            ),
            (Step::Next(b"b", b"b", b"c"), OK),
            (Step::IsLast(b"d"), OK),
            (Step::Abort, OK),
            (Step::Reads(BEFORE), OK),
            (Step::Next(b"b", b"c", b"c"), OK),
            (Step::Next(b"d", b"e", b"e"), OK),
            (Step::IsLast(b"f"), OK),
        ],
        left: b"e\t5\nc\t3\na\t1\n",
        faults: 0,
        publishes: 0,
    },
];

#[test]
fn nothing_is_called_without_a_change(rt: HostRuntime) -> Result<(), Fail> {
    for case in SILENT {
        assert_case(&rt, rt.alloc(), case)?;
    }
    Ok(())
}

// A transaction whose commit meets a fault, and every call after it.
const BREAKS: &[(Step, Answer)] = &[
    (Step::Begin, OK),
    (Step::Store(b"b", b"2"), OK),
    (Step::Delete(b"a"), OK),
    (Step::IsBroken, NO),
    (Step::Commit, Err(DbFault::DiskFault)),
    (Step::IsBroken, OK),
    (Step::IsOpen, NO),
    (Step::Begin, BROKEN),
    (Step::Store(b"", b"3"), BROKEN),
    (Step::Store(b"c", b"3"), BROKEN),
    (Step::Delete(b"a"), BROKEN),
    (Step::Delete(b"d"), BROKEN),
    (Step::Commit, BROKEN),
    (Step::Abort, BROKEN),
    (Step::IsBroken, OK),
    (Step::IsOpen, NO),
];

const FAILING: &[Case] = &[
    Case {
        name: "the new file is not begun",
        main: b"a\t1\n",
        fails: &[4, 5, 6, 7, 8, 9, 10, 11, 12, 13],
        script: BREAKS,
        left: b"a\t1\n",
        faults: 1,
        publishes: 0,
    },
    Case {
        name: "the new file is not written",
        main: b"a\t1\n",
        fails: &[5, 6, 7, 8, 9, 10, 11, 12, 13, 14],
        script: BREAKS,
        left: b"a\t1\n",
        faults: 1,
        publishes: 0,
    },
    Case {
        name: "the new file is not synced",
        main: b"a\t1\n",
        fails: &[6, 7, 8, 9, 10, 11, 12, 13, 14, 15],
        script: BREAKS,
        left: b"a\t1\n",
        faults: 1,
        publishes: 0,
    },
    Case {
        name: "the new file is not published",
        main: b"a\t1\n",
        fails: &[7, 8, 9, 10, 11, 12, 13, 14, 15, 16],
        script: BREAKS,
        left: b"a\t1\n",
        faults: 1,
        publishes: 1,
    },
    Case {
        name: "there is no eighth call",
        main: b"a\t1\n",
        fails: &[8],
        script: &[
            (Step::Begin, OK),
            (Step::Store(b"b", b"2"), OK),
            (Step::Delete(b"a"), OK),
            (Step::Commit, OK),
            (Step::IsBroken, NO),
            (Step::IsOpen, NO),
        ],
        left: b"b\t2\n",
        faults: 0,
        publishes: 1,
    },
    Case {
        name: "giving up makes no call",
        main: b"a\t1\n",
        fails: NO_CALL,
        script: &[
            (Step::Begin, OK),
            (Step::Store(b"b", b"2"), OK),
            (Step::Abort, OK),
            (Step::IsBroken, NO),
            (Step::Reads(&[(b"a", b"1")]), OK),
        ],
        left: b"a\t1\n",
        faults: 0,
        publishes: 0,
    },
];

#[test]
fn each_failing_call_breaks_the_session(rt: HostRuntime) -> Result<(), Fail> {
    for case in FAILING {
        assert_case(&rt, rt.alloc(), case)?;
    }
    Ok(())
}

// A stop after a publish that failed leaves this text, where it landed or not.
fn leaves(alloc: Global, disk: &MemDisk, has_landed: bool, text: &[u8]) -> Result<bool, Fail> {
    let left = disk.left(alloc, &[has_landed])?;
    Ok(left.main() == Some(text))
}

#[test]
fn failed_publish_leaves_one_of_two(rt: HostRuntime) -> Result<(), Fail> {
    let alloc = rt.alloc();
    let mut disk = disk_of(alloc, Some(b"a\t1\n"), ROOM, &[7])?;
    let mut db = open_db(alloc, &mut disk)?;
    let wrong = first_wrong(&mut db, &mut disk, b"", BREAKS);
    let left = [
        leaves(alloc, &disk, false, b"a\t1\n")?,
        leaves(alloc, &disk, true, b"b\t2\n")?,
    ];
    assert_eq!(rt; (wrong, left), (None, [true, true]));
    Ok(())
}

// A file that is opened, and looked through.
struct Opening {
    name: &'static str,
    main: Option<&'static [u8]>,
    /// The numbers of the calls that are to fail.
    fails: &'static [u64],
    /// How many pairs opening finds, and looking through.
    opened: Result<u64, OpenFault>,
    checked: Result<u64, OpenFault>,
}

const FAULT: Result<u64, OpenFault> = Err(OpenFault::DiskFault);

const ABSENT: Result<u64, OpenFault> = Err(OpenFault::Absent);

const TEXT: Option<&[u8]> = Some(b"b\t1\na\t2\nb\t3");

const NO_TAB: Result<u64, OpenFault> = Err(OpenFault::Damaged {
    at: 4,
    check: Flaw::NoTab,
});

const NO_KEY: Result<u64, OpenFault> = Err(OpenFault::Damaged {
    at: 4,
    check: Flaw::EmptyKey,
});

const NO_ESCAPE: Result<u64, OpenFault> = Err(OpenFault::Damaged {
    at: 6,
    check: Flaw::BadEscape,
});

const TEN_FROM_THE_FIRST: &[u64] = &[1, 2, 3, 4, 5, 6, 7, 8, 9, 10];

const OPENINGS: &[Opening] = &[
    Opening {
        name: "an absent file",
        main: None,
        fails: &[],
        opened: ABSENT,
        checked: ABSENT,
    },
    Opening {
        name: "an absent file whose length is not told",
        main: None,
        fails: &[1],
        opened: FAULT,
        checked: FAULT,
    },
    Opening {
        name: "an absent file needs no second call",
        main: None,
        fails: &[2],
        opened: ABSENT,
        checked: ABSENT,
    },
    Opening {
        name: "lines in any order",
        main: TEXT,
        fails: &[],
        opened: Ok(2),
        checked: Ok(2),
    },
    Opening {
        name: "the length is not told, nor anything behind it",
        main: TEXT,
        fails: TEN_FROM_THE_FIRST,
        opened: FAULT,
        checked: FAULT,
    },
    Opening {
        name: "it is not synced, or not read",
        main: TEXT,
        fails: &[2],
        opened: FAULT,
        checked: FAULT,
    },
    Opening {
        name: "opening reads in the third call",
        main: TEXT,
        fails: &[3],
        opened: FAULT,
        checked: Ok(2),
    },
    Opening {
        name: "a second read would be seen",
        main: TEXT,
        fails: &[4],
        opened: Ok(2),
        checked: Ok(2),
    },
    Opening {
        name: "an empty file is not read",
        main: Some(b""),
        fails: &[3],
        opened: Ok(0),
        checked: Ok(0),
    },
    Opening {
        name: "a line without TAB",
        main: Some(b"a\t1\nabc\n"),
        fails: &[],
        opened: NO_TAB,
        checked: NO_TAB,
    },
    Opening {
        name: "a line without a key",
        main: Some(b"a\t1\n\t1\n"),
        fails: &[],
        opened: NO_KEY,
        checked: NO_KEY,
    },
    Opening {
        name: "a bad escape",
        main: Some(b"a\t1\nb\t\xff\n"),
        fails: &[],
        opened: NO_ESCAPE,
        checked: NO_ESCAPE,
    },
];

// How many pairs the map seen has.
fn count_of<B: Db<MemDisk>>(db: &B, _disk: &MemDisk) -> u64 {
    if db.broken() { 999 } else { db.count() }
}

fn open_count(alloc: Global, disk: &mut MemDisk) -> Result<u64, OpenFault> {
    match open_db(alloc, disk) {
        Ok(db) => Ok(count_of(&db, disk)),
        Err(fault) => Err(fault),
    }
}

// A call that fails is the last one, so that the count of faults is one where the disk failed, and else none.
fn faults_of(answer: Result<u64, OpenFault>) -> u64 {
    if answer == FAULT { 1 } else { 0 }
}

fn assert_opening(rt: &impl Abort, alloc: Global, row: &Opening) -> Result<(), Fail> {
    let mut disk = disk_of(alloc, row.main, ROOM, row.fails)?;
    let mut other = disk_of(alloc, row.main, ROOM, row.fails)?;
    let found = (open_count(alloc, &mut disk), check_db(alloc, &mut other));
    let stays = (disk.main() == row.main, other.main() == row.main);
    let faults = (disk.counts().faults, other.counts().faults);
    assert_eq!(rt;
        (found, stays, faults),
        (
            (row.opened, row.checked),
            (true, true),
            (faults_of(row.opened), faults_of(row.checked))
        ),
        "{}",
        row.name
    );
    Ok(())
}

#[test]
fn files_are_opened_or_refused(rt: HostRuntime) -> Result<(), Fail> {
    for row in OPENINGS {
        assert_opening(&rt, rt.alloc(), row)?;
    }
    Ok(())
}

// The file has a byte more than it may. Any call after its length fails.
#[test]
fn file_past_the_limit_is_refused(rt: HostRuntime) -> Result<(), Fail> {
    let alloc = rt.alloc();
    let text = vec![in alloc; b'v'; 67_108_865]?;
    let mut disk = disk_of(alloc, Some(&text), 67_108_865, &[2, 4])?;
    let opened = open_count(alloc, &mut disk);
    assert_eq!(rt; opened, Err(OpenFault::TooBig { size: 67_108_865 }));
    assert_eq!(rt; check_db(alloc, &mut disk), FAULT, "at the second call");
    let checked = check_db(alloc, &mut disk);
    assert_eq!(rt; checked, Err(OpenFault::TooBig { size: 67_108_865 }));
    Ok(())
}

// An empty file is made, over an older one or where there is none.
struct Creation {
    name: &'static str,
    main: Option<&'static [u8]>,
    /// The numbers of the calls that are to fail.
    fails: &'static [u64],
    answer: Result<(), Failed>,
    left: Option<&'static [u8]>,
}

const CREATIONS: &[Creation] = &[
    Creation {
        name: "none was there",
        main: None,
        fails: &[],
        answer: Ok(()),
        left: Some(b""),
    },
    Creation {
        name: "it is not begun",
        main: None,
        fails: TEN_FROM_THE_FIRST,
        answer: Err(Failed),
        left: None,
    },
    Creation {
        name: "it is not synced",
        main: None,
        fails: &[2, 3, 4, 5],
        answer: Err(Failed),
        left: None,
    },
    Creation {
        name: "it is not published",
        main: None,
        fails: &[3, 4, 5, 6],
        answer: Err(Failed),
        left: None,
    },
    Creation {
        name: "there is no fourth call",
        main: None,
        fails: &[4],
        answer: Ok(()),
        left: Some(b""),
    },
    Creation {
        name: "a file is replaced",
        main: TEXT,
        fails: &[],
        answer: Ok(()),
        left: Some(b""),
    },
    Creation {
        name: "its new one is not begun",
        main: TEXT,
        fails: TEN_FROM_THE_FIRST,
        answer: Err(Failed),
        left: TEXT,
    },
    Creation {
        name: "its new one is not synced",
        main: TEXT,
        fails: &[2, 3, 4, 5],
        answer: Err(Failed),
        left: TEXT,
    },
    Creation {
        name: "its new one is not published",
        main: TEXT,
        fails: &[3, 4, 5, 6],
        answer: Err(Failed),
        left: TEXT,
    },
    Creation {
        name: "over a file there is no fourth call",
        main: TEXT,
        fails: &[4],
        answer: Ok(()),
        left: Some(b""),
    },
];

#[test]
fn create_makes_an_empty_file(rt: HostRuntime) -> Result<(), Fail> {
    for row in CREATIONS {
        let mut disk = disk_of(rt.alloc(), row.main, ROOM, row.fails)?;
        let created = create(&mut disk);
        let is_left = disk.main() == row.left;
        let faults = if row.answer.is_err() { 1 } else { 0 };
        assert_eq!(rt;
            (created, is_left, disk.counts().faults),
            (row.answer, true, faults),
            "{}",
            row.name
        );
    }
    Ok(())
}

const TOO_LONG: Answer = Err(DbFault::ValueTooLong { length: 16_777_217 });

// Three transactions that are made, and stores that are refused, by a run of 16,777,217 bytes.
const SIZES: &[(Step, Answer)] = &[
    (Step::Begin, OK),
    (Step::StoreRuns(0, 16_777_217), Err(DbFault::KeyEmpty)),
    (
        Step::StoreRuns(65_535, 16_777_217),
        Err(DbFault::KeyTooLong { length: 65_535 }),
    ),
    (Step::StoreRuns(65_534, 16_777_217), TOO_LONG),
    (Step::StoreRun(b"p", 16_777_216), OK),
    (Step::Commit, OK),
    (Step::Begin, OK),
    (Step::StoreRun(b"q", 16_777_216), OK),
    (Step::Commit, OK),
    (Step::Begin, OK),
    (Step::StoreRun(b"r", 16_777_216), OK),
    (Step::Commit, OK),
    (Step::Begin, OK),
    (Step::StoreRun(b"s", 16_777_217), TOO_LONG),
    (
        Step::StoreRun(b"s", 16_777_216),
        Err(DbFault::Full { size: 67_108_876 }),
    ),
    (Step::IsOpen, OK),
    (Step::Commit, OK),
    (Step::Next(b"p", b"p", b"q"), OK),
    (Step::Next(b"q", b"q", b"r"), OK),
    (Step::IsLast(b"s"), OK),
];

#[test]
fn large_values_fill_the_file(rt: HostRuntime) -> Result<(), Fail> {
    let alloc = rt.alloc();
    let run = vec![in alloc; b'v'; 16_777_217]?;
    let mut disk = MemDisk::new(alloc, Some(b""), 110_000_000, &[])?;
    let mut db = open_db(alloc, &mut disk)?;
    let wrong = first_wrong(&mut db, &mut disk, &run, SIZES);
    let left = (
        disk.main().map_or(0, |text| text.len()),
        disk.counts().publishes,
    );
    assert_eq!(rt; (wrong, left), (None, (50_331_657, 3)));
    Ok(())
}

// A line whose value is 40,000,000 bytes that are not escaped, but would be, and a short one.
fn bare_text(alloc: Global) -> Result<Vec<u8>, Fail> {
    let value = vec![in alloc; b'\r'; 40_000_000]?;
    let mut text = Vec::new(alloc);
    text.extend_from_slice(b"a\t")?;
    text.extend_from_slice(&value)?;
    text.extend_from_slice(b"\nb\t1\n")?;
    Ok(text)
}

const BARE: &[(Step, Answer)] = &[
    (Step::Begin, OK),
    (Step::Delete(b"b"), Err(DbFault::Full { size: 80_000_003 })),
    (Step::Delete(b"c"), NO),
    (Step::Commit, OK),
    (Step::Next(b"a", b"a", b"b"), OK),
];

#[test]
fn deletion_may_be_refused_as_full(rt: HostRuntime) -> Result<(), Fail> {
    let alloc = rt.alloc();
    let text = bare_text(alloc)?;
    let mut disk = disk_of(alloc, Some(&text), 40_001_000, NO_CALL)?;
    let mut db = open_db(alloc, &mut disk)?;
    let wrong = first_wrong(&mut db, &mut disk, b"", BARE);
    let left = (
        text.len(),
        disk.main() == Some(text.as_slice()),
        disk.counts().publishes,
    );
    assert_eq!(rt; (wrong, left), (None, (40_000_007, true, 0)));
    Ok(())
}
