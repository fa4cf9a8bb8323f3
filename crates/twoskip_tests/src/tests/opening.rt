// Files are looked through and opened, and what is on the disk then.
use super::files::{CIRCLE, DELETED, EMPTY, LOOSE, MENDED, ONE_PAIR, TORN};
use base_bytes::Flaw;
use base_devices::Failed;
use db_core::OpenFault;
use mem_devices::MemDisk;
use std::alloc::Global;
use std::process::Abort;
use std::test::Fail;
use twoskip::{check_db, create, open_db};

// More than a test writes.
const ROOM: u64 = 40_000;

fn disk_of(alloc: Global, main: Option<&[u8]>, fails: &[u64]) -> Result<MemDisk, Fail> {
    if main.is_some_and(|bytes| bytes.len() as u64 > ROOM) {
        return Err("the file is too long for the test".into());
    }
    Ok(MemDisk::new(alloc, main, ROOM, fails)?)
}

// A main file, how many pairs are counted in it, and what it is once it was opened.
struct Case {
    name: &'static str,
    main: Option<&'static [u8]>,
    answer: Result<u64, OpenFault>,
    opened: Option<&'static [u8]>,
}

const CASES: &[Case] = &[
    Case {
        name: "no file",
        main: None,
        answer: Err(OpenFault::Absent),
        opened: None,
    },
    Case {
        name: "a file without a byte",
        main: Some(b""),
        answer: Err(OpenFault::Damaged {
            at: 0,
            check: Flaw::Short,
        }),
        opened: Some(b""),
    },
    Case {
        name: "no pair",
        main: Some(&EMPTY),
        answer: Ok(0),
        opened: Some(&EMPTY),
    },
    Case {
        name: "one pair",
        main: Some(&ONE_PAIR),
        answer: Ok(1),
        opened: Some(&ONE_PAIR),
    },
    Case {
        name: "a pair that was deleted",
        main: Some(&DELETED),
        answer: Ok(0),
        opened: Some(&DELETED),
    },
    Case {
        name: "two keys that lead to each other",
        main: Some(&CIRCLE),
        answer: Err(OpenFault::Damaged {
            at: 336,
            check: Flaw::Order,
        }),
        opened: Some(&CIRCLE),
    },
    Case {
        name: "a head check that has landed alone",
        main: Some(&TORN),
        answer: Ok(1),
        opened: Some(&ONE_PAIR),
    },
    Case {
        name: "stale links on three levels",
        main: Some(&LOOSE),
        answer: Ok(3),
        opened: Some(&MENDED),
    },
];

fn assert_checked(rt: &impl Abort, alloc: Global, case: &Case) -> Result<(), Fail> {
    let mut disk = disk_of(alloc, case.main, &[])?;
    let answer = check_db(alloc, &mut disk);
    let stays = disk.main() == case.main;
    assert_eq!(rt;
        (answer, stays, disk.counts().written),
        (case.answer, true, 0),
        "{}",
        case.name
    );
    Ok(())
}

// The fault with which a file is not opened.
fn opening_fault(alloc: Global, disk: &mut MemDisk) -> Option<OpenFault> {
    open_db(alloc, disk).err()
}

fn assert_opened(rt: &impl Abort, alloc: Global, case: &Case) -> Result<(), Fail> {
    let mut disk = disk_of(alloc, case.main, &[])?;
    let fault = opening_fault(alloc, &mut disk);
    let is_opened = disk.main() == case.opened;
    let is_written = disk.counts().written > 0;
    assert_eq!(rt;
        (fault, is_opened, is_written),
        (case.answer.err(), true, case.main != case.opened),
        "{}",
        case.name
    );
    Ok(())
}

#[test]
fn files_are_checked(rt: HostRuntime) -> Result<(), Fail> {
    for case in CASES {
        assert_checked(&rt, rt.alloc(), case)?;
    }
    Ok(())
}

#[test]
fn files_are_opened(rt: HostRuntime) -> Result<(), Fail> {
    for case in CASES {
        assert_opened(&rt, rt.alloc(), case)?;
    }
    Ok(())
}

// Where a call of an opening fails, the next opening ends it.
fn assert_after_failure(
    rt: &impl Abort,
    alloc: Global,
    case: &Case,
    call: u64,
) -> Result<(), Fail> {
    let mut disk = disk_of(alloc, case.main, &[call])?;
    let fault = opening_fault(alloc, &mut disk);
    let faults = disk.counts().faults;
    let again = opening_fault(alloc, &mut disk);
    let is_opened = disk.main() == case.opened;
    assert_eq!(rt;
        (fault, faults, again, is_opened),
        (Some(OpenFault::DiskFault), 1, None, true),
        "{}: call {call}",
        case.name
    );
    Ok(())
}

// Opening a clean file makes three calls of the disk: its length, its sync, and one read. Each repair makes more.
#[test]
fn failed_calls_end_opening(rt: HostRuntime) -> Result<(), Fail> {
    for case in CASES {
        if case.answer.is_ok() {
            for call in 1..4 {
                assert_after_failure(&rt, rt.alloc(), case, call)?;
            }
        }
    }
    Ok(())
}

#[test]
fn failed_calls_end_repair(rt: HostRuntime) -> Result<(), Fail> {
    for case in CASES {
        if case.answer.is_ok() && case.main != case.opened {
            for call in 4..9 {
                assert_after_failure(&rt, rt.alloc(), case, call)?;
            }
        }
    }
    Ok(())
}

// An empty file in the place of what was there, where no call fails, or else one of the four.
fn assert_made(
    rt: &impl Abort,
    alloc: Global,
    main: Option<&[u8]>,
    call: u64,
    answer: Result<(), Failed>,
) -> Result<(), Fail> {
    let mut disk = disk_of(alloc, main, &[call])?;
    let made = create(&mut disk);
    let wanted = if answer.is_ok() {
        Some(EMPTY.as_slice())
    } else {
        main
    };
    let is_wanted = disk.main() == wanted;
    assert_eq!(rt; (made, is_wanted), (answer, true), "call {call}");
    Ok(())
}

#[test]
fn empty_file_is_made(rt: HostRuntime) -> Result<(), Fail> {
    for main in [None, Some(ONE_PAIR.as_slice())] {
        assert_made(&rt, rt.alloc(), main, 5, Ok(()))?;
        for call in 1..5 {
            assert_made(&rt, rt.alloc(), main, call, Err(Failed))?;
        }
    }
    Ok(())
}
