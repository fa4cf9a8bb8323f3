// Each call of a device fails in turn.
use super::cases::{Case, action_words, assert_case, host_of, status_of};
use std::alloc::Global;
use std::process::Abort;
use std::test::Fail;

const FAULT: &str = "device fault: host\n";

const FILE: &[u8] = b"a\t1\n";

// How many calls of the disk and how many tells a run makes, and how it ends where none fails.
#[derive(Clone, Copy)]
struct Row {
    calls: u64,
    tells: u64,
    case: Case<'static>,
}

// The row of a run over this file, with the flag where it is absent.
fn row_of(
    before: Option<&'static [u8]>,
    action: &'static str,
    calls: u64,
    tells: u64,
    status: u8,
    told: &'static [u8],
    after: &'static [u8],
) -> Row {
    let case = Case {
        make: before.is_none(),
        action,
        before,
        status,
        told,
        warned: if status == 65 { "line 1: wrong\n" } else { "" },
        after: Some(after),
    };
    Row { calls, tells, case }
}

// An opening tells the length, syncs and reads; a check does not sync. A change starts the new file, writes its one
// piece, syncs and publishes it.
fn rows() -> [Row; 8] {
    [
        row_of(Some(FILE), "show", 3, 1, 0, b"a\t1\n", FILE),
        row_of(Some(FILE), "get a", 3, 1, 0, b"1\n", FILE),
        row_of(Some(FILE), "get z", 3, 0, 1, b"", FILE),
        row_of(Some(FILE), "set b 2", 7, 0, 0, b"", b"a\t1\nb\t2\n"),
        row_of(Some(FILE), "delete a", 7, 0, 0, b"", b""),
        row_of(Some(FILE), "delete z", 3, 0, 0, b"", FILE),
        row_of(Some(FILE), "consistent", 2, 1, 0, b"consistent\n", FILE),
        row_of(Some(FILE), "get ", 3, 0, 65, b"", FILE),
    ]
}

// On an absent file with the flag: it is found absent, and the new file is started, synced and published. The empty file
// is then opened with two calls, and checked with one.
fn made_rows() -> [Row; 5] {
    [
        row_of(None, "show", 6, 0, 0, b"", b""),
        row_of(None, "get k", 6, 0, 1, b"", b""),
        row_of(None, "set k v", 10, 0, 0, b"", b"k\tv\n"),
        row_of(None, "delete k", 6, 0, 0, b"", b""),
        row_of(None, "consistent", 5, 1, 0, b"consistent\n", b""),
    ]
}

// The run in which one call or one tell fails: the file is left as it stands then.
fn assert_fault(
    rt: &impl Abort,
    alloc: Global,
    case: &Case,
    calls: &[u64],
    tells: &[u64],
    left: Option<&[u8]>,
) -> Result<(), Fail> {
    let case = Case {
        status: 74,
        told: b"",
        warned: FAULT,
        after: left,
        ..*case
    };
    assert_case(rt, alloc, &case, calls, tells)
}

// Over a file that is there, each call that fails leaves it as it was; the call after the last one is never made. With
// the flag there is one call more: the one that finds the file.
fn assert_row(rt: &impl Abort, alloc: Global, make: bool, row: &Row) -> Result<(), Fail> {
    let case = Case { make, ..row.case };
    let calls = row.calls.saturating_add(u64::from(make));
    for call in 1..=calls {
        assert_fault(rt, alloc, &case, &[call], &[], Some(FILE))?;
    }
    for tell in 1..=row.tells {
        assert_fault(rt, alloc, &case, &[], &[tell], Some(FILE))?;
    }
    assert_case(
        rt,
        alloc,
        &case,
        &[calls.saturating_add(1)],
        &[row.tells.saturating_add(1)],
    )
}

#[test]
fn each_failing_call_answers_host(rt: HostRuntime) -> Result<(), Fail> {
    for row in &rows() {
        assert_row(&rt, rt.alloc(), false, row)?;
        assert_row(&rt, rt.alloc(), true, row)?;
    }
    Ok(())
}

// How many calls the making takes; before the last of them is done the file is absent, and then it is empty.
const MAKING: u64 = 4;

fn assert_made(rt: &impl Abort, alloc: Global, row: &Row) -> Result<(), Fail> {
    let case = row.case;
    for call in 1..=row.calls {
        let left: Option<&[u8]> = if call <= MAKING { None } else { Some(b"") };
        assert_fault(rt, alloc, &case, &[call], &[], left)?;
    }
    for tell in 1..=row.tells {
        assert_fault(rt, alloc, &case, &[], &[tell], Some(b""))?;
    }
    assert_case(
        rt,
        alloc,
        &case,
        &[row.calls.saturating_add(1)],
        &[row.tells.saturating_add(1)],
    )
}

#[test]
fn each_failing_call_of_making_answers_host(rt: HostRuntime) -> Result<(), Fail> {
    for row in &made_rows() {
        assert_made(&rt, rt.alloc(), row)?;
    }
    Ok(())
}

// A file of one pair: `a`, TAB, so many letters, and a line feed.
fn long_line(alloc: Global, count: usize) -> Result<Vec<u8>, Fail> {
    let mut line = Vec::new(alloc);
    line.extend_from_slice(b"a\t")?;
    line.extend_from_slice(vec![in alloc; b'v'; count]?.as_slice())?;
    line.push(b'\n')?;
    Ok(line)
}

// An output of 80,003 bytes takes two tells, the first of 65,536 bytes.
#[test]
fn second_tell_fails(rt: HostRuntime) -> Result<(), Fail> {
    let alloc = rt.alloc();
    let line = long_line(alloc, 80_000)?;
    let words = action_words(alloc, false, "show")?;
    let mut host = host_of(alloc, Some(line.as_slice()), &[], &[2])?;
    assert_eq!(rt; status_of(alloc, &words, &mut host)?, 74);
    assert_eq!(rt; host.warned(), FAULT.as_bytes());
    assert_eq!(rt; host.told().len(), 65_536);
    assert!(rt; line.starts_with(host.told()));
    assert_eq!(rt; host.disk().main(), Some(line.as_slice()));

    let mut host = host_of(alloc, Some(line.as_slice()), &[], &[3])?;
    assert_eq!(rt; status_of(alloc, &words, &mut host)?, 0);
    assert_eq!(rt; host.told(), line.as_slice());
    Ok(())
}
