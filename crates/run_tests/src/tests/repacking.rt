// Repacks through the run, on both kinds: what they leave, where each of their calls fails, and where they are stopped
// at each landing.
use super::files::{DELETED, EMPTY, ONE_PAIR, TORN};
use super::runs::{ROOM, host_of, status_of, stopping_host, words_of};
use super::stops::LANDED;
use base_bytes::u64_at;
use mem_devices::MemHost;
use std::alloc::Global;
use std::process::Abort;
use std::test::Fail;

// A file of a kind, what it shows, and how many bytes its repack has.
struct Row {
    name: &'static str,
    backend: &'static str,
    file: &'static [u8],
    shown: &'static [u8],
    size: usize,
}

const ROWS: [Row; 6] = [
    Row {
        name: "no pair",
        backend: "twoskip",
        file: &EMPTY,
        shown: b"",
        size: 336,
    },
    Row {
        name: "one pair",
        backend: "twoskip",
        file: &ONE_PAIR,
        shown: b"a\tb\n",
        size: 400,
    },
    Row {
        name: "a pair that was deleted",
        backend: "twoskip",
        file: &DELETED,
        shown: b"",
        size: 336,
    },
    Row {
        name: "a file with DIRTY, which is repaired first",
        backend: "twoskip",
        file: &TORN,
        shown: b"a\tb\n",
        size: 400,
    },
    Row {
        name: "lines of a key twice, in no order",
        backend: "flat",
        file: b"b\t2\na\t1\nb\t3\n",
        shown: b"a\t1\nb\t3\n",
        size: 8,
    },
    Row {
        name: "a carriage return that is not escaped",
        backend: "flat",
        file: b"k\ta\rb\n",
        shown: b"k\ta\rb\n",
        size: 7,
    },
];

// The host after a run of this action on a file, of which these calls fail, and the status.
fn host_after(
    alloc: Global,
    backend: &str,
    action: &str,
    file: &[u8],
    fails: &[u64],
) -> Result<(MemHost, u8), Fail> {
    let text = format!(in alloc; "cyr_dbtool f {backend} {action}")?;
    let words = words_of(alloc, text.as_str())?;
    let mut host = host_of(alloc, Some(file), ROOM, fails, &[])?;
    let status = status_of(alloc, &mut host, &words, 1)?;
    Ok((host, status))
}

fn shows(alloc: Global, row: &Row, file: &[u8]) -> Result<bool, Fail> {
    let (host, status) = host_after(alloc, row.backend, "show", file, &[])?;
    Ok(status == 0 && host.told() == row.shown)
}

// Generation, repack_size and current_size of a twoskip file.
fn numbers_of(file: &[u8]) -> Option<(u64, u64, u64)> {
    if file.len() < 64 {
        return None;
    }
    Some((u64_at(file, 24), u64_at(file, 40), u64_at(file, 48)))
}

fn assert_repacked(rt: &impl Abort, alloc: Global, row: &Row) -> Result<(), Fail> {
    let (host, status) = host_after(alloc, row.backend, "repack", row.file, &[])?;
    let left = host.disk().main().unwrap_or(b"");
    let size = left.len();
    assert_eq!(rt;
        (status, size, host.told()),
        (0, row.size, b"".as_slice()),
        "{}",
        row.name
    );
    assert!(rt; shows(alloc, row, left)?, "{}", row.name);
    if row.backend == "twoskip" {
        let size = size as u64;
        assert_eq!(rt; numbers_of(left), Some((2, size, size)), "{}", row.name);
    }
    Ok(())
}

#[test]
fn files_are_rewritten(rt: HostRuntime) -> Result<(), Fail> {
    for row in &ROWS {
        assert_repacked(&rt, rt.alloc(), row)?;
    }
    Ok(())
}

// Each call of the disk fails in turn, until none does: the file shows what it showed.
fn assert_failing(rt: &impl Abort, alloc: Global, row: &Row) -> Result<(), Fail> {
    for call in 1..40u64 {
        let (host, status) = host_after(alloc, row.backend, "repack", row.file, &[call])?;
        if status == 0 {
            assert!(rt; call > 7, "{}: {call} calls", row.name);
            return Ok(());
        }
        assert_eq!(rt; status, 74, "{}, call {call}", row.name);
        let left = host.disk().main().unwrap_or(b"");
        assert!(rt; shows(alloc, row, left)?, "{}, call {call}", row.name);
    }
    Err("the repack does not end".into())
}

#[test]
fn each_call_of_a_repack_fails(rt: HostRuntime) -> Result<(), Fail> {
    for row in &ROWS {
        assert_failing(&rt, rt.alloc(), row)?;
    }
    Ok(())
}

// A repack is stopped after each number of landings, until it ends: what is left shows what the file showed.
fn assert_stops(rt: &impl Abort, alloc: Global, row: &Row) -> Result<(), Fail> {
    let text = format!(in alloc; "cyr_dbtool f {} repack", row.backend)?;
    let words = words_of(alloc, text.as_str())?;
    for stop in 0..40u64 {
        let mut host = stopping_host(alloc, row.file, stop)?;
        let status = status_of(alloc, &mut host, &words, 1)?;
        for landed in &LANDED {
            let left = host.disk().left(alloc, landed)?;
            let file = left.main().unwrap_or(b"");
            assert!(rt; shows(alloc, row, file)?, "{}, stop {stop}", row.name);
        }
        if status == 0 {
            return Ok(());
        }
    }
    Err("the repack does not end".into())
}

#[test]
fn stopped_repacks_keep_the_map(rt: HostRuntime) -> Result<(), Fail> {
    for row in &ROWS {
        assert_stops(&rt, rt.alloc(), row)?;
    }
    Ok(())
}

// An absent file is refused, and made where `-n` asks for it; a damaged one is refused and stays.
#[test]
fn files_that_do_not_open(rt: HostRuntime) -> Result<(), Fail> {
    let alloc = rt.alloc();
    let words = words_of(alloc, "cyr_dbtool f twoskip repack")?;
    let mut host = host_of(alloc, None, ROOM, &[], &[])?;
    assert_eq!(rt; status_of(alloc, &mut host, &words, 1)?, 66);
    assert!(rt; host.disk().main().is_none());
    let words = words_of(alloc, "cyr_dbtool -n f twoskip repack")?;
    let mut host = host_of(alloc, None, ROOM, &[], &[])?;
    assert_eq!(rt; status_of(alloc, &mut host, &words, 1)?, 0);
    assert_eq!(rt;
        host.disk().main().and_then(numbers_of),
        Some((2, 336, 336))
    );
    let (host, status) = host_after(alloc, "flat", "repack", b"no tab\n", &[])?;
    assert_eq!(rt;
        (status, host.disk().main()),
        (76, Some(b"no tab\n".as_slice()))
    );
    Ok(())
}
