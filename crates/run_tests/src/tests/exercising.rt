// Generated transactions through the run, on both kinds. The digests and the pairs are those of another program.
use super::files::EMPTY;
use super::runs::{ROOM, host_of, status_of, words_of};
use mem_devices::MemHost;
use std::alloc::Global;
use std::process::Abort;
use std::test::Fail;

// So many rounds, what they print, and what the file then shows.
struct Row {
    rounds: &'static str,
    told: &'static [u8],
    shown: &'static [u8],
}

const ROWS: [Row; 3] = [
    Row {
        rounds: "0",
        told: b"transactions 0\npairs 0\nsha1 da39a3ee5e6b4b0d3255bfef95601890afd80709\n",
        shown: b"",
    },
    Row {
        rounds: "1",
        told: b"transactions 1\npairs 3\nsha1 0112121465eb7aa09498cb9e73a393cc3c58bfd0\n",
        shown: b"k3c6\t2\nk9e3\t1\nkdaa\t3\n",
    },
    Row {
        rounds: "2",
        told: b"transactions 2\npairs 6\nsha1 61c50e9722430c07371d133cce47d2694bc992ce\n",
        shown: b"k3c6\t2\nk538\t7\nk78d\t4\nk9e3\t1\nkb54\t6\nkdaa\t3\n",
    },
];

// The host after a run of `cyr_dbtool` on this file, of which these calls and prints fail, and the status.
fn host_after(
    alloc: Global,
    line: &str,
    file: &[u8],
    fails: &[u64],
    tell_fails: &[u64],
) -> Result<(MemHost, u8), Fail> {
    let text = format!(in alloc; "cyr_dbtool f {line}")?;
    let words = words_of(alloc, text.as_str())?;
    let mut host = host_of(alloc, Some(file), ROOM, fails, tell_fails)?;
    let status = status_of(alloc, &mut host, &words, 1)?;
    Ok((host, status))
}

// What `show` prints of the file on the disk of a host is what a row shows.
fn shows(alloc: Global, backend: &str, left: &MemHost, row: &Row) -> Result<bool, Fail> {
    let line = format!(in alloc; "{backend} show")?;
    let (host, status) = host_after(
        alloc,
        line.as_str(),
        left.disk().main().unwrap_or(b""),
        &[],
        &[],
    )?;
    Ok(status == 0 && host.told() == row.shown)
}

#[test]
fn rounds_on_both_kinds(rt: HostRuntime) -> Result<(), Fail> {
    let alloc = rt.alloc();
    for (backend, file) in [("flat", b"".as_slice()), ("twoskip", EMPTY.as_slice())] {
        for row in &ROWS {
            let line = format!(in alloc; "{backend} exercise {}", row.rounds)?;
            let (host, status) = host_after(alloc, line.as_str(), file, &[], &[])?;
            assert_eq!(rt; status, 0, "{backend}, {}", row.rounds);
            assert_eq!(rt; host.told(), row.told, "{backend}, {}", row.rounds);
            assert!(rt;
                shows(alloc, backend, &host, row)?,
                "{backend}, {}",
                row.rounds
            );
        }
    }
    Ok(())
}

// Each call of the disk fails in turn, until none does: nothing is printed, and whole rounds stand.
fn assert_failing(rt: &impl Abort, alloc: Global, backend: &str, file: &[u8]) -> Result<(), Fail> {
    let line = format!(in alloc; "{backend} exercise 2")?;
    for call in 1..100u64 {
        let (host, status) = host_after(alloc, line.as_str(), file, &[call], &[])?;
        if status == 0 {
            assert!(rt; call > 8, "{backend}: {call} calls");
            return Ok(());
        }
        assert_eq!(rt;
            (status, host.told()),
            (74, b"".as_slice()),
            "{backend}, call {call}"
        );
        let mut whole = false;
        for row in &ROWS {
            whole |= shows(alloc, backend, &host, row)?;
        }
        assert!(rt; whole, "{backend}, call {call}");
    }
    Err("the exercise does not end".into())
}

#[test]
fn each_call_of_an_exercise_fails(rt: HostRuntime) -> Result<(), Fail> {
    assert_failing(&rt, rt.alloc(), "flat", b"")?;
    assert_failing(&rt, rt.alloc(), "twoskip", &EMPTY)
}

// Where the lines cannot be printed all rounds stand.
#[test]
fn failed_print_of_an_exercise(rt: HostRuntime) -> Result<(), Fail> {
    let (host, status) = host_after(rt.alloc(), "twoskip exercise 2", &EMPTY, &[], &[1])?;
    assert_eq!(rt; status, 74);
    assert_eq!(rt; host.warned(), b"device fault: host\n".as_slice());
    assert!(rt; shows(rt.alloc(), "twoskip", &host, &ROWS[2])?);
    Ok(())
}
