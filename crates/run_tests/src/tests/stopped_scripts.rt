// Scripts that are stopped at each of their landings, on both kinds: what is left holds each transaction whose
// COMMITTED was printed, and whole ones only.
use super::files::EMPTY;
use super::runs::{ROOM, host_of, status_of, status_with, stopping_host, words_of};
use super::stops::LANDED;
use mem_devices::MemHost;
use mem_source::MemSource;
use std::alloc::Global;
use std::process::Abort;
use std::test::Fail;

// Three transactions, read in pieces, so that each is answered before the next is read.
const SCRIPT: &[u8] = b"SET\ta\t1\nBEGIN\nSET\tb\t2\nDELETE\ta\nCOMMIT\nSET\tc\t3\n";

// What the file shows after none, one, two and all of them.
const SHOWN: [&[u8]; 4] = [b"", b"a\t1\n", b"b\t2\n", b"b\t2\nc\t3\n"];

// The host after the script on this file, up to a stop, and the status.
fn host_after(alloc: Global, backend: &str, file: &[u8], stop: u64) -> Result<(MemHost, u8), Fail> {
    let text = format!(in alloc; "cyr_dbtool f {backend} batch")?;
    let words = words_of(alloc, text.as_str())?;
    let mut host = stopping_host(alloc, file, stop)?;
    let mut input = MemSource::new(alloc, SCRIPT, 7, &[])?;
    let status = status_with(alloc, &mut host, &words, 1, &mut input)?;
    Ok((host, status))
}

// How many transactions a file holds, by what `show` prints of it; None where that is no whole number of them.
fn held(alloc: Global, backend: &str, file: &[u8]) -> Result<Option<usize>, Fail> {
    let text = format!(in alloc; "cyr_dbtool f {backend} show")?;
    let words = words_of(alloc, text.as_str())?;
    let mut host = host_of(alloc, Some(file), ROOM, &[], &[])?;
    let status = status_of(alloc, &mut host, &words, 1)?;
    if status != 0 {
        return Ok(None);
    }
    Ok(SHOWN.iter().position(|shown| *shown == host.told()))
}

// How many answers tell of a commit: the only lines with nine letters.
fn told_commits(told: &[u8]) -> usize {
    let mut count = 0;
    let mut start = 0;
    for (at, byte) in told.iter().enumerate() {
        if *byte == b'\n' {
            if at.wrapping_sub(start) == b"COMMITTED".len() {
                count = count.min(SHOWN.len()) + 1;
            }
            start = at.wrapping_add(1);
        }
    }
    count
}

// Stops a script after each number of landings, until it ends by itself.
fn assert_stops(rt: &impl Abort, alloc: Global, backend: &str, file: &[u8]) -> Result<(), Fail> {
    let mut acknowledged = [false; 4];
    for stop in 0..200u64 {
        let (host, status) = host_after(alloc, backend, file, stop)?;
        let least = told_commits(host.told());
        for landed in &LANDED {
            let left = host.disk().left(alloc, landed)?;
            let count = held(alloc, backend, left.main().unwrap_or(b""))?;
            assert!(rt;
                count.is_some_and(|count| count >= least),
                "{backend}, stop {stop}: {count:?} of {least}"
            );
        }
        if let Some(seen) = acknowledged.get_mut(least) {
            *seen = true;
        }
        if status == 0 {
            assert_eq!(rt; acknowledged, [true; 4], "{backend}");
            return Ok(());
        }
        assert_eq!(rt; status, 74, "{backend}, stop {stop}");
    }
    Err("the script does not end".into())
}

#[test]
fn stopped_scripts_keep_what_was_told(rt: HostRuntime) -> Result<(), Fail> {
    assert_stops(&rt, rt.alloc(), "flat", b"")?;
    assert_stops(&rt, rt.alloc(), "twoskip", &EMPTY)
}
