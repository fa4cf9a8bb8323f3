// Runs that are stopped at each of their landings, and runs on the files that are left, which are stopped in their
// repair and run again.
use super::files::{EMPTY, ONE_PAIR, TORN};
use super::runs::{ROOM, host_of, status_of, stopping_host, words_of};
use mem_devices::MemHost;
use std::alloc::Global;
use std::process::Abort;
use std::test::Fail;

const SHOW: &str = "cyr_dbtool t twoskip show";

/// Which of the pending landings are made when a stop comes: none, all, and each second one.
pub const LANDED: [[bool; 24]; 4] = [
    [false; 24],
    [true; 24],
    [
        true, false, true, false, true, false, true, false, true, false, true, false, true, false,
        true, false, true, false, true, false, true, false, true, false,
    ],
    [
        false, true, false, true, false, true, false, true, false, true, false, true, false, true,
        false, true, false, true, false, true, false, true, false, true,
    ],
];

// A change on a file, by a record of this level, and what the file shows before and after.
#[derive(Clone, Copy)]
struct Change<'a> {
    line: &'a str,
    level: u32,
    before: &'a [u8],
    after: &'a [u8],
}

// The host after a run on a file, whole or up to a stop, and its status.
fn host_after(
    alloc: Global,
    file: &[u8],
    line: &str,
    level: u32,
    stop: Option<u64>,
) -> Result<(MemHost, u8), Fail> {
    let words = words_of(alloc, line)?;
    let mut host = match stop {
        Some(landings) => stopping_host(alloc, file, landings)?,
        None => host_of(alloc, Some(file), ROOM, &[], &[])?,
    };
    let status = status_of(alloc, &mut host, &words, level)?;
    Ok((host, status))
}

// The bytes of the file on the disk of a host, or those that a stop now leaves.
fn file_on(alloc: Global, host: &MemHost) -> Result<Vec<u8>, Fail> {
    Ok(host.disk().main().unwrap_or(b"").to_vec(alloc)?)
}

fn file_left(alloc: Global, host: &MemHost, landed: &[bool]) -> Result<Vec<u8>, Fail> {
    let disk = host.disk().left(alloc, landed)?;
    Ok(disk.main().unwrap_or(b"").to_vec(alloc)?)
}

// A file shows this map, also where its repair was stopped at each of its landings before.
fn assert_repaired(rt: &impl Abort, alloc: Global, file: &[u8], told: &[u8]) -> Result<(), Fail> {
    let (host, status) = host_after(alloc, file, SHOW, 1, None)?;
    assert_eq!(rt; (status, host.told()), (0, told));
    let landings = host.disk().landings();
    for stop in 0..=landings {
        let (host, status) = host_after(alloc, file, SHOW, 1, Some(stop))?;
        assert_eq!(rt; status, 74);
        for landed in &LANDED {
            let left = file_left(alloc, &host, landed)?;
            let (again, status) = host_after(alloc, &left, SHOW, 1, None)?;
            assert_eq!(rt; (status, again.told()), (0, told), "stop {stop}");
        }
    }
    Ok(())
}

// What is left by a stop of a change shows the map from before or the one after.
fn assert_left(
    rt: &impl Abort,
    alloc: Global,
    host: &MemHost,
    change: &Change<'_>,
) -> Result<(), Fail> {
    for landed in &LANDED {
        let left = file_left(alloc, host, landed)?;
        let (shown, _) = host_after(alloc, &left, SHOW, 1, None)?;
        let told = if shown.told() == change.after {
            change.after
        } else {
            change.before
        };
        assert_repaired(rt, alloc, &left, told)?;
    }
    Ok(())
}

// Stops a change after each number of landings, of which the two headers, the two records and two heads, or one of five
// lines, make one each at least. After all of them only the last sync is left to fail.
fn assert_change(
    rt: &impl Abort,
    alloc: Global,
    file: &[u8],
    change: &Change<'_>,
) -> Result<(), Fail> {
    let (host, status) = host_after(alloc, file, change.line, change.level, None)?;
    let landings = host.disk().landings();
    assert_eq!(rt; status, 0);
    assert!(rt; landings >= 6, "{landings} landings");
    assert_repaired(rt, alloc, &file_on(alloc, &host)?, change.after)?;
    for stop in 0..=landings {
        let (host, status) = host_after(alloc, file, change.line, change.level, Some(stop))?;
        assert_eq!(rt; status, 74);
        assert_left(rt, alloc, &host, change)?;
    }
    Ok(())
}

// The file with `a`, `b` and `c` of the levels 3, 1 and 2.
fn three_levels(alloc: Global) -> Result<Vec<u8>, Fail> {
    let mut file = EMPTY.to_vec(alloc)?;
    for (line, level) in [
        ("cyr_dbtool t twoskip set a 1", 3),
        ("cyr_dbtool t twoskip set b 2", 1),
        ("cyr_dbtool t twoskip set c 3", 2),
    ] {
        let (host, _) = host_after(alloc, &file, line, level, None)?;
        file = file_on(alloc, &host)?;
    }
    Ok(file)
}

const BEFORE: &[u8] = b"a\t1\nb\t2\nc\t3\n";

const CHANGES: [Change<'static>; 2] = [
    Change {
        line: "cyr_dbtool t twoskip set bb 4",
        level: 3,
        before: BEFORE,
        after: b"a\t1\nb\t2\nbb\t4\nc\t3\n",
    },
    Change {
        line: "cyr_dbtool t twoskip delete a",
        level: 1,
        before: BEFORE,
        after: b"b\t2\nc\t3\n",
    },
];

#[test]
fn stopped_changes_open_again(rt: HostRuntime) -> Result<(), Fail> {
    let alloc = rt.alloc();
    let file = three_levels(alloc)?;
    for change in &CHANGES {
        assert_change(&rt, alloc, &file, change)?;
    }
    Ok(())
}

// Of the head of the dummy, whose five lines are written behind the record, only the last line has landed.
fn assert_torn(rt: &impl Abort, alloc: Global) -> Result<(), Fail> {
    let set = "cyr_dbtool t twoskip set 0 1";
    let (host, status) = host_after(alloc, &ONE_PAIR, set, 1, Some(7))?;
    assert_eq!(rt; status, 74);
    let left = file_left(alloc, &host, &[true, false, false, false, false, true])?;
    let is_torn = left.as_slice() == TORN.as_slice();
    assert!(rt; is_torn);
    assert_repaired(rt, alloc, &left, b"a\tb\n")?;
    let (host, _) = host_after(alloc, &left, SHOW, 1, None)?;
    let is_whole = host.disk().main() == Some(ONE_PAIR.as_slice());
    assert!(rt; is_whole);
    Ok(())
}

// After the last header was written and before its sync, the file shows one pair or both; after it, both.
fn assert_second_commit(rt: &impl Abort, alloc: Global) -> Result<(), Fail> {
    let line = "cyr_dbtool t twoskip set b 2";
    let (host, _) = host_after(alloc, &EMPTY, "cyr_dbtool t twoskip set a 1", 1, None)?;
    let file = file_on(alloc, &host)?;
    let (host, _) = host_after(alloc, &file, line, 1, None)?;
    let landings = host.disk().landings();
    let both: &[u8] = b"a\t1\nb\t2\n";
    assert_repaired(rt, alloc, &file_left(alloc, &host, &[])?, both)?;
    let (host, status) = host_after(alloc, &file, line, 1, Some(landings))?;
    assert_eq!(rt; status, 74);
    assert_repaired(rt, alloc, &file_left(alloc, &host, &[])?, b"a\t1\n")?;
    assert_repaired(rt, alloc, &file_left(alloc, &host, &[true])?, both)
}

// The first write, which the fourth call of the disk makes, fails: whether it has landed or not, the file shows no pair.
fn assert_first_write_fails(rt: &impl Abort, alloc: Global) -> Result<(), Fail> {
    let words = words_of(alloc, "cyr_dbtool t twoskip set a b")?;
    let mut host = host_of(alloc, Some(&EMPTY), ROOM, &[4], &[])?;
    let status = status_of(alloc, &mut host, &words, 1)?;
    assert_eq!(rt;
        (status, host.warned()),
        (74, b"device fault: host\n".as_slice())
    );
    for landed in [[false], [true]] {
        assert_repaired(rt, alloc, &file_left(alloc, &host, &landed)?, b"")?;
    }
    Ok(())
}

#[test]
fn torn_changes_open_again(rt: HostRuntime) -> Result<(), Fail> {
    assert_torn(&rt, rt.alloc())?;
    assert_first_write_fails(&rt, rt.alloc())?;
    assert_second_commit(&rt, rt.alloc())
}
