// What a stop leaves of a disk in memory, by which landings landed.
use crate::{MemDisk, MemHost};
use base_bytes::NoMemory;
use base_devices::{Disk, Failed, Host};
use std::alloc::Global;
use std::test::Fail;

const OLD: [u8; 128] = [b'o'; 128];

const NEW: [u8; 256] = [b'n'; 256];

#[derive(Clone, Copy)]
enum Call {
    /// Writes so many bytes from an offset on.
    Write(u64, usize),
    Cut(u64),
    Sync,
    /// Puts a new file of so many bytes in the main file's place.
    Replace(usize),
}

// So many of the new bytes.
fn new_bytes(count: usize) -> &'static [u8] {
    if count <= NEW.len() {
        &NEW[..count]
    } else {
        &NEW
    }
}

// Writes where the offset is in the main file or at its end.
fn write<D: Disk>(disk: &mut D, at: u64, bytes: &[u8]) -> Result<(), Failed> {
    match disk.length()? {
        Some(length) if at <= length => disk.write_at(at, bytes),
        _ => Err(Failed),
    }
}

fn cut<D: Disk>(disk: &mut D, to: u64) -> Result<(), Failed> {
    match disk.length()? {
        Some(length) if to <= length => disk.cut(to),
        _ => Err(Failed),
    }
}

fn sync<D: Disk>(disk: &mut D) -> Result<(), Failed> {
    match disk.length()? {
        Some(_) => disk.sync(),
        None => Err(Failed),
    }
}

fn replace<D: Disk>(disk: &mut D, bytes: &[u8]) -> Result<(), Failed> {
    disk.new_start()?;
    disk.new_write(bytes)?;
    disk.new_sync()?;
    disk.publish()
}

fn make<D: Disk>(disk: &mut D, call: Call) -> Result<(), Failed> {
    match call {
        Call::Write(at, count) => write(disk, at, new_bytes(count)),
        Call::Cut(to) => cut(disk, to),
        Call::Sync => sync(disk),
        Call::Replace(count) => replace(disk, new_bytes(count)),
    }
}

/// Runs of one byte each, so many.
type Runs = &'static [(u8, usize)];

/// Calls on a file of 128 bytes, what becomes of them, and what a stop then leaves.
struct Case {
    name: &'static str,
    /// The numbers of the calls that are to fail.
    fails: &'static [u64],
    /// After how many landings every call fails.
    stop: u64,
    calls: &'static [Call],
    /// How many of them answer Ok.
    done: u64,
    landings: u64,
    /// Images, each by which pending landings landed.
    left: &'static [(&'static [bool], Runs)],
}

const CASES: &[Case] = &[
    Case {
        name: "a write that touches two lines",
        fails: &[],
        stop: 9,
        calls: &[Call::Write(60, 10)],
        done: 1,
        landings: 2,
        left: &[
            (&[], &[(b'o', 128)]),
            (&[true], &[(b'o', 60), (b'n', 4), (b'o', 64)]),
            (&[false, true], &[(b'o', 64), (b'n', 6), (b'o', 58)]),
            (&[true, true], &[(b'o', 60), (b'n', 10), (b'o', 58)]),
        ],
    },
    Case {
        name: "a write past the end",
        fails: &[],
        stop: 9,
        calls: &[Call::Write(100, 100)],
        done: 1,
        landings: 3,
        left: &[
            (&[false, true], &[(b'o', 128), (b'n', 64)]),
            (&[false, false, true], &[(b'o', 128), (0, 64), (b'n', 8)]),
        ],
    },
    Case {
        name: "a line that the end cuts",
        fails: &[],
        stop: 9,
        calls: &[Call::Cut(70), Call::Sync, Call::Write(60, 20)],
        done: 3,
        landings: 3,
        left: &[
            (&[true], &[(b'o', 60), (b'n', 4), (b'o', 6)]),
            (&[false, true], &[(b'o', 64), (b'n', 16)]),
        ],
    },
    Case {
        name: "a cut and a write",
        fails: &[],
        stop: 9,
        calls: &[Call::Cut(70), Call::Write(70, 5)],
        done: 2,
        landings: 2,
        left: &[
            (&[true], &[(b'o', 70)]),
            (&[false, true], &[(b'o', 70), (b'n', 5), (b'o', 53)]),
        ],
    },
    Case {
        name: "a cut that fails",
        fails: &[2],
        stop: 9,
        calls: &[Call::Cut(70)],
        done: 0,
        landings: 1,
        left: &[(&[], &[(b'o', 128)]), (&[true], &[(b'o', 70)])],
    },
    Case {
        name: "a write that fails",
        fails: &[2],
        stop: 9,
        calls: &[Call::Write(60, 10)],
        done: 0,
        landings: 2,
        left: &[
            (&[], &[(b'o', 128)]),
            (&[true, true], &[(b'o', 60), (b'n', 10), (b'o', 58)]),
        ],
    },
    Case {
        name: "a sync that fails",
        fails: &[4],
        stop: 9,
        calls: &[Call::Write(60, 10), Call::Sync],
        done: 1,
        landings: 2,
        left: &[(&[], &[(b'o', 128)])],
    },
    Case {
        name: "a publish that fails",
        fails: &[4],
        stop: 9,
        calls: &[Call::Replace(9)],
        done: 0,
        landings: 1,
        left: &[(&[], &[(b'o', 128)]), (&[true], &[(b'n', 9)])],
    },
    Case {
        name: "a stop within a write of three lines",
        fails: &[],
        stop: 3,
        calls: &[Call::Write(0, 5), Call::Write(10, 130), Call::Sync],
        done: 1,
        landings: 3,
        left: &[(
            &[true, true, true, true],
            &[(b'n', 5), (b'o', 5), (b'n', 118)],
        )],
    },
    Case {
        name: "a stop at a publish",
        fails: &[],
        stop: 1,
        calls: &[Call::Replace(9), Call::Sync],
        done: 1,
        landings: 1,
        left: &[(&[], &[(b'n', 9)])],
    },
    Case {
        name: "a stop at once",
        fails: &[],
        stop: 0,
        calls: &[Call::Replace(9), Call::Sync],
        done: 0,
        landings: 0,
        left: &[(&[true], &[(b'o', 128)])],
    },
    Case {
        name: "a sync without room",
        fails: &[],
        stop: 9,
        calls: &[Call::Write(128, 256), Call::Sync, Call::Sync],
        done: 2,
        landings: 4,
        left: &[(&[], &[(b'o', 128), (b'n', 256)])],
    },
];

// The bytes are these runs, one after the other.
fn are_runs(bytes: &[u8], runs: Runs) -> bool {
    let mut rest = bytes;
    for (byte, count) in runs {
        if rest.len() < *count {
            return false;
        }
        let (run, more) = rest.split_at(*count);
        if run.iter().any(|b| b != byte) {
            return false;
        }
        rest = more;
    }
    rest.is_empty()
}

// Makes the calls, and counts those that answer Ok.
fn make_all<D: Disk>(disk: &mut D, calls: &[Call]) -> u64 {
    let mut done = 0u64;
    for call in calls {
        if make(disk, *call).is_ok() {
            done = done.saturating_add(1);
        }
    }
    done
}

// A stop leaves these runs where just the listed landings landed.
fn is_left(alloc: Global, disk: &MemDisk, landed: &[bool], runs: Runs) -> Result<bool, NoMemory> {
    let left = disk.left(alloc, landed)?;
    Ok(are_runs(left.main().unwrap_or(&[]), runs))
}

#[test]
fn a_stop_leaves_what_landed(rt: HostRuntime) -> Result<(), Fail> {
    for case in CASES {
        let mut disk = MemDisk::new(rt.alloc(), Some(&OLD), 400, case.fails)?;
        disk.stop_after(case.stop);
        let done = make_all(&mut disk, case.calls);
        assert_eq!(rt;
            (done, disk.landings()),
            (case.done, case.landings),
            "{}",
            case.name
        );
        for (landed, runs) in case.left {
            assert!(rt; is_left(rt.alloc(), &disk, landed, runs)?, "{}", case.name);
        }
    }
    Ok(())
}

#[test]
fn a_host_stops_with_its_disk(rt: HostRuntime) -> Result<(), Fail> {
    let mut disk = MemDisk::new(rt.alloc(), Some(&OLD), 400, &[])?;
    disk.stop_after(1);
    let mut host = MemHost::new(rt.alloc(), disk, 10, &[])?;
    assert_eq!(rt; host.tell(b"a"), Ok(()));
    assert_eq!(rt; make_all(&mut host, &[Call::Cut(60), Call::Write(0, 1)]), 1);
    assert_eq!(rt; host.tell(b"b"), Err(Failed));
    assert_eq!(rt; host.told(), b"a".as_slice());
    Ok(())
}
