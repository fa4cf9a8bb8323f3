// A disk in memory and a host around it, through their traits.
use crate::{Counts, MemDisk, MemHost};
use base_devices::{Disk, Failed, Host, ReadFault, read_whole};
use std::alloc::Global;
use std::test::Fail;

// Puts these bytes in the main file's place.
fn replace<D: Disk>(disk: &mut D, bytes: &[u8]) -> Result<(), Failed> {
    disk.new_start()?;
    disk.new_write(bytes)?;
    disk.new_sync()?;
    disk.publish()
}

// Reads the first byte of the main file, where it has one, and syncs it.
fn read_and_sync<D: Disk>(disk: &mut D) -> Result<Option<u8>, Failed> {
    match disk.length()? {
        Some(length) if length > 0 => {
            let mut byte = [0u8; 1];
            disk.read_at(0, &mut byte)?;
            disk.sync()?;
            Ok(Some(byte[0]))
        }
        _ => Ok(None),
    }
}

/// A disk's room and the calls that are to fail, and what is there once its file was to be replaced. Each of the four
/// calls takes 64 bytes of room, and three bytes are written.
struct Replaced {
    name: &'static str,
    room: u64,
    fails: &'static [u64],
    main: &'static [u8],
    counts: Counts,
}

const REPLACED: &[Replaced] = &[
    Replaced {
        name: "just enough room",
        room: 259,
        fails: &[],
        main: b"new",
        counts: Counts {
            faults: 0,
            written: 0,
            publishes: 1,
        },
    },
    Replaced {
        name: "room for all but the last byte",
        room: 258,
        fails: &[],
        main: b"old",
        counts: Counts {
            faults: 1,
            written: 0,
            publishes: 1,
        },
    },
    Replaced {
        name: "room for two calls, and no bytes",
        room: 130,
        fails: &[],
        main: b"old",
        counts: Counts {
            faults: 1,
            written: 0,
            publishes: 0,
        },
    },
    Replaced {
        name: "room for no call",
        room: 63,
        fails: &[],
        main: b"old",
        counts: Counts {
            faults: 1,
            written: 0,
            publishes: 0,
        },
    },
    Replaced {
        name: "the start fails",
        room: 500,
        fails: &[1],
        main: b"old",
        counts: Counts {
            faults: 1,
            written: 0,
            publishes: 0,
        },
    },
    Replaced {
        name: "the write fails",
        room: 500,
        fails: &[2],
        main: b"old",
        counts: Counts {
            faults: 1,
            written: 0,
            publishes: 0,
        },
    },
    Replaced {
        name: "the sync fails",
        room: 500,
        fails: &[3],
        main: b"old",
        counts: Counts {
            faults: 1,
            written: 0,
            publishes: 0,
        },
    },
    Replaced {
        name: "the publish fails",
        room: 500,
        fails: &[4],
        main: b"old",
        counts: Counts {
            faults: 1,
            written: 0,
            publishes: 1,
        },
    },
    Replaced {
        name: "a later call is to fail",
        room: 500,
        fails: &[5],
        main: b"new",
        counts: Counts {
            faults: 0,
            written: 0,
            publishes: 1,
        },
    },
];

#[test]
fn a_new_file_takes_its_place_or_fails(rt: HostRuntime) -> Result<(), Fail> {
    for row in REPLACED {
        assert!(rt; row.room >= 3);
        let mut disk = MemDisk::new(rt.alloc(), Some(b"old"), row.room, row.fails)?;
        let is_ok = replace(&mut disk, b"new").is_ok();
        assert_eq!(rt; is_ok, row.counts.faults == 0, "{}", row.name);
        assert!(rt; disk.main() == Some(row.main), "{}", row.name);
        assert_eq!(rt; disk.counts(), row.counts, "{}", row.name);
    }
    Ok(())
}

// Whether the main file is there and reads whole as these bytes.
fn reads_whole<D: Disk>(alloc: Global, disk: &mut D, bytes: &[u8]) -> Result<bool, ReadFault> {
    match disk.length() {
        Ok(Some(length)) => {
            let read = read_whole(alloc, disk, length)?;
            Ok(read.as_slice() == bytes)
        }
        Ok(None) => Ok(false),
        Err(_) => Err(ReadFault::DiskFault),
    }
}

/// A file that is read whole, behind the one call of `length`, where the calls with these numbers are to fail.
struct Read {
    name: &'static str,
    bytes: &'static [u8],
    fails: &'static [u64],
    answer: Result<bool, ReadFault>,
    faults: u64,
}

const READS: &[Read] = &[
    Read {
        name: "the one read is the last call",
        bytes: b"abc",
        fails: &[3],
        answer: Ok(true),
        faults: 0,
    },
    Read {
        name: "no byte, and no read",
        bytes: b"",
        fails: &[2],
        answer: Ok(true),
        faults: 0,
    },
    Read {
        name: "no call behind a read that fails",
        bytes: b"abc",
        fails: &[2, 3, 4, 5, 6, 7, 8, 9, 10, 11],
        answer: Err(ReadFault::DiskFault),
        faults: 1,
    },
];

// The next call fails in each row, so no other was made before it.
#[test]
fn a_file_is_read_whole_by_reads_alone(rt: HostRuntime) -> Result<(), Fail> {
    for row in READS {
        assert!(rt; row.bytes.len() <= 100);
        let mut disk = MemDisk::new(rt.alloc(), Some(row.bytes), 100, row.fails)?;
        let answer = reads_whole(rt.alloc(), &mut disk, row.bytes);
        assert_eq!(rt; answer, row.answer, "{}", row.name);
        assert_eq!(rt; disk.counts().faults, row.faults, "{}", row.name);
        assert_eq!(rt; disk.length(), Err(Failed), "{}", row.name);
    }
    Ok(())
}

#[test]
fn an_absent_file_is_replaced_and_read(rt: HostRuntime) -> Result<(), Fail> {
    let mut disk = MemDisk::new(rt.alloc(), None, 800, &[11])?;
    assert!(rt; disk.main().is_none());
    assert_eq!(rt; read_and_sync(&mut disk), Ok(None));
    assert_eq!(rt; replace(&mut disk, b"new"), Ok(()));
    assert_eq!(rt; read_and_sync(&mut disk), Ok(Some(b'n')));
    assert_eq!(rt; disk.counts().faults, 0);
    assert_eq!(rt; read_and_sync(&mut disk), Err(Failed));
    assert_eq!(rt; disk.counts().faults, 1);
    Ok(())
}

#[test]
fn a_host_prints_to_two_streams(rt: HostRuntime) -> Result<(), Fail> {
    let disk = MemDisk::new(rt.alloc(), Some(b"old"), 64 * 7 + 3, &[])?;
    let mut host = MemHost::new(rt.alloc(), disk, 4, &[2])?;
    let prints = [host.tell(b"ab"), host.tell(b"c"), host.tell(b"cde")];
    assert_eq!(rt; prints, [Ok(()), Err(Failed), Err(Failed)]);
    assert_eq!(rt; replace(&mut host, b"new"), Ok(()));
    let prints = [host.tell(b"cd"), host.tell(b"")];
    assert_eq!(rt; prints, [Ok(()), Err(Failed)]);
    host.warn(b"abc");
    host.warn(b"def");
    assert_eq!(rt; host.told(), b"abcd".as_slice());
    assert_eq!(rt; host.warned(), b"abcd".as_slice());
    assert_eq!(rt; host.disk().main() == Some(b"new"), true);
    assert_eq!(rt; host.disk().counts().faults, 3);
    assert_eq!(rt; read_and_sync(&mut host), Err(Failed));
    Ok(())
}
