// An index is rebuilt, and what is printed and left is compared with bytes that were made apart from this code.
ghost use Rattle.std.specs.Prelude.{IfOk};
ghost use Rattle.base_devices.specs.SpoolCalls.{GaveNoName};
ghost use Rattle.mem_spool.specs.MemSpool.{mem_spool_state};

use super::indexes::{DAMAGED, THREE_RECORDS, TWO_FRESH, TWO_KEPT_AND_FRESH};
use super::model::File;
use base_bytes::NoMemory;
use base_notes::Options;
use mail_rebuild::{RebuildFault, Tally, rebuild};
use mem_devices::{MemDisk, MemHost};
use mem_spool::MemSpool;
use std::alloc::Global;
use std::process::Abort;
use std::test::Fail;

const FILE_TIME: u64 = 1_600_000_000;

pub(crate) const NOW: u64 = 1_700_000_000;

const ROOM: u64 = 1 << 20;

pub(crate) const FIVE: &[File<'static>] = &[
    File {
        name: "notes",
        time: FILE_TIME,
        bytes: b"x",
        date: None,
    },
    File {
        name: "2.",
        time: FILE_TIME,
        bytes: b"The quick brown fox jumps over the lazy dog",
        date: None,
    },
    File {
        name: "3.",
        time: FILE_TIME,
        bytes: b"",
        date: None,
    },
    File {
        name: "1.",
        time: FILE_TIME,
        bytes: b"abc",
        date: None,
    },
    File {
        name: "01.",
        time: FILE_TIME,
        bytes: b"abc",
        date: None,
    },
];

pub(crate) const TWO: &[File<'static>] = &[
    File {
        name: "4294967295.",
        time: FILE_TIME,
        bytes: b"abc",
        date: None,
    },
    File {
        name: "1.",
        time: FILE_TIME,
        bytes: b"abc",
        date: None,
    },
];

const FULL: Options = Options {
    dry: false,
    quiet: false,
    skip_odd: false,
    force: false,
};

const KEPT_ONE: Tally = Tally {
    kept: 1,
    fresh: 1,
    dropped: 1,
};

const FRESH_TWO: Tally = Tally {
    kept: 0,
    fresh: 2,
    dropped: 0,
};

struct Row {
    name: &'static str,
    files: &'static [File<'static>],
    main: Option<&'static [u8]>,
    options: Options,
    // The calls that fail: of the spool, of the disk, and to print.
    failing: [&'static [u64]; 3],
    wanted: Result<Tally, RebuildFault>,
    told: &'static str,
    left: Option<&'static [u8]>,
}

const ROWS: &[Row] = &[
    Row {
        name: "flags are kept, and a fresh, a dropped and three odd ones are reported",
        files: FIVE,
        main: Some(THREE_RECORDS),
        options: FULL,
        failing: [&[], &[], &[]],
        wanted: Ok(KEPT_ONE),
        told: "uid 2 unmatched\nuid 5 dropped\nodd 01.\nodd 3.\nodd notes\nkept 1 fresh 1 dropped 1\n",
        left: Some(TWO_KEPT_AND_FRESH),
    },
    Row {
        name: "a quiet dry run prints the last line and changes nothing",
        files: FIVE,
        main: Some(THREE_RECORDS),
        options: Options {
            dry: true,
            quiet: true,
            skip_odd: false,
            force: false,
        },
        failing: [&[], &[], &[]],
        wanted: Ok(KEPT_ONE),
        told: "kept 1 fresh 1 dropped 1\n",
        left: Some(THREE_RECORDS),
    },
    Row {
        name: "odd names are passed over",
        files: FIVE,
        main: Some(THREE_RECORDS),
        options: Options {
            dry: false,
            quiet: false,
            skip_odd: true,
            force: true,
        },
        failing: [&[], &[], &[]],
        wanted: Ok(KEPT_ONE),
        told: "uid 2 unmatched\nuid 5 dropped\nkept 1 fresh 1 dropped 1\n",
        left: Some(TWO_KEPT_AND_FRESH),
    },
    Row {
        name: "beside a damaged index all is fresh",
        files: TWO,
        main: Some(DAMAGED),
        options: FULL,
        failing: [&[], &[], &[]],
        wanted: Ok(FRESH_TWO),
        told: "index damaged: Check\nuid 1 new\nuid 4294967295 new\nkept 0 fresh 2 dropped 0\n",
        left: Some(TWO_FRESH),
    },
    Row {
        name: "without an index all is fresh",
        files: TWO,
        main: None,
        options: FULL,
        failing: [&[], &[], &[]],
        wanted: Ok(FRESH_TWO),
        told: "index absent\nuid 1 new\nuid 4294967295 new\nkept 0 fresh 2 dropped 0\n",
        left: Some(TWO_FRESH),
    },
    Row {
        name: "the second message cannot be read",
        files: TWO,
        main: Some(DAMAGED),
        options: FULL,
        failing: [&[8], &[], &[]],
        wanted: Err(RebuildFault::SpoolFault),
        told: "",
        left: Some(DAMAGED),
    },
    Row {
        name: "the old index cannot be read",
        files: TWO,
        main: Some(DAMAGED),
        options: FULL,
        failing: [&[], &[1], &[]],
        wanted: Err(RebuildFault::DiskFault),
        told: "",
        left: Some(DAMAGED),
    },
    Row {
        name: "the report cannot be printed",
        files: TWO,
        main: Some(DAMAGED),
        options: FULL,
        failing: [&[], &[], &[1]],
        wanted: Err(RebuildFault::WriteFault),
        told: "",
        left: Some(DAMAGED),
    },
];

// A folder of these files, of whose calls these fail.
pub(crate) fn folder(
    alloc: Global,
    files: &[File<'_>],
    failing: &[u64],
) -> Result<MemSpool, NoMemory>
    ensures { IfOk result (λ s. GaveNoName (mem_spool_state s)) }
{
    let mut spool = MemSpool::new(alloc)?;
    for file in files {
        if file.name.len() <= 255 && !spool.has(file.name) {
            spool.add(file.name, file.time, file.bytes)?;
        }
    }
    if let Some(call) = failing.first() {
        spool.fail_at(*call)?;
    }
    Ok(spool)
}

// A host with this index, of whose calls and prints these fail.
pub(crate) fn host(
    alloc: Global,
    main: Option<&[u8]>,
    calls: &[u64],
    prints: &[u64],
) -> Result<MemHost, Fail> {
    if main.is_some_and(|bytes| bytes.len() as u64 > ROOM) {
        return Err("the index is too long for the test".into());
    }
    let disk = MemDisk::new(alloc, main, ROOM, calls)?;
    Ok(MemHost::new(alloc, disk, ROOM, prints)?)
}

fn assert_rebuilt(rt: &impl Abort, alloc: Global, row: &Row) -> Result<(), Fail> {
    let mut spool = folder(alloc, row.files, row.failing[0])?;
    let mut host = host(alloc, row.main, row.failing[1], row.failing[2])?;
    let result = rebuild(alloc, &mut host, &mut spool, NOW, &row.options);
    assert_eq!(rt; result, row.wanted, "{}", row.name);
    assert_eq!(rt; host.told(), row.told.as_bytes(), "{}", row.name);
    assert_eq!(rt; host.disk().main(), row.left, "{}", row.name);
    Ok(())
}

#[test]
fn folders_are_rebuilt(rt: HostRuntime) -> Result<(), Fail> {
    for row in ROWS {
        assert_rebuilt(&rt, rt.alloc(), row)?;
    }
    Ok(())
}
