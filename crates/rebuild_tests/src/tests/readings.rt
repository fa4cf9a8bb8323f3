// Old indexes of each kind, whose rebuild is what a second reading of docs/formats.md says.
use super::model::{File, second_reading};
use super::old_index::{Field, OldIndex, OldRecord, index_bytes};
use super::rows::{NOW, folder, host};
use super::runs::words_of;
use cyr_top::run;
use mem_devices::{MemDisk, MemHost};
use mem_source::MemSource;
use rand_pcg::Pcg32;
use std::alloc::Global;
use std::process::Abort;
use std::test::Fail;

// Which files the folder has.
#[derive(Clone, Copy)]
enum Files {
    All,
    AllButLast,
    First,
    Nothing,
}

struct Row {
    name: &'static str,
    files: Files,
    old: Option<OldIndex<'static>>,
    now: u64,
}

const DATED_BYTES: &[u8] =
    b"Date: Mon, 1 Jan 2024 01:00:00 +0100\r\nSubject: Hi\r\n\r\nHello\r\nagain\n";

const LAST_BYTES: &[u8] = b"date:Sun, 7 Feb 2106 06:28:15 gmt\n\nx\n";

const ABC: File<'static> = File {
    name: "1.",
    time: 1_600_000_000,
    bytes: b"abc",
    date: None,
};

const DATED: File<'static> = File {
    name: "20.",
    time: 1_600_000_001,
    bytes: DATED_BYTES,
    date: Some(1_704_067_200),
};

const LAST: File<'static> = File {
    name: "4294967295.",
    time: 4_294_967_296,
    bytes: LAST_BYTES,
    date: Some(4_294_967_295),
};

const ODD: File<'static> = File {
    name: "notes",
    ..ABC
};

const EMPTY: File<'static> = File {
    name: "3.",
    bytes: b"",
    ..ABC
};

const SERVER: File<'static> = File {
    name: "cyrus.header",
    ..ABC
};

const TOO_LARGE: File<'static> = File {
    name: "4294967296.",
    ..ABC
};

const ZERO: File<'static> = File { name: "0.", ..ABC };

fn files_of(files: Files) -> &'static [File<'static>] {
    match files {
        Files::All => &[LAST, ODD, DATED, ZERO, EMPTY, ABC, SERVER, TOO_LARGE],
        Files::AllButLast => &[DATED, ABC],
        Files::First => &[ABC],
        Files::Nothing => &[],
    }
}

// Records that match these messages.
const OF_ABC: OldRecord<'static> = OldRecord {
    uid: 1,
    size: 3,
    digest_of: Some(b"abc"),
    flags: 0x4000_0013,
    updated: 1_500_000_001,
    is_right: true,
};

const OF_DATED: OldRecord<'static> = OldRecord {
    uid: 20,
    size: 66,
    digest_of: Some(DATED_BYTES),
    flags: 0x8000_0006,
    updated: 1_500_000_020,
    is_right: true,
};

const OF_LAST: OldRecord<'static> = OldRecord {
    uid: 4_294_967_295,
    size: 37,
    digest_of: Some(LAST_BYTES),
    flags: 0xc012_3407,
    updated: 1_500_000_009,
    is_right: true,
};

const SEVEN: OldRecord<'static> = OldRecord { uid: 7, ..OF_ABC };

const ALL: OldIndex<'static> = OldIndex {
    records: &[OF_ABC, OF_DATED, OF_LAST],
    fields: &[],
    changed: &[],
    lacking: 0,
    behind: b"",
};

const LAST_MODSEQ: Field = Field {
    at: 68,
    value: u64::MAX,
};

const KEPT: Row = Row {
    name: "each record is kept",
    files: Files::All,
    old: Some(ALL),
    now: NOW,
};

// Indexes that are absent, damaged, or longer than they need to be.
const INDEXES: &[Row] = &[
    KEPT,
    Row {
        name: "no index",
        old: None,
        ..KEPT
    },
    Row {
        name: "no index, no message and no time",
        files: Files::Nothing,
        old: None,
        now: 0,
        ..KEPT
    },
    Row {
        name: "no byte: Short",
        old: Some(OldIndex {
            records: &[],
            lacking: 128,
            ..ALL
        }),
        ..KEPT
    },
    Row {
        name: "127 bytes: Short",
        old: Some(OldIndex {
            records: &[],
            lacking: 1,
            ..ALL
        }),
        ..KEPT
    },
    Row {
        name: "a changed byte of the header: Check",
        old: Some(OldIndex {
            changed: &[70],
            ..ALL
        }),
        ..KEPT
    },
    Row {
        name: "the check word and the version: Check",
        old: Some(OldIndex {
            changed: &[11, 124],
            ..ALL
        }),
        ..KEPT
    },
    Row {
        name: "version 11: MinorVersion",
        old: Some(OldIndex {
            fields: &[Field { at: 8, value: 11 }],
            ..ALL
        }),
        ..KEPT
    },
    Row {
        name: "the version, both sizes and the count: MinorVersion",
        old: Some(OldIndex {
            fields: &[
                Field { at: 8, value: 13 },
                Field { at: 12, value: 96 },
                Field { at: 16, value: 128 },
                Field { at: 20, value: 4 },
            ],
            ..ALL
        }),
        ..KEPT
    },
    Row {
        name: "records of 88 bytes: RecordSize",
        old: Some(OldIndex {
            fields: &[Field { at: 16, value: 88 }],
            ..ALL
        }),
        ..KEPT
    },
    Row {
        name: "both sizes and the count: RecordSize",
        old: Some(OldIndex {
            fields: &[
                Field { at: 12, value: 96 },
                Field { at: 16, value: 128 },
                Field { at: 20, value: 4 },
            ],
            ..ALL
        }),
        ..KEPT
    },
    Row {
        name: "records from 96 on: StartOffset",
        old: Some(OldIndex {
            fields: &[Field { at: 12, value: 96 }],
            ..ALL
        }),
        ..KEPT
    },
    Row {
        name: "the start and the count: StartOffset",
        old: Some(OldIndex {
            fields: &[Field { at: 12, value: 0 }, Field { at: 20, value: 4 }],
            ..ALL
        }),
        ..KEPT
    },
    Row {
        name: "one byte lacks: Count",
        old: Some(OldIndex { lacking: 1, ..ALL }),
        ..KEPT
    },
    Row {
        name: "the greatest count: Count",
        old: Some(OldIndex {
            fields: &[Field {
                at: 20,
                value: 4_294_967_295,
            }],
            ..ALL
        }),
        ..KEPT
    },
    Row {
        name: "bytes behind the last record",
        old: Some(OldIndex {
            behind: b"\x00\x00\x00\x15",
            ..ALL
        }),
        ..KEPT
    },
    Row {
        name: "a record that is not counted",
        old: Some(OldIndex {
            fields: &[Field { at: 20, value: 2 }],
            ..ALL
        }),
        ..KEPT
    },
];

// Records that are kept, ignored, dropped or made anew.
const RECORDS: &[Row] = &[
    Row {
        name: "no record",
        old: Some(OldIndex {
            records: &[],
            ..ALL
        }),
        ..KEPT
    },
    Row {
        name: "no message",
        files: Files::Nothing,
        ..KEPT
    },
    Row {
        name: "wrong checks of the first and the last record",
        old: Some(OldIndex {
            records: &[
                OldRecord {
                    is_right: false,
                    ..OF_ABC
                },
                OF_DATED,
                OldRecord {
                    is_right: false,
                    ..OF_LAST
                },
            ],
            ..ALL
        }),
        ..KEPT
    },
    Row {
        name: "a wrong check of a great uid",
        old: Some(OldIndex {
            records: &[
                OldRecord {
                    is_right: false,
                    ..OF_LAST
                },
                OF_ABC,
                OF_DATED,
                OF_LAST,
            ],
            ..ALL
        }),
        ..KEPT
    },
    Row {
        name: "a wrong check and then a right one",
        old: Some(OldIndex {
            records: &[
                OldRecord {
                    is_right: false,
                    ..OF_ABC
                },
                OF_ABC,
            ],
            ..ALL
        }),
        ..KEPT
    },
    Row {
        name: "uid 0",
        old: Some(OldIndex {
            records: &[
                OldRecord { uid: 0, ..OF_ABC },
                OF_ABC,
                OldRecord { uid: 0, ..OF_ABC },
                OF_DATED,
            ],
            ..ALL
        }),
        ..KEPT
    },
    Row {
        name: "falling uids",
        old: Some(OldIndex {
            records: &[SEVEN, OF_ABC, OF_LAST, OF_DATED],
            ..ALL
        }),
        ..KEPT
    },
    Row {
        name: "double uids",
        old: Some(OldIndex {
            records: &[
                OldRecord { size: 4, ..OF_ABC },
                OF_ABC,
                OF_DATED,
                OldRecord {
                    flags: 0,
                    ..OF_DATED
                },
            ],
            ..ALL
        }),
        ..KEPT
    },
    Row {
        name: "another size",
        old: Some(OldIndex {
            records: &[OldRecord { size: 4, ..OF_ABC }, OF_DATED, OF_LAST],
            ..ALL
        }),
        ..KEPT
    },
    Row {
        name: "another digest",
        old: Some(OldIndex {
            records: &[
                OF_ABC,
                OldRecord {
                    digest_of: None,
                    ..OF_DATED
                },
                OF_LAST,
            ],
            ..ALL
        }),
        ..KEPT
    },
    Row {
        name: "a record between two messages",
        old: Some(OldIndex {
            records: &[OF_ABC, SEVEN, OF_DATED, OF_LAST],
            ..ALL
        }),
        ..KEPT
    },
    Row {
        name: "the last uid has no message",
        files: Files::AllButLast,
        ..KEPT
    },
];

// Numbers at the ends of their ranges.
const NUMBERS: &[Row] = &[
    Row {
        name: "the last modification number, and no change",
        old: Some(OldIndex {
            fields: &[LAST_MODSEQ],
            ..ALL
        }),
        ..KEPT
    },
    Row {
        name: "the last modification number, and a fresh record",
        old: Some(OldIndex {
            fields: &[LAST_MODSEQ],
            records: &[OF_ABC, OF_LAST],
            ..ALL
        }),
        ..KEPT
    },
    Row {
        name: "the last modification number, and a dropped record",
        files: Files::AllButLast,
        old: Some(OldIndex {
            fields: &[LAST_MODSEQ],
            ..ALL
        }),
        ..KEPT
    },
    Row {
        name: "the last modification number but one",
        files: Files::AllButLast,
        old: Some(OldIndex {
            fields: &[Field {
                at: 68,
                value: u64::MAX - 1,
            }],
            ..ALL
        }),
        ..KEPT
    },
    Row {
        name: "the last modification number in a damaged index",
        old: Some(OldIndex {
            fields: &[
                Field { at: 8, value: 11 },
                Field {
                    at: 68,
                    value: u64::MAX,
                },
            ],
            ..ALL
        }),
        ..KEPT
    },
    Row {
        name: "the last generation",
        old: Some(OldIndex {
            fields: &[Field {
                at: 0,
                value: 4_294_967_295,
            }],
            ..ALL
        }),
        ..KEPT
    },
    Row {
        name: "no uidvalidity, and a time past 32 bits",
        old: Some(OldIndex {
            fields: &[Field { at: 44, value: 0 }],
            records: &[OF_ABC],
            ..ALL
        }),
        now: u64::MAX,
        ..KEPT
    },
    Row {
        name: "no uidvalidity, and no time",
        old: Some(OldIndex {
            fields: &[Field { at: 44, value: 0 }],
            ..ALL
        }),
        now: 0,
        ..KEPT
    },
    Row {
        name: "no last uid in the header",
        files: Files::First,
        old: Some(OldIndex {
            fields: &[Field { at: 28, value: 0 }],
            records: &[OF_ABC],
            ..ALL
        }),
        ..KEPT
    },
];

// What a run over these files and this index left, by its status, where these calls fail.
pub(crate) fn rebuild_box(
    alloc: Global,
    files: &[File<'_>],
    old: Option<&[u8]>,
    now: u64,
    failing: [&[u64]; 3],
) -> Result<(u8, MemHost), Fail> {
    let mut spool = folder(alloc, files, failing[0])?;
    let mut host = host(alloc, old, failing[1], failing[2])?;
    let words = words_of(alloc, "reconstruct box")?;
    let mut rng = Pcg32::new(42, 54);
    let mut second = MemDisk::new(alloc, None, 0, &[])?;
    let mut input = MemSource::new(alloc, b"", 1, &[])?;
    let outcome = run(
        alloc,
        &words,
        &mut host,
        &mut second,
        &mut spool,
        &mut input,
        now,
        &mut rng,
    );
    Ok((outcome.status, host))
}

// A run prints and leaves what the second reading says. Gives what was printed and left.
pub(crate) fn assert_reading(
    rt: &impl Abort,
    alloc: Global,
    name: &str,
    files: &[File<'_>],
    old: Option<&[u8]>,
    now: u64,
) -> Result<MemHost, Fail> {
    let (status, host) = rebuild_box(alloc, files, old, now, [&[], &[], &[]])?;
    let Some(wanted) = second_reading(alloc, files, old, now)? else {
        assert_eq!(rt; status, 70, "{name}");
        let refusal = b"limit modseq: 18446744073709551615\n";
        assert_eq!(rt; host.warned(), refusal.as_slice(), "{name}");
        assert_eq!(rt; host.told(), b"".as_slice(), "{name}");
        assert_eq!(rt; host.disk().main(), old, "{name}");
        return Ok(host);
    };
    assert_eq!(rt; status, 0, "{name}");
    assert_eq!(rt; host.warned(), b"".as_slice(), "{name}");
    assert_eq!(rt; host.told(), wanted.report.as_bytes(), "{name}");
    assert_eq!(rt; host.disk().main(), Some(wanted.index.as_slice()), "{name}");
    Ok(host)
}

fn assert_rows(rt: &impl Abort, alloc: Global, rows: &[Row]) -> Result<(), Fail> {
    for row in rows {
        let old = match &row.old {
            Some(old) => Some(index_bytes(alloc, old)?),
            None => None,
        };
        let old = old.as_ref().map(|bytes| bytes.as_slice());
        let _ = assert_reading(rt, alloc, row.name, files_of(row.files), old, row.now)?;
    }
    Ok(())
}

#[test]
fn readings_agree(rt: HostRuntime) -> Result<(), Fail> {
    for rows in [INDEXES, RECORDS, NUMBERS] {
        assert_rows(&rt, rt.alloc(), rows)?;
    }
    Ok(())
}
