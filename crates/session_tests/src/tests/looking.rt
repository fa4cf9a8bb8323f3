// Flat files of plain lines but for one, by the readers that make no map and by those that make one.
use super::steps::Pairs;
use base_bytes::Flaw;
use db_core::OpenFault;
use flat_db::{check_db, fetch_db, read_flat, verify_db};
use mem_devices::MemDisk;
use std::alloc::Global;
use std::process::Abort;
use std::test::Fail;

// A text, and its map or its first flaw.
struct Row {
    name: &'static str,
    text: &'static [u8],
    map: Result<Pairs, OpenFault>,
}

const THREE: Result<Pairs, OpenFault> = Ok(&[(b"a", b"1"), (b"b", b"2"), (b"c", b"3")]);

const ROWS: &[Row] = &[
    Row {
        name: "plain lines",
        text: b"a\t1\nb\t2\nc\t3\n",
        map: THREE,
    },
    Row {
        name: "the first line is escaped",
        text: b"a\xff\x89\t\xff\x8a1\nb\t2\nc\t3\n",
        map: Ok(&[(b"a\t", b"\n1"), (b"b", b"2"), (b"c", b"3")]),
    },
    Row {
        name: "a middle line is escaped",
        text: b"a\t1\nb\xff\x89\t\xff\x8a2\nc\t3\n",
        map: Ok(&[(b"a", b"1"), (b"b\t", b"\n2"), (b"c", b"3")]),
    },
    Row {
        name: "the last line is escaped",
        text: b"a\t1\nb\t2\nc\xff\x89\t\xff\x8a3\n",
        map: Ok(&[(b"a", b"1"), (b"b", b"2"), (b"c\t", b"\n3")]),
    },
    Row {
        name: "the first line is out of order",
        text: b"c\t3\na\t1\nb\t2\n",
        map: THREE,
    },
    Row {
        name: "a middle line is out of order",
        text: b"a\t1\nc\t3\nb\t2\nd\t4\n",
        map: Ok(&[(b"a", b"1"), (b"b", b"2"), (b"c", b"3"), (b"d", b"4")]),
    },
    Row {
        name: "the last line is out of order",
        text: b"b\t2\nc\t3\na\t1\n",
        map: THREE,
    },
    Row {
        name: "the first line is repeated at once",
        text: b"a\t0\na\t1\nb\t2\nc\t3\n",
        map: THREE,
    },
    Row {
        name: "a middle line is repeated at once",
        text: b"a\t1\nb\t0\nb\t2\nc\t3\n",
        map: THREE,
    },
    Row {
        name: "the last line is repeated at once",
        text: b"a\t1\nb\t2\nc\t0\nc\t3\n",
        map: THREE,
    },
    Row {
        name: "the first line is repeated as the last",
        text: b"a\t0\nb\t2\nc\t3\na\t1",
        map: THREE,
    },
    Row {
        name: "a value with a bare TAB",
        text: b"a\t1\nb\t2\t\nc\t3\n",
        map: Ok(&[(b"a", b"1"), (b"b", b"2\t"), (b"c", b"3")]),
    },
    Row {
        name: "the first line has no TAB",
        text: b"a\nb\t2\nc\t3\n",
        map: Err(OpenFault::Damaged {
            at: 0,
            check: Flaw::NoTab,
        }),
    },
    Row {
        name: "a middle line has no key",
        text: b"a\t1\n\t2\nc\t3\n",
        map: Err(OpenFault::Damaged {
            at: 4,
            check: Flaw::EmptyKey,
        }),
    },
    Row {
        name: "the last line has a bad escape",
        text: b"a\t1\nb\t2\nc\t\xff\n",
        map: Err(OpenFault::Damaged {
            at: 10,
            check: Flaw::BadEscape,
        }),
    },
];

// Whether a key is looked for with this answer in the file.
fn fetches(
    alloc: Global,
    disk: &mut MemDisk,
    key: &[u8],
    wanted: Result<Option<&[u8]>, OpenFault>,
) -> bool {
    match (fetch_db(alloc, disk, key), wanted) {
        (Ok(Some(value)), Ok(Some(wanted))) => value.as_slice() == wanted,
        (Ok(None), Ok(None)) => true,
        (Err(fault), Err(wanted)) => fault == wanted,
        _ => false,
    }
}

// The place of the first pair that is not found as it is to be, in the file or in the map of its text.
fn first_other(alloc: Global, disk: &mut MemDisk, text: &[u8], pairs: Pairs) -> Option<usize> {
    let Ok(map) = read_flat(alloc, text) else {
        return Some(pairs.len());
    };
    for (place, (key, value)) in pairs.iter().enumerate() {
        if !fetches(alloc, disk, key, Ok(Some(value))) || map.fetch(key) != Some(*value) {
            return Some(place);
        }
    }
    None
}

fn assert_row(rt: &impl Abort, alloc: Global, row: &Row) -> Result<(), Fail> {
    if row.text.len() > 4_000 {
        return Err("the text is too long for the test".into());
    }
    let mut disk = MemDisk::new(alloc, Some(row.text), 4_000, &[])?;
    let (count, sound, absent) = match row.map {
        Ok(pairs) => (Ok(pairs.len() as u64), Ok(()), Ok(None)),
        Err(fault) => (Err(fault), Err(fault), Err(fault)),
    };
    assert_eq!(rt; check_db(alloc, &mut disk), count, "{}", row.name);
    assert_eq!(rt; verify_db(alloc, &mut disk), sound, "{}", row.name);
    assert!(rt; fetches(alloc, &mut disk, b"bb", absent), "{}", row.name);
    assert!(rt; fetches(alloc, &mut disk, b"", absent), "{}", row.name);
    let other = match row.map {
        Ok(pairs) => first_other(alloc, &mut disk, row.text, pairs),
        Err(_) => None,
    };
    assert_eq!(rt; other, None, "{}", row.name);
    Ok(())
}

#[test]
fn flat_text_is_looked_through_as_it_is_read(rt: HostRuntime) -> Result<(), Fail> {
    for row in ROWS {
        assert_row(&rt, rt.alloc(), row)?;
    }
    Ok(())
}
