// The longest keys and values, and the longest file.
use super::files::EMPTY;
use super::open_file::{OpenFile, open_bytes};
use skip_txn::TxnFault;
use std::alloc::Global;
use std::process::Abort;
use std::test::Fail;

const ROOM: u64 = 200_000;

// More than a file may have, for the whole file and the record of all that is written to it.
const FILE_ROOM: u64 = 270_000_000;

const VALUE_SIZE: usize = 16_777_216;

// A key of this length and a value of this length, what their put answers, and the file's size after it and after the
// commit.
struct Row {
    name: &'static str,
    key: usize,
    value: usize,
    answer: Result<(), TxnFault>,
    sizes: (usize, usize),
}

const ROWS: [Row; 4] = [
    Row {
        name: "the longest key",
        key: 65_534,
        value: 0,
        answer: Ok(()),
        sizes: (336 + 65_568, 65_928),
    },
    Row {
        name: "a longer key",
        key: 65_535,
        value: 0,
        answer: Err(TxnFault::KeyTooLong { length: 65_535 }),
        sizes: (336, 336),
    },
    Row {
        name: "a value longer than the longest",
        key: 1,
        value: VALUE_SIZE + 1,
        answer: Err(TxnFault::ValueTooLong { length: 16_777_217 }),
        sizes: (336, 336),
    },
    Row {
        name: "an empty key",
        key: 0,
        value: 1,
        answer: Err(TxnFault::KeyEmpty),
        sizes: (336, 336),
    },
];

fn assert_row(rt: &impl Abort, alloc: Global, row: &Row) -> Result<(), Fail> {
    let key = vec![in alloc; b'k'; row.key]?;
    let value = vec![in alloc; b'v'; row.value]?;
    let mut file = open_bytes(alloc, &EMPTY, ROOM, &[])?;
    let begun = file.begin();
    let answer = file.store(0, &key, &value);
    let size = file.bytes().len();
    let committed = file.commit();
    let whole = file.bytes().len();
    assert_eq!(rt;
        (begun, answer, committed, (size, whole)),
        (Ok(()), row.answer, Ok(()), row.sizes),
        "{}",
        row.name
    );
    Ok(())
}

#[test]
fn key_and_value_limits(rt: HostRuntime) -> Result<(), Fail> {
    for row in &ROWS {
        assert_row(&rt, rt.alloc(), row)?;
    }
    Ok(())
}

// Puts this value under keys of one byte, and answers how many were put.
fn fill(file: &mut OpenFile, keys: &[u8], value: &[u8]) -> usize {
    let mut count = 0usize;
    for key in keys {
        if file.store(0, &[*key], value) == Ok(()) {
            count = count.wrapping_add(1);
        }
    }
    count
}

#[test]
fn sixteenth_long_value_is_full(rt: HostRuntime) -> Result<(), Fail> {
    let alloc = rt.alloc();
    let value = vec![in alloc; b'v'; VALUE_SIZE]?;
    let mut file = open_bytes(alloc, &EMPTY, FILE_ROOM, &[])?;
    let begun = file.begin();
    let count = fill(&mut file, b"abcdefghijklmno", &value);
    let refused = file.store(0, b"p", &value);
    let committed = file.commit();
    assert_eq!(rt; (begun, count, committed), (Ok(()), 15, Ok(())));
    assert_eq!(rt; refused, Err(TxnFault::Full { size: 268_436_456 }));
    let size = file.bytes().len();
    assert_eq!(rt; size, 336 + 15 * 16_777_256 + 24);
    Ok(())
}
