// Keys and values at their limits.
use super::files::EMPTY;
use super::runs::{host_of, status_of, words_of};
use std::alloc::Global;
use std::process::Abort;
use std::test::Fail;

const ROOM: u64 = 200_000;

// How many letters the key and the value have, and what must come of their put in an empty file.
struct Row {
    key: usize,
    value: usize,
    status: u8,
    warned: &'static str,
    size: usize,
}

const ROWS: [Row; 3] = [
    Row {
        key: 65_534,
        value: 0,
        status: 0,
        warned: "",
        size: 65_928,
    },
    Row {
        key: 65_535,
        value: 0,
        status: 70,
        warned: "limit key: 65535\n",
        size: 336,
    },
    Row {
        key: 1,
        value: 16_777_217,
        status: 70,
        warned: "limit value: 16777217\n",
        size: 336,
    },
];

fn assert_row(rt: &impl Abort, alloc: Global, row: &Row) -> Result<(), Fail> {
    let mut words = words_of(alloc, "cyr_dbtool t twoskip set")?;
    words.push("k".repeat(alloc, row.key)?)?;
    words.push("v".repeat(alloc, row.value)?)?;
    let mut host = host_of(alloc, Some(&EMPTY), ROOM, &[], &[])?;
    let status = status_of(alloc, &mut host, &words, 1)?;
    assert_eq!(rt; status, row.status, "{}", row.warned);
    assert_eq!(rt; host.warned(), row.warned.as_bytes());
    let size = host.disk().main().map_or(0, |bytes| bytes.len());
    assert_eq!(rt; size, row.size, "{}", row.warned);
    Ok(())
}

#[test]
fn key_and_value_limits(rt: HostRuntime) -> Result<(), Fail> {
    for row in &ROWS {
        assert_row(&rt, rt.alloc(), row)?;
    }
    Ok(())
}
