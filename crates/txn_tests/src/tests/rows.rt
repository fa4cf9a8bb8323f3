// Files before and after transactions, by their bytes.
use super::files::{DELETED, EMPTY, LEVEL_TWO, ONE_PAIR, PUT_TWICE, REPLACED, TWO_LEVELS};
use super::open_file::{OpenFile, open_bytes};
use std::alloc::Global;
use std::process::Abort;
use std::test::Fail;

const ROOM: u64 = 40_000;

/// A call of a session.
#[derive(Clone, Copy)]
enum Call<'a> {
    Put(u32, &'a [u8], &'a [u8]),
    // A key, and whether it is there.
    Delete(&'a [u8], bool),
    Commit,
    Abort,
}

// A transaction on a file, and the file that it leaves.
#[derive(Clone, Copy)]
struct Row<'a> {
    name: &'a str,
    before: &'a [u8],
    calls: &'a [Call<'a>],
    after: &'a [u8],
    // Whether anything is written.
    writes: bool,
}

// Makes a call, and answers whether it answered as it should.
fn answers(file: &mut OpenFile, call: Call<'_>) -> bool {
    match call {
        Call::Put(word, key, value) => file.store(word, key, value) == Ok(()),
        Call::Delete(key, there) => file.delete(key) == Ok(there),
        Call::Commit => file.commit() == Ok(()),
        Call::Abort => file.abort() == Ok(()),
    }
}

// Runs a transaction, and answers whether each call answered as it should.
fn runs(file: &mut OpenFile, calls: &[Call<'_>]) -> bool {
    let mut right = file.begin() == Ok(());
    for call in calls {
        right = answers(file, *call) && right;
    }
    right
}

fn assert_row(rt: &impl Abort, alloc: Global, row: &Row<'_>) -> Result<(), Fail> {
    let mut file = open_bytes(alloc, row.before, ROOM, &[])?;
    let right = runs(&mut file, row.calls);
    let same = file.bytes() == row.after;
    let writes = file.disk().counts().written > 0;
    assert_eq!(rt;
        (right, same, writes),
        (true, true, row.writes),
        "{}",
        row.name
    );
    Ok(())
}

const ROWS: [Row<'static>; 10] = [
    Row {
        name: "a pair is put",
        before: &EMPTY,
        calls: &[Call::Put(0, b"a", b"b"), Call::Commit],
        after: &ONE_PAIR,
        writes: true,
    },
    Row {
        name: "a pair is deleted",
        before: &ONE_PAIR,
        calls: &[Call::Delete(b"a", true), Call::Commit],
        after: &DELETED,
        writes: true,
    },
    Row {
        name: "a pair that is not there is deleted",
        before: &DELETED,
        calls: &[Call::Delete(b"a", false), Call::Commit],
        after: &DELETED,
        writes: false,
    },
    Row {
        name: "a pair is put twice in a transaction",
        before: &ONE_PAIR,
        calls: &[
            Call::Put(0, b"a", b"x"),
            Call::Put(0, b"a", b"y"),
            Call::Commit,
        ],
        after: &PUT_TWICE,
        writes: true,
    },
    Row {
        name: "a pair is put and given up",
        before: &ONE_PAIR,
        calls: &[Call::Put(0, b"c", b"1"), Call::Abort],
        after: &ONE_PAIR,
        writes: true,
    },
    Row {
        name: "a pair of level 2 is put",
        before: &EMPTY,
        calls: &[Call::Put(1, b"a", b"1"), Call::Commit],
        after: &LEVEL_TWO,
        writes: true,
    },
    Row {
        name: "a pair is put behind it",
        before: &LEVEL_TWO,
        calls: &[Call::Put(0, b"b", b"2"), Call::Commit],
        after: &TWO_LEVELS,
        writes: true,
    },
    Row {
        name: "the pair of level 2 is replaced by one of level 1",
        before: &TWO_LEVELS,
        calls: &[Call::Put(0, b"a", b"3"), Call::Commit],
        after: &REPLACED,
        writes: true,
    },
    Row {
        name: "a transaction changes nothing",
        before: &TWO_LEVELS,
        calls: &[Call::Commit],
        after: &TWO_LEVELS,
        writes: false,
    },
    Row {
        name: "a pair of the greatest level is given up",
        before: &TWO_LEVELS,
        calls: &[
            Call::Put(0xFFFF_FFFF, b"aa", b""),
            Call::Delete(b"b", true),
            Call::Abort,
        ],
        after: &TWO_LEVELS,
        writes: true,
    },
];

#[test]
fn transactions_leave_these_bytes(rt: HostRuntime) -> Result<(), Fail> {
    for row in &ROWS {
        assert_row(&rt, rt.alloc(), row)?;
    }
    Ok(())
}
