// How often a store calls the disk: once for its record, and once for each head before it, on however many levels.
use super::files::EMPTY;
use super::open_file::{OpenFile, open_bytes};
use rand_core::utils::NextWord;
use rand_pcg::Pcg32;
use skip_txn::TxnFault;
use std::alloc::Global;
use std::process::Abort;
use std::test::Fail;

const ROOM: u64 = 60_000_000;

const SMALL_ROOM: u64 = 10_000;

// Words that give the levels 1, 2 and 3.
const ONE: u32 = 0;

const TWO: u32 = 1;

const THREE: u32 = 3;

// A key with the word of its level.
type Put = (u32, &'static [u8]);

// Keys that are put in a first transaction, the one that a second transaction puts, and how many calls of the disk its
// store makes: the header and a sync, its record, and the heads before it.
struct Row {
    name: &'static str,
    before: &'static [Put],
    put: Put,
    calls: u64,
}

const ROWS: [Row; 8] = [
    Row {
        name: "behind the dummy",
        before: &[],
        put: (ONE, b"a"),
        calls: 2 + 1 + 1,
    },
    Row {
        name: "behind a record",
        before: &[(ONE, b"a")],
        put: (ONE, b"b"),
        calls: 2 + 1 + 1,
    },
    Row {
        name: "on three levels behind the dummy",
        before: &[],
        put: (THREE, b"a"),
        calls: 2 + 1 + 1,
    },
    Row {
        name: "on three levels behind one record",
        before: &[(THREE, b"a")],
        put: (THREE, b"b"),
        calls: 2 + 1 + 1,
    },
    Row {
        name: "on three levels behind two heads",
        before: &[(THREE, b"a"), (ONE, b"b")],
        put: (THREE, b"c"),
        calls: 2 + 1 + 2,
    },
    Row {
        name: "on three levels behind three heads",
        before: &[(THREE, b"a"), (TWO, b"b"), (ONE, b"c")],
        put: (THREE, b"d"),
        calls: 2 + 1 + 3,
    },
    Row {
        name: "in the place of a record of level 1",
        before: &[(ONE, b"a")],
        put: (ONE, b"a"),
        calls: 2 + 1 + 1,
    },
    Row {
        name: "in the place of a record of level 3 behind three heads",
        before: &[(THREE, b"a"), (TWO, b"b"), (ONE, b"c"), (THREE, b"d")],
        put: (ONE, b"d"),
        calls: 2 + 1 + 3,
    },
];

fn put_keys(file: &mut OpenFile, puts: &[Put]) -> Result<(), TxnFault> {
    file.begin()?;
    for (word, key) in puts {
        file.store(*word, key, b"")?;
    }
    Ok(())
}

// The file with these keys.
fn file_with(alloc: Global, puts: &[Put]) -> Result<Vec<u8>, Fail> {
    let mut file = open_bytes(alloc, &EMPTY, SMALL_ROOM, &[])?;
    let Ok(()) = put_keys(&mut file, puts) else {
        return Err("a store failed".into());
    };
    let Ok(()) = file.commit() else {
        return Err("the commit failed".into());
    };
    Ok(file.bytes().to_vec(alloc)?)
}

// The last of the calls fails where it has this number, and none where that is one more.
fn assert_row(rt: &impl Abort, alloc: Global, row: &Row) -> Result<(), Fail> {
    let start = file_with(alloc, row.before)?;
    for (more, ended) in [(0, Err(TxnFault::DiskFault)), (1, Ok(()))] {
        let call = row.calls.saturating_add(more);
        let mut file = open_bytes(alloc, &start, SMALL_ROOM, &[call])?;
        let put = put_keys(&mut file, &[row.put]);
        assert_eq!(rt; put, ended, "{}", row.name);
    }
    Ok(())
}

const KEYS: u32 = 20_000;

// Each key once, in shuffled order, with random levels, in one transaction.
fn put_shuffled(file: &mut OpenFile) -> Result<(), TxnFault> {
    let mut rng = Pcg32::new(42, 54);
    let mut key = 0u32;
    file.begin()?;
    for _ in 0..KEYS {
        key = key.wrapping_add(7_919) % KEYS;
        file.store(rng.next_word(), &key.to_be_bytes(), b"value")?;
    }
    Ok(())
}

// On average a store of a new key calls the disk at most 2.6 times, and more than twice.
fn assert_average(rt: &impl Abort, alloc: Global) -> Result<(), Fail> {
    for (tenths, ended) in [(26, Ok(())), (20, Err(TxnFault::DiskFault))] {
        let call = u64::from(KEYS / 10)
            .saturating_mul(tenths)
            .saturating_add(3);
        let mut file = open_bytes(alloc, &EMPTY, ROOM, &[call])?;
        let put = put_shuffled(&mut file);
        assert_eq!(rt; put, ended, "{tenths} tenths");
    }
    Ok(())
}

#[test]
fn stores_write_few_heads(rt: HostRuntime) -> Result<(), Fail> {
    for row in &ROWS {
        assert_row(&rt, rt.alloc(), row)?;
    }
    assert_average(&rt, rt.alloc())
}
