// Whole runs that rebuild the index of a folder, by their words.
use super::indexes::{DAMAGED, THREE_RECORDS, TWO_FRESH, TWO_KEPT_AND_FRESH};
use super::model::File;
use super::rows::{FIVE, NOW, TWO, folder, host};
use cyr_top::run;
use mem_devices::MemDisk;
use mem_source::MemSource;
use rand_pcg::Pcg32;
use std::alloc::{AllocError, Global};
use std::process::Abort;
use std::test::Fail;

#[derive(Clone, Copy)]
struct Row {
    words: &'static str,
    files: &'static [File<'static>],
    main: Option<&'static [u8]>,
    // The calls that fail: of the spool, of the disk, and to print.
    failing: [&'static [u64]; 3],
    status: u8,
    warned: &'static str,
    told: &'static str,
    left: Option<&'static [u8]>,
}

const FULL_REPORT: &str =
    "uid 2 unmatched\nuid 5 dropped\nodd 01.\nodd 3.\nodd notes\nkept 1 fresh 1 dropped 1\n";

const DAMAGE_REPORT: &str =
    "index damaged: Check\nuid 1 new\nuid 4294967295 new\nkept 0 fresh 2 dropped 0\n";

// A row over five files, none of whose calls fails.
fn five(words: &'static str, told: &'static str, left: &'static [u8]) -> Row {
    Row {
        words,
        files: FIVE,
        main: Some(THREE_RECORDS),
        failing: [&[], &[], &[]],
        status: 0,
        warned: "",
        told,
        left: Some(left),
    }
}

// A row over two files beside a damaged index, of whose calls these fail.
fn two(
    failing: [&'static [u64]; 3],
    status: u8,
    warned: &'static str,
    told: &'static str,
    left: &'static [u8],
) -> Row {
    Row {
        words: "reconstruct box",
        files: TWO,
        main: Some(DAMAGED),
        failing,
        status,
        warned,
        told,
        left: Some(left),
    }
}

fn rows() -> [Row; 10] {
    [
        five("reconstruct box", FULL_REPORT, TWO_KEPT_AND_FRESH),
        five("reconstruct -G box", FULL_REPORT, TWO_KEPT_AND_FRESH),
        five(
            "reconstruct -q -n box",
            "kept 1 fresh 1 dropped 1\n",
            THREE_RECORDS,
        ),
        five("reconstruct box -n", FULL_REPORT, THREE_RECORDS),
        five(
            "reconstruct -oq -- box",
            "kept 1 fresh 1 dropped 1\n",
            TWO_KEPT_AND_FRESH,
        ),
        two([&[8], &[], &[]], 74, "device fault: spool\n", "", DAMAGED),
        two([&[], &[1], &[]], 74, "device fault: host\n", "", DAMAGED),
        two([&[], &[], &[1]], 74, "device fault: host\n", "", DAMAGED),
        two(
            [&[], &[4], &[]],
            74,
            "device fault: host\n",
            DAMAGE_REPORT,
            DAMAGED,
        ),
        two([&[], &[], &[]], 0, "", DAMAGE_REPORT, TWO_FRESH),
    ]
}

// The words of a line, parted by single spaces.
pub(crate) fn words_of(alloc: Global, line: &str) -> Result<Vec<String>, AllocError> {
    let mut words = Vec::new(alloc);
    for word in line.split(' ') {
        words.push(String::from_str(alloc, word)?)?;
    }
    Ok(words)
}

fn assert_row(rt: &impl Abort, alloc: Global, row: &Row) -> Result<(), Fail> {
    let mut spool = folder(alloc, row.files, row.failing[0])?;
    let mut host = host(alloc, row.main, row.failing[1], row.failing[2])?;
    let words = words_of(alloc, row.words)?;
    let mut rng = Pcg32::new(42, 54);
    let mut second = MemDisk::new(alloc, None, 0, &[])?;
    let mut input = MemSource::new(alloc, b"", 1, &[])?;
    let outcome = run(
        alloc,
        &words,
        &mut host,
        &mut second,
        &mut spool,
        &mut input,
        NOW,
        &mut rng,
    );
    assert_eq!(rt; outcome.status, row.status, "{}", row.words);
    assert_eq!(rt; host.warned(), row.warned.as_bytes(), "{}", row.words);
    assert_eq!(rt; host.told(), row.told.as_bytes(), "{}", row.words);
    assert_eq!(rt; host.disk().main(), row.left, "{}", row.words);
    Ok(())
}

#[test]
fn indexes_are_rebuilt(rt: HostRuntime) -> Result<(), Fail> {
    for row in rows() {
        assert_row(&rt, rt.alloc(), &row)?;
    }
    Ok(())
}
