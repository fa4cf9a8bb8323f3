// Runs on twoskip files: what they print, and the file that they leave.
use super::files::{CIRCLE, DELETED, EMPTY, ONE_PAIR};
use super::runs::{ROOM, host_of, status_of, words_of};
use std::alloc::Global;
use std::process::Abort;
use std::test::Fail;

const FAULT: &str = "device fault: host\n";

// The words, the file before, which calls of the disk and which prints fail, and what must come of it. A record that is
// put has level 1.
#[derive(Clone, Copy)]
struct Row<'a> {
    name: &'a str,
    line: &'a str,
    before: Option<&'a [u8]>,
    fails: &'a [u64],
    tell_fails: &'a [u64],
    status: u8,
    told: &'a [u8],
    warned: &'a str,
    after: Option<&'a [u8]>,
}

// A run that ends with success.
fn done<'a>(
    name: &'a str,
    line: &'a str,
    before: Option<&'a [u8]>,
    told: &'a [u8],
    after: &'a [u8],
) -> Row<'a> {
    Row {
        name,
        line,
        before,
        fails: &[],
        tell_fails: &[],
        status: 0,
        told,
        warned: "",
        after: Some(after),
    }
}

// A run that leaves the file as it was.
fn refused<'a>(
    name: &'a str,
    line: &'a str,
    before: Option<&'a [u8]>,
    status: u8,
    told: &'a [u8],
    warned: &'a str,
) -> Row<'a> {
    Row {
        name,
        line,
        before,
        fails: &[],
        tell_fails: &[],
        status,
        told,
        warned,
        after: before,
    }
}

const SHOW: &str = "cyr_dbtool t twoskip show";

const CONSISTENT: &str = "cyr_dbtool t twoskip consistent";

const SET: &str = "cyr_dbtool t twoskip set a b";

const DELETE: &str = "cyr_dbtool t twoskip delete a";

const GET: &str = "cyr_dbtool t twoskip get a";

// An opening makes three calls; the fourth one writes the header of the first change.
fn faults<'a>() -> [Row<'a>; 2] {
    [
        Row {
            fails: &[4],
            ..refused("the first write fails", SET, Some(&EMPTY), 74, b"", FAULT)
        },
        Row {
            tell_fails: &[1],
            ..refused("the print fails", GET, Some(&ONE_PAIR), 74, b"", FAULT)
        },
    ]
}

fn rows<'a>() -> [Row<'a>; 12] {
    let order = "damaged: Order at 336\n";
    let short = "damaged: Short at 0\n";
    let told = b"not consistent: Order at 336\n";
    let make = "cyr_dbtool -n t twoskip show";
    [
        done("a file is made", make, None, b"", &EMPTY),
        refused("no file is there", SHOW, None, 66, b"", "absent\n"),
        done("a pair is put", SET, Some(&EMPTY), b"", &ONE_PAIR),
        done("it is shown", SHOW, Some(&ONE_PAIR), b"a\tb\n", &ONE_PAIR),
        done("it is got", GET, Some(&ONE_PAIR), b"b\n", &ONE_PAIR),
        done("it is deleted", DELETE, Some(&ONE_PAIR), b"", &DELETED),
        done("no pair is shown", SHOW, Some(&DELETED), b"", &DELETED),
        done(
            "an absent pair is deleted",
            DELETE,
            Some(&DELETED),
            b"",
            &DELETED,
        ),
        refused(
            "a circle is checked",
            CONSISTENT,
            Some(&CIRCLE),
            1,
            told,
            "",
        ),
        refused("a circle is shown", SHOW, Some(&CIRCLE), 76, b"", order),
        refused("no byte", SHOW, Some(b""), 76, b"", short),
        refused("63 bytes", SHOW, Some(&EMPTY[..63]), 76, b"", short),
    ]
}

// The bytes that are written where the file changes in place, and that nothing is published but a file that is made.
fn assert_row(rt: &impl Abort, alloc: Global, row: &Row<'_>) -> Result<(), Fail> {
    let words = words_of(alloc, row.line)?;
    let mut host = host_of(alloc, row.before, ROOM, row.fails, row.tell_fails)?;
    let status = status_of(alloc, &mut host, &words, 1)?;
    assert_eq!(rt; status, row.status, "{}", row.name);
    assert_eq!(rt; host.told(), row.told, "{}", row.name);
    assert_eq!(rt; host.warned(), row.warned.as_bytes(), "{}", row.name);
    let is_left = host.disk().main() == row.after;
    let publishes = host.disk().counts().publishes;
    let is_written = host.disk().counts().written > 0;
    let is_made = row.before.is_none() && row.after.is_some();
    let is_changed = !is_made && row.before != row.after;
    assert!(rt; is_left, "another file: {}", row.name);
    assert_eq!(rt; publishes, u64::from(is_made), "{}", row.name);
    assert!(rt;
        is_written == is_changed || row.status == 74,
        "{}",
        row.name
    );
    Ok(())
}

#[test]
fn runs_end_as_stated(rt: HostRuntime) -> Result<(), Fail> {
    for row in &rows() {
        assert_row(&rt, rt.alloc(), row)?;
    }
    for row in &faults() {
        assert_row(&rt, rt.alloc(), row)?;
    }
    let mut other = EMPTY;
    other[23] = 2;
    let version = "damaged: Version at 20\n";
    let row = refused("another version", SHOW, Some(&other), 76, b"", version);
    assert_row(&rt, rt.alloc(), &row)
}
