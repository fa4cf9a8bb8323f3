// Conversions: the new file, what is said, and that the old file stays.
use super::files::{CIRCLE, DELETED, EMPTY, ONE_PAIR, TORN};
use super::runs::{host_of, words_of};
use cyr_top::run;
use mem_devices::{MemDisk, MemHost};
use mem_source::MemSource;
use mem_spool::MemSpool;
use rand_pcg::Pcg32;
use std::alloc::Global;
use std::process::Abort;
use std::test::Fail;

// More than a conversion here writes.
const ROOM: u64 = 200_000;

// The words behind the tool's name, both files before, which of their calls fail, and what must come of it.
#[derive(Clone, Copy)]
struct Row<'a> {
    name: &'a str,
    line: &'a str,
    old: Option<&'a [u8]>,
    new: Option<&'a [u8]>,
    fails: &'a [u64],
    new_fails: &'a [u64],
    status: u8,
    warned: &'a str,
    old_after: Option<&'a [u8]>,
    new_after: Option<&'a [u8]>,
}

// A conversion that ends with success, and leaves the old file as it was.
fn done<'a>(name: &'a str, line: &'a str, old: &'a [u8], new_after: &'a [u8]) -> Row<'a> {
    Row {
        name,
        line,
        old: Some(old),
        new: None,
        fails: &[],
        new_fails: &[],
        status: 0,
        warned: "",
        old_after: Some(old),
        new_after: Some(new_after),
    }
}

// One that is refused, and leaves both files as they were.
fn refused<'a>(
    name: &'a str,
    line: &'a str,
    files: [Option<&'a [u8]>; 2],
    status: u8,
    warned: &'a str,
) -> Row<'a> {
    let [old, new] = files;
    Row {
        name,
        line,
        old,
        new,
        fails: &[],
        new_fails: &[],
        status,
        warned,
        old_after: old,
        new_after: new,
    }
}

// The hosts after a conversion, and its status. The first words of this generator give the levels 4, 2 and 1.
fn convert(alloc: Global, row: &Row<'_>) -> Result<(MemHost, MemDisk, u8), Fail> {
    let text = format!(in alloc; "cvt_cyrusdb {}", row.line)?;
    let words = words_of(alloc, text.as_str())?;
    let mut host = host_of(alloc, row.old, ROOM, row.fails, &[])?;
    if row.new.is_some_and(|bytes| bytes.len() as u64 > ROOM) {
        return Err("the file is too long for the test".into());
    }
    let mut second = MemDisk::new(alloc, row.new, ROOM, row.new_fails)?;
    let mut spool = MemSpool::new(alloc)?;
    let mut input = MemSource::new(alloc, b"", 1, &[])?;
    let mut rng = Pcg32::new(42, 54);
    let status = run(
        alloc,
        &words,
        &mut host,
        &mut second,
        &mut spool,
        &mut input,
        0,
        &mut rng,
    )
    .status;
    Ok((host, second, status))
}

fn assert_row(rt: &impl Abort, alloc: Global, row: &Row<'_>) -> Result<(), Fail> {
    let (host, second, status) = convert(alloc, row)?;
    assert_eq!(rt; status, row.status, "{}", row.name);
    assert_eq!(rt; host.warned(), row.warned.as_bytes(), "{}", row.name);
    assert_eq!(rt; host.told(), b"".as_slice(), "{}", row.name);
    assert_eq!(rt; host.disk().main(), row.old_after, "{}", row.name);
    assert_eq!(rt; second.main(), row.new_after, "{}", row.name);
    Ok(())
}

const TO_FLAT: &str = "o twoskip n flat";

const FLAT_TO_FLAT: &str = "o flat n flat";

const TO_TWOSKIP: &str = "o flat n twoskip";

fn rows<'a>() -> [Row<'a>; 14] {
    let text = Some(b"a\tb\n".as_slice());
    let fault = "device fault: host\n";
    let second_fault = "device fault: second\n";
    [
        done("one pair", TO_FLAT, &ONE_PAIR, b"a\tb\n"),
        done("a deleted pair", TO_FLAT, &DELETED, b""),
        done("no pair", TO_FLAT, &EMPTY, b""),
        done("no line", TO_TWOSKIP, b"", &EMPTY),
        done(
            "lines in no order",
            FLAT_TO_FLAT,
            b"b\t1\na\t0\na\t2",
            b"a\t2\nb\t1\n",
        ),
        Row {
            old_after: Some(&ONE_PAIR),
            ..done("a transaction that was stopped", TO_FLAT, &TORN, b"a\tb\n")
        },
        refused(
            "a new file that is there",
            TO_FLAT,
            [Some(&ONE_PAIR), text],
            73,
            "exists\n",
        ),
        refused(
            "no old file, and a new one",
            TO_FLAT,
            [None, text],
            73,
            "exists\n",
        ),
        refused("no old file", TO_FLAT, [None, None], 66, "absent\n"),
        refused(
            "links in a circle",
            TO_FLAT,
            [Some(&CIRCLE), None],
            76,
            "damaged: Order at 336\n",
        ),
        refused(
            "a line without a tab",
            TO_TWOSKIP,
            [Some(b"abc\n"), None],
            76,
            "damaged: NoTab at 0\n",
        ),
        Row {
            fails: &[1],
            ..refused("the old file fails", TO_TWOSKIP, [text, None], 74, fault)
        },
        Row {
            new_fails: &[1],
            ..refused(
                "the new file fails",
                TO_TWOSKIP,
                [text, None],
                74,
                second_fault,
            )
        },
        Row {
            new_fails: &[2],
            ..refused(
                "it cannot be begun",
                TO_TWOSKIP,
                [text, None],
                74,
                second_fault,
            )
        },
    ]
}

#[test]
fn conversions_by_row(rt: HostRuntime) -> Result<(), Fail> {
    for row in &rows() {
        assert_row(&rt, rt.alloc(), row)?;
    }
    Ok(())
}

// A key of so many letters, and no value.
fn long_key(alloc: Global, letters: usize) -> Result<Vec<u8>, Fail> {
    let mut text = Vec::new(alloc);
    text.resize(letters, b'k')?;
    text.extend_from_slice(b"\t\n")?;
    Ok(text)
}

#[test]
fn too_long_key_is_not_converted(rt: HostRuntime) -> Result<(), Fail> {
    let text = long_key(rt.alloc(), 65_535)?;
    let row = refused(
        "a key",
        TO_TWOSKIP,
        [Some(&text), None],
        70,
        "limit key: 65535\n",
    );
    assert_row(&rt, rt.alloc(), &row)
}

// The canonical text of the keys `k0000` to `k0999`, each with itself as its value.
fn thousand_lines(alloc: Global) -> Result<Vec<u8>, Fail> {
    let mut text = Vec::new(alloc);
    for n in 0..1_000u16 {
        for end in [b'\t', b'\n'] {
            text.extend_from_slice(b"k0")?;
            for digit in [n / 100 % 10, n / 10 % 10, n % 10] {
                text.push(b'0' + digit as u8)?;
            }
            text.push(end)?;
        }
    }
    Ok(text)
}

#[test]
fn there_and_back_is_the_same_text(rt: HostRuntime) -> Result<(), Fail> {
    let text = thousand_lines(rt.alloc())?;
    let there = done("there", TO_TWOSKIP, &text, b"");
    let (_, skip, status) = convert(rt.alloc(), &there)?;
    assert_eq!(rt; status, 0);
    let back = done("back", TO_FLAT, skip.main().unwrap_or(b""), &text);
    assert_row(&rt, rt.alloc(), &back)
}

// Each call of the new file fails in turn, until none does: it is whole, or not there, and the old one stands.
#[test]
fn each_call_of_the_new_file_fails(rt: HostRuntime) -> Result<(), Fail> {
    let text = thousand_lines(rt.alloc())?;
    let whole = done("whole", TO_TWOSKIP, &text, b"");
    let (_, skip, _) = convert(rt.alloc(), &whole)?;
    for call in 1..20u64 {
        let (host, second, status) = convert(
            rt.alloc(),
            &Row {
                new_fails: &[call],
                ..whole
            },
        )?;
        assert_eq!(rt; host.disk().main(), Some(text.as_slice()), "call {call}");
        if status == 0 {
            assert!(rt; second.main() == skip.main(), "call {call}");
            assert!(rt; call > 4, "call {call}");
            return Ok(());
        }
        assert_eq!(rt; status, 74, "call {call}");
        assert!(rt;
            second.main().is_none() || second.main() == skip.main(),
            "call {call}"
        );
    }
    Err("no conversion was whole".into())
}

// A conversion of which a call of the old file fails: whether it was whole for all that. Else there is no new file, and
// the old one still has its pair.
fn is_whole(rt: &impl Abort, alloc: Global, old: &[u8], call: u64) -> Result<bool, Fail> {
    let row = Row {
        fails: &[call],
        ..done("a call fails", TO_FLAT, old, b"")
    };
    let (host, second, status) = convert(alloc, &row)?;
    if status == 0 {
        return Ok(true);
    }
    assert_eq!(rt; (status, second.main()), (74, None), "call {call}");
    let left = host.disk().main().unwrap_or(b"");
    let (_, flat, _) = convert(alloc, &done("again", TO_FLAT, left, b""))?;
    assert_eq!(rt; flat.main(), Some(b"a\tb\n".as_slice()), "call {call}");
    Ok(false)
}

// Each call of the old file fails in turn, until none does.
fn calls_until_whole(rt: &impl Abort, alloc: Global, old: &[u8]) -> Result<u64, Fail> {
    for call in 1..40u64 {
        if is_whole(rt, alloc, old, call)? {
            return Ok(call);
        }
    }
    Err("no conversion was whole".into())
}

#[test]
fn each_call_of_the_old_file_fails(rt: HostRuntime) -> Result<(), Fail> {
    assert_eq!(rt; calls_until_whole(&rt, rt.alloc(), &ONE_PAIR)?, 4);
    assert!(rt; calls_until_whole(&rt, rt.alloc(), &TORN)? > 6);
    Ok(())
}
