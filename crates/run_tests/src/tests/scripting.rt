// Scripts through the run, on both kinds: the replies, the note, and what the file then holds.
use super::files::{EMPTY, ONE_PAIR};
use super::runs::{ROOM, host_of, status_of, status_with, words_of};
use mem_devices::MemHost;
use mem_source::MemSource;
use std::alloc::Global;
use std::process::Abort;
use std::test::Fail;

// A script over a file of each kind with the same pairs, and what must come of it.
struct Row {
    name: &'static str,
    flat: &'static [u8],
    twoskip: &'static [u8],
    script: &'static [u8],
    status: u8,
    told: &'static [u8],
    warned: &'static str,
    shown: &'static [u8],
}

const ROWS: [Row; 6] = [
    Row {
        name: "one transaction of two puts",
        flat: b"a\tb\n",
        twoskip: &ONE_PAIR,
        script: b"BEGIN\nSET\ta\tx\nSET\ta\ty\nGET\ta\nCOMMIT\n",
        status: 0,
        told: b"BEGUN\nOK\nOK\nVALUE\ty\nCOMMITTED\n",
        warned: "",
        shown: b"a\ty\n",
    },
    Row {
        name: "one that is given up",
        flat: b"a\tb\n",
        twoskip: &ONE_PAIR,
        script: b"BEGIN\nSET\tc\t1\nABORT\nSHOW\n",
        status: 0,
        told: b"BEGUN\nOK\nABORTED\nPAIR\ta\tb\nEND\n",
        warned: "",
        shown: b"a\tb\n",
    },
    Row {
        name: "a wrong line behind a transaction",
        flat: b"a\tb\n",
        twoskip: &ONE_PAIR,
        script: b"SET\tb\t2\nCOMMIT\nSET\tc\t3\n",
        status: 65,
        told: b"COMMITTED\n",
        warned: "line 2: wrong\n",
        shown: b"a\tb\nb\t2\n",
    },
    Row {
        name: "an end in a transaction",
        flat: b"a\tb\n",
        twoskip: &ONE_PAIR,
        script: b"BEGIN\nSET\tb\t2\n",
        status: 65,
        told: b"BEGUN\nOK\n",
        warned: "line 3: wrong\n",
        shown: b"a\tb\n",
    },
    Row {
        name: "an empty key",
        flat: b"",
        twoskip: &EMPTY,
        script: b"SET\t\tv\n",
        status: 65,
        told: b"",
        warned: "line 1: wrong\n",
        shown: b"",
    },
    Row {
        name: "no line",
        flat: b"",
        twoskip: &EMPTY,
        script: b"",
        status: 0,
        told: b"",
        warned: "",
        shown: b"",
    },
];

// The host after a script on this file, whose source gives so many bytes a read, and the status.
fn host_after(
    alloc: Global,
    backend: &str,
    file: &[u8],
    script: &[u8],
    piece: usize,
    fails: &[u64],
) -> Result<(MemHost, u8), Fail> {
    let text = format!(in alloc; "cyr_dbtool f {backend} batch")?;
    let words = words_of(alloc, text.as_str())?;
    let mut host = host_of(alloc, Some(file), ROOM, &[], &[])?;
    let mut input = MemSource::new(alloc, script, piece.max(1), fails)?;
    let status = status_with(alloc, &mut host, &words, 1, &mut input)?;
    Ok((host, status))
}

// What `show` prints of the file that a run left.
fn assert_shown(
    rt: &impl Abort,
    alloc: Global,
    backend: &str,
    left: &MemHost,
    row: &Row,
) -> Result<(), Fail> {
    let text = format!(in alloc; "cyr_dbtool f {backend} show")?;
    let words = words_of(alloc, text.as_str())?;
    let mut host = host_of(alloc, left.disk().main(), ROOM, &[], &[])?;
    let status = status_of(alloc, &mut host, &words, 1)?;
    assert_eq!(rt; status, 0, "{backend}, {}", row.name);
    assert_eq!(rt; host.told(), row.shown, "{backend}, {}", row.name);
    Ok(())
}

fn assert_row(
    rt: &impl Abort,
    alloc: Global,
    backend: &str,
    row: &Row,
    piece: usize,
) -> Result<(), Fail> {
    let file = if backend == "flat" {
        row.flat
    } else {
        row.twoskip
    };
    let (host, status) = host_after(alloc, backend, file, row.script, piece, &[])?;
    assert_eq!(rt; status, row.status, "{backend}, {}", row.name);
    assert_eq!(rt; host.told(), row.told, "{backend}, {}", row.name);
    assert_eq!(rt;
        host.warned(),
        row.warned.as_bytes(),
        "{backend}, {}",
        row.name
    );
    assert_shown(rt, alloc, backend, &host, row)
}

#[test]
fn scripts_on_both_kinds(rt: HostRuntime) -> Result<(), Fail> {
    for row in &ROWS {
        for piece in [1, 4, 100] {
            assert_row(&rt, rt.alloc(), "flat", row, piece)?;
            assert_row(&rt, rt.alloc(), "twoskip", row, piece)?;
        }
    }
    Ok(())
}

const ONE_PUT: &[u8] = b"BEGIN\nSET\ta\ty\nCOMMIT\n";

// Of a script in place: a record of 40 bytes and a commit record of 24 behind 400 bytes; what is given up is cut off.
#[test]
fn a_script_in_place_appends(rt: HostRuntime) -> Result<(), Fail> {
    let (host, _) = host_after(rt.alloc(), "twoskip", &ONE_PAIR, ONE_PUT, 100, &[])?;
    assert_eq!(rt; host.disk().main().map(|file| file.len()), Some(464));
    assert_eq!(rt; host.disk().counts().publishes, 0);
    let (host, _) = host_after(rt.alloc(), "twoskip", &ONE_PAIR, ROWS[1].script, 100, &[])?;
    assert_eq!(rt; host.disk().main(), Some(ONE_PAIR.as_slice()));
    Ok(())
}

#[test]
fn failed_input_is_named(rt: HostRuntime) -> Result<(), Fail> {
    let (host, status) = host_after(rt.alloc(), "twoskip", &EMPTY, b"SET\ta\t1\nSET", 8, &[2])?;
    assert_eq!(rt; status, 74);
    assert_eq!(rt; host.warned(), b"device fault: input\n".as_slice());
    assert_eq!(rt; host.told(), b"COMMITTED\n".as_slice());
    Ok(())
}
