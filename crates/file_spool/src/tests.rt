// A folder that the test makes, and removes at its end.
use crate::FileSpool;
use base_bytes::Text;
use base_devices::{Failed, Name, Spool};
use std::alloc::{AllocError, Global};
use std::fs;
use std::os::unix::fs::symlink;
use std::process::Abort;
use std::test::Fail;

const FILES: [(&str, &str); 3] = [
    ("spool/1.", "abc"),
    ("spool/notes", ""),
    ("spool/cyrus.index", "x"),
];

// How many names a spool gives, up to its end. None where one is none of these, or there is no end.
fn count_names<S: Spool>(spool: &mut S) -> Result<Option<usize>, Failed> {
    for count in 0..100 {
        let Some(name) = spool.next_name()? else {
            return Ok(Some(count));
        };
        if !["1.", "notes", "cyrus.index"].contains(&name.as_str()) {
            return Ok(None);
        }
    }
    Ok(None)
}

fn assert_reads<S: Spool>(rt: &impl Abort, spool: &mut S, name: &Name) {
    let mut piece = [0u8; 4];
    assert_eq!(rt; spool.read(name, 0, &mut piece), Ok(3));
    assert_eq!(rt; piece, *b"abc\0");
    assert_eq!(rt; spool.read(name, 2, &mut piece), Ok(1));
    assert_eq!(rt; spool.read(name, 3, &mut piece), Ok(0), "at the end");
    assert_eq!(rt; spool.read(name, 9, &mut piece), Ok(0), "past the end");
}

#[test]
fn spool_gives_regular_files(rt: HostRuntime) -> Result<(), Fail> {
    let _ = fs::remove_dir_all(&rt, "spool");
    fs::create_dir(&rt, "spool")?;
    for (path, text) in FILES {
        fs::write(&rt, path, text)?;
    }
    fs::create_dir(&rt, "spool/5.")?;
    symlink(&rt, "1.", "spool/2.")?;
    let mut spool = FileSpool::new(rt, Text::of(rt.alloc(), "spool").ok().ok_or("no memory")?);
    assert_eq!(rt; count_names(&mut spool), Ok(Some(3)));
    let name = Name::of("1.").ok_or("short")?;
    assert_reads(&rt, &mut spool, &name);
    let is_late = spool.time(&name).is_ok_and(|time| time > 1_600_000_000);
    assert!(rt; is_late);
    let absent = Name::of("7.").ok_or("short")?;
    assert_eq!(rt; spool.time(&absent), Err(Failed));
    fs::remove_dir_all(&rt, "spool")?;
    Ok(())
}

// Each row: an offset, and what a read of 8 bytes there gives at least of the file `0000` to `4999`.
const READS: [(u64, &str); 8] = [
    (0, "00000001"),
    (16_380, "4095"),
    (16_384, "4096"),
    (16_388, "4097"),
    (19_992, "49984999"),
    (19_998, "99"),
    (20_000, ""),
    (4, "00010002"),
];

// A read there gives these bytes, maybe more, and none where none are wanted.
fn assert_begins<S: Spool>(rt: &impl Abort, spool: &mut S, name: &Name, at: u64, wanted: &str) {
    let mut piece = [0u8; 8];
    let count = spool.read(name, at, &mut piece);
    assert!(rt; count.is_ok(), "at {at}");
    let count = count.unwrap_or(0);
    assert_eq!(rt; count == 0, wanted.is_empty(), "at {at}");
    assert_eq!(rt;
        piece.get(..wanted.len().min(count)),
        Some(wanted.as_bytes()),
        "at {at}"
    );
}

fn numbers(alloc: Global) -> Result<String, AllocError> {
    let mut text = String::new(alloc);
    for number in 0..5000 {
        let number = format!(in alloc; "{number:04}")?;
        text.push_str(number.as_str())?;
    }
    Ok(text)
}

// Bytes are read ahead, and those of one file are never given for another's.
#[test]
fn reads_in_any_order(rt: HostRuntime) -> Result<(), Fail> {
    let _ = fs::remove_dir_all(&rt, "ahead");
    fs::create_dir(&rt, "ahead")?;
    fs::write(&rt, "ahead/1.", numbers(rt.alloc())?.as_str())?;
    fs::write(&rt, "ahead/2.", "abc")?;
    let mut spool = FileSpool::new(rt, Text::of(rt.alloc(), "ahead").ok().ok_or("no memory")?);
    let name = Name::of("1.").ok_or("short")?;
    let other = Name::of("2.").ok_or("short")?;
    for (at, wanted) in READS {
        assert_begins(&rt, &mut spool, &name, at, wanted);
        assert_reads(&rt, &mut spool, &other);
        assert_begins(&rt, &mut spool, &name, at, wanted);
    }
    fs::remove_dir_all(&rt, "ahead")?;
    Ok(())
}
