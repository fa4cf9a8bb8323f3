// Messages are scanned.
use base_devices::{Failed, Name};
use mail_scan::{Scanned, scan};
use mem_spool::MemSpool;
use std::alloc::{AllocError, Global};
use std::process::Abort;
use std::test::Fail;

// The facts of a message: its name, the time 7 and these bytes.
fn scanned(alloc: Global, bytes: &[u8]) -> Option<Scanned> {
    let mut spool = MemSpool::new(alloc).ok()?;
    if spool.has("1.") {
        return None;
    }
    spool.add("1.", 7, bytes).ok()?;
    scan(&mut spool, &Name::of("1.")?).ok()?
}

// The size of the header, the lines behind it, and the date in seconds since 1970.
fn shown_facts(alloc: Global, found: &Scanned) -> Result<String, AllocError> {
    let header_size = found.header_size;
    let lines = found.lines;
    match found.date {
        Some(date) => format!(in alloc; "{header_size} {lines} {date}"),
        None => format!(in alloc; "{header_size} {lines} none"),
    }
}

// Each row is `NAME => FACTS => MESSAGE`, with the facts by `shown_facts`. A byte 0 parts two rows.
const MESSAGES: &str = "\
a message => 53 1 1704067200 => Date: Mon, 1 Jan 2024 01:00:00 +0100\r\nSubject: Hi\r\n\r\nHello\r\n\0\
one byte => 1 0 none => a\0\
an empty line first => 1 1 none => \nbody\n\0\
an empty line first, with CR => 2 0 none => \r\nbody\0\
a CR alone is no empty line => 7 0 none => \rx\n\r\r\n\n.\0\
a header without an end => 10 0 none => A: b\nC: d\n\0\
lines end with LF => 31 1 1704067200 => Date: 1 Jan 2024 00:00:00 GMT\n\nx\ny\0\
a folded date => 45 0 1704067200 => X: y\nDate:\r\n 1 Jan 2024\n\t00:00:00 GMT\r\nZ: 1\n\n\0\
other letters => 30 0 1704067200 => dAtE:1 Jan 2024 00:00:00 GMT\n\n\0\
a date in the last line without LF => 34 0 1704067200 => A: b\nDate: 1 Jan 2024 00:00:00 GMT\0\
a CR at the file's end stays => 30 0 none => Date: 1 Jan 2024 00:00:00 GMT\r\0\
a date behind the header => 6 1 none => A: b\n\nDate: 1 Jan 2024 00:00:00 GMT\n\0\
the first date alone => 43 0 none => Date: never\nDate: 1 Jan 2024 00:00:00 GMT\n\n\0\
no field of that name => 64 0 none => Dates: 1 Jan 2024 00:00:00 GMT\nX-Date: 1 Jan 2024 00:00:00 GMT\n\n\0\
a name cut by a line's end => 35 0 1704067200 => Dat\nDate: 1 Jan 2024 00:00:00 GMT\n\n\0\
a value of 128 bytes => 135 0 1704067200 => Date:                                                                                                         1 Jan 2024 00:00:00 GMT\n\n\0\
a value of 129 bytes => 136 0 none => Date:                                                                                                          1 Jan 2024 00:00:00 GMT\n\n";

#[test]
fn facts_of_messages(rt: HostRuntime) -> Result<(), Fail> {
    for row in MESSAGES.split('\0') {
        let Some((name, rest)) = row.split_once(" => ") else {
            return Err("a row without a name".into());
        };
        let Some((facts, message)) = rest.split_once(" => ") else {
            return Err("a row without facts".into());
        };
        let found = scanned(rt.alloc(), message.as_bytes()).ok_or("no facts")?;
        let shown = shown_facts(rt.alloc(), &found)?;
        assert_eq!(rt; shown.as_str(), facts, "{name}");
        assert_eq!(rt;
            (found.size as usize, found.time),
            (message.len(), 7),
            "{name}"
        );
    }
    Ok(())
}

// Each row is `SIZE => DIGEST`: how many letters `a`, and their SHA-1 as Python's hashlib gives it.
const SIZES: &str = "\
1 => 86f7e437faa5a7fce15d1ddcb9eaeaea377667b8
4095 => 10236568a284fb3733bd87c15280af95bd528839
4096 => 8c51fb6a0b587ec95ca74acfa43df7539b486297
4097 => 32344e25e91c0b07d5216de49628ee243813c0ed
8193 => 3f5034a3c8446bc1f2f20ea05b5442c20b770161
";

fn shown_digest(alloc: Global, digest: &[u8; 20]) -> Result<String, AllocError> {
    let mut shown = String::new(alloc);
    for byte in digest {
        let byte = format!(in alloc; "{byte:02x}")?;
        shown.push_str(byte.as_str())?;
    }
    Ok(shown)
}

#[test]
fn sizes_about_a_piece(rt: HostRuntime) -> Result<(), Fail> {
    for row in SIZES.lines() {
        let Some((size, digest)) = row.split_once(" => ") else {
            return Err("a row without a digest".into());
        };
        let size: u16 = size.parse().ok().ok_or("no size")?;
        let bytes = vec![in rt.alloc(); b'a'; size as usize]?;
        let found = scanned(rt.alloc(), &bytes).ok_or("no facts")?;
        let shown = shown_digest(rt.alloc(), &found.digest)?;
        assert_eq!(rt; shown.as_str(), digest, "of {size}");
        assert_eq!(rt;
            (found.size, found.header_size, found.lines),
            (size as u32, size as u32, 0)
        );
    }
    Ok(())
}

// The vectors of FIPS 180, and a text that is hashed everywhere. Each row is `TEXT => DIGEST`.
const VECTORS: &str = "\
abc => a9993e364706816aba3e25717850c26c9cd0d89d
abcdbcdecdefdefgefghfghighijhijkijkljklmklmnlmnomnopnopq => 84983e441c3bd26ebaae4aa1f95129e5e54670f1
abcdefghbcdefghicdefghijdefghijkefghijklfghijklmghijklmnhijklmnoijklmnopjklmnopqklmnopqrlmnopqrsmnopqrstnopqrstu => a49b2446a02c645bf419f995b67091253a04a259
The quick brown fox jumps over the lazy dog => 2fd4e1c67a2d28fced849ee1bb76e7391b93eb12
";

#[test]
fn digests_of_vectors(rt: HostRuntime) -> Result<(), Fail> {
    for row in VECTORS.lines() {
        let Some((text, digest)) = row.split_once(" => ") else {
            return Err("a row without a digest".into());
        };
        let found = scanned(rt.alloc(), text.as_bytes()).ok_or("no facts")?;
        let shown = shown_digest(rt.alloc(), &found.digest)?;
        assert_eq!(rt; shown.as_str(), digest, "{text}");
    }
    Ok(())
}

// Each row is `NAME => LETTERS => FACTS => TEXT`: behind so many letters `a` stands the text, so that the end of the
// first piece cuts it where the name says. A byte 0 parts two rows.
const CUT: &str = "\
between CR and LF of an empty line => 4094 => 4097 2 none => \n\r\nx\ny\n\0\
before an empty line of LF => 4095 => 4097 1 none => \n\nx\n\0\
before an empty line of CR LF => 4095 => 4098 1 none => \n\r\nx\n\0\
behind the header, LF => 4094 => 4096 1 none => \n\nx\n\0\
behind the header, CR LF => 4093 => 4096 1 none => \n\r\nx\n\0\
in the name of the field => 4092 => 4124 1 1704067200 => \nDate: 1 Jan 2024 00:00:00 GMT\n\nx\n\0\
in its value => 4086 => 4118 1 1704067200 => \nDate: 1 Jan 2024 00:00:00 GMT\n\nx\n\0\
between CR and LF of its line => 4065 => 4099 1 1704067200 => \nDate: 1 Jan 2024 00:00:00 GMT\r\n\r\nx\n\0\
behind its line => 4064 => 4098 1 1704067200 => \nDate: 1 Jan 2024 00:00:00 GMT\r\n\r\nx\n";

// The facts of a row of `CUT` from LETTERS on, as wanted and as found.
fn assert_cut(rt: &(impl Abort + AllocGlobal), name: &str, rest: &str) -> Result<(), Fail> {
    let Some((letters, rest)) = rest.split_once(" => ") else {
        return Err("a row without letters".into());
    };
    let Some((facts, text)) = rest.split_once(" => ") else {
        return Err("a row without facts".into());
    };
    let letters: u16 = letters.parse().ok().ok_or("no number")?;
    let mut bytes = vec![in rt.alloc(); b'a'; letters as usize]?;
    bytes.extend_from_slice(text.as_bytes())?;
    let found = scanned(rt.alloc(), &bytes).ok_or("no facts")?;
    let shown = shown_facts(rt.alloc(), &found)?;
    assert_eq!(rt; shown.as_str(), facts, "{name}");
    Ok(())
}

#[test]
fn lines_cut_by_a_piece(rt: HostRuntime) -> Result<(), Fail> {
    for row in CUT.split('\0') {
        let Some((name, rest)) = row.split_once(" => ") else {
            return Err("a row without a name".into());
        };
        assert_cut(&rt, name, rest)?;
    }
    Ok(())
}

#[test]
fn no_byte_is_no_message(rt: HostRuntime) {
    assert_eq!(rt; scanned(rt.alloc(), b""), None);
}

// A message of 8193 bytes, two pieces and a byte, of which this call is to fail.
fn failing_message(alloc: Global, call: u64) -> Result<MemSpool, Fail> {
    let bytes = vec![in alloc; b'a'; 8193]?;
    let mut spool = MemSpool::new(alloc).ok().ok_or("no memory")?;
    if spool.has("1.") {
        return Err("no new folder".into());
    }
    spool.add("1.", 7, &bytes).ok().ok_or("no memory")?;
    spool.fail_at(call).ok().ok_or("no memory")?;
    Ok(spool)
}

// The time, three pieces and the end are asked, in this order.
#[test]
fn a_failing_call_ends_the_scan(rt: HostRuntime) -> Result<(), Fail> {
    let name = Name::of("1.").ok_or("short")?;
    for call in 1..6 {
        let mut spool = failing_message(rt.alloc(), call)?;
        assert_eq!(rt; scan(&mut spool, &name).err(), Some(Failed), "call {call}");
    }
    let mut spool = failing_message(rt.alloc(), 6)?;
    assert!(rt; scan(&mut spool, &name).is_ok());
    Ok(())
}
