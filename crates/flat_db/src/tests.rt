// Texts and the maps that they say.
use crate::looking::value_in;
use crate::{FlatFault, FlatMap, read_flat};
use base_bytes::{FLAT_LIMIT, Flaw};
use db_core::pair_fault;
use std::alloc::Global;
use std::process::Abort;
use std::test::Fail;

fn expect_flaw(rt: &impl Abort, read: Result<FlatMap, FlatFault>, at: u64, check: Flaw) {
    match read {
        Ok(_) => assert!(rt; false),
        Err(fault) => assert_eq!(rt; fault, FlatFault::Damaged { at, check }),
    }
}

const ANY_ORDER: [u8; 27] = [
    0xff, 0x80, 0xff, 0xff, 9, b'z', 10, b'a', 0xff, 0x89, 9, b'1', 10, b'b', 9, b'x', 10, b'a', 9,
    b'0', 10, b'b', 9, b'y', 0, 13, 9,
];

#[test]
fn later_lines_win(rt: HostRuntime) -> Result<(), Fail> {
    let map = read_flat(rt.alloc(), &ANY_ORDER)?;
    assert_eq!(rt; map.count(), 4);
    assert!(rt; map.fetch(b"b") == Some([b'y', 0, 13, 9].as_slice()));
    assert!(rt; map.fetch(b"a") == Some(b"0".as_slice()));
    assert!(rt; map.fetch(b"a\t") == Some(b"1".as_slice()));
    assert!(rt; map.fetch(&[0, 0xff]) == Some(b"z".as_slice()));
    assert!(rt; map.fetch(b"c") == None);
    assert!(rt; map.fetch(b"") == None);
    let FlatMap { bytes, pairs } = map;
    assert_eq!(rt; pairs.size, 7 + 4 + 6 + 10);
    assert_eq!(rt; pairs.size_with(&bytes, b"c", b"3"), 31);
    assert_eq!(rt; pairs.size_with(&bytes, b"b", b""), 20);
    Ok(())
}

// A text with at most one line that is not as the tools write it, and what it says: the value of one key, how many
// pairs, and the size of the canonical text.
struct Case {
    name: &'static str,
    text: &'static [u8],
    key: &'static [u8],
    value: &'static [u8],
    count: u64,
    size: u64,
}

const CASES: &[Case] = &[
    Case {
        name: "plain lines",
        text: b"a\t9\nb\t1\nc\t1\nd\t1\n",
        key: b"a",
        value: b"9",
        count: 4,
        size: 16,
    },
    Case {
        name: "an escaped line, first",
        text: b"a\xff\x89\t\xff\xff\nb\t1\nc\t1\nd\t1\n",
        key: b"a\t",
        value: b"\xff",
        count: 4,
        size: 19,
    },
    Case {
        name: "an escaped line, in the middle",
        text: b"a\t1\nb\t1\nc\xff\x8a\t2\xff\x80\nd\t1\n",
        key: b"c\n",
        value: b"2\0",
        count: 4,
        size: 20,
    },
    Case {
        name: "an escaped line, last",
        text: b"a\t1\nb\t1\nc\t1\nd\t\xff\x8d",
        key: b"d",
        value: b"\r",
        count: 4,
        size: 17,
    },
    Case {
        name: "a value with a TAB as it is, first",
        text: b"a\t\t\nb\t1\nc\t1\nd\t1\n",
        key: b"a",
        value: b"\t",
        count: 4,
        size: 17,
    },
    Case {
        name: "a key with a CR as it is, in the middle",
        text: b"a\t1\nb\r\t9\nc\t1\nd\t1\n",
        key: b"b\r",
        value: b"9",
        count: 4,
        size: 18,
    },
    Case {
        name: "a value with a zero byte as it is, last",
        text: b"a\t1\nb\t1\nc\t1\nd\t\0\n",
        key: b"d",
        value: b"\0",
        count: 4,
        size: 17,
    },
    Case {
        name: "control bytes that are never escaped",
        text: b"a\t1\nb\x01\t\x0b\x0c\x1f\x7f\xfe\nc\t1\n",
        key: b"b\x01",
        value: b"\x0b\x0c\x1f\x7f\xfe",
        count: 3,
        size: 17,
    },
    Case {
        name: "an unordered line, first",
        text: b"d\t9\na\t1\nb\t1\nc\t1\n",
        key: b"d",
        value: b"9",
        count: 4,
        size: 16,
    },
    Case {
        name: "an unordered line, in the middle",
        text: b"a\t1\nc\t9\nb\t1\nd\t1\n",
        key: b"c",
        value: b"9",
        count: 4,
        size: 16,
    },
    Case {
        name: "an unordered line, last",
        text: b"b\t1\nc\t1\nd\t1\na\t9\n",
        key: b"a",
        value: b"9",
        count: 4,
        size: 16,
    },
    Case {
        name: "a repeated line, first",
        text: b"a\t1\na\t9\nb\t1\nc\t1\n",
        key: b"a",
        value: b"9",
        count: 3,
        size: 12,
    },
    Case {
        name: "a repeated line, in the middle",
        text: b"a\t1\nb\t1\nb\t9\nc\t1\n",
        key: b"b",
        value: b"9",
        count: 3,
        size: 12,
    },
    Case {
        name: "a repeated line, last",
        text: b"a\t1\nb\t1\nc\t1\nc\t9\n",
        key: b"c",
        value: b"9",
        count: 3,
        size: 12,
    },
    Case {
        name: "a key at both ends",
        text: b"a\t1\nb\t1\nc\t1\na\t9\n",
        key: b"a",
        value: b"9",
        count: 3,
        size: 12,
    },
    Case {
        name: "a last line without LF",
        text: b"a\t1\nb\t1\nc\t9",
        key: b"c",
        value: b"9",
        count: 3,
        size: 12,
    },
];

#[test]
fn odd_lines_among_plain_ones(rt: HostRuntime) -> Result<(), Fail> {
    let alloc = rt.alloc();
    for case in CASES {
        let name = case.name;
        let map = read_flat(alloc, case.text)?;
        assert_eq!(rt; map.count(), case.count, "{name}");
        assert!(rt; map.fetch(case.key) == Some(case.value), "{name}");
        assert_eq!(rt; map.pairs.size, case.size, "{name}");
        match value_in(alloc, case.text.to_vec(alloc)?, case.key)? {
            Some(value) => assert!(rt; value.as_slice() == case.value, "{name}"),
            None => assert!(rt; false, "{name}"),
        }
        assert!(rt;
            value_in(alloc, case.text.to_vec(alloc)?, b"")?.is_none(),
            "{name}"
        );
    }
    Ok(())
}

// The map with a pair put.
fn with_pair(map: FlatMap, key: &[u8], value: &[u8]) -> Result<FlatMap, Fail> {
    if pair_fault(key, value).is_some() {
        return Err("the pair is refused".into());
    }
    let FlatMap {
        mut bytes,
        mut pairs,
    } = map;
    let size = pairs.size_with(&bytes, key, value);
    if size > FLAT_LIMIT {
        return Err("the text is too long".into());
    }
    match pairs.put(&mut bytes, key, value, size) {
        Ok(()) => Ok(FlatMap { bytes, pairs }),
        Err(_) => Err("memory ran out".into()),
    }
}

#[test]
fn pairs_are_put(rt: HostRuntime) -> Result<(), Fail> {
    let empty = read_flat(rt.alloc(), b"")?;
    assert_eq!(rt; empty.count(), 0);
    let one = with_pair(empty, b"b", b"1")?;
    let two = with_pair(one, b"a", b"")?;
    let map = with_pair(two, b"b", b"2\n")?;
    assert_eq!(rt; map.count(), 2);
    assert!(rt; map.fetch(b"a") == Some(b"".as_slice()));
    assert!(rt; map.fetch(b"b") == Some(b"2\n".as_slice()));
    assert_eq!(rt; map.pairs.size, 9);
    Ok(())
}

// So many times this line.
fn lines_of(alloc: Global, line: &[u8], count: u64) -> Result<Vec<u8>, Fail> {
    let mut text = Vec::new(alloc);
    for _ in 0..count {
        text.extend_from_slice(line)?;
    }
    Ok(text)
}

#[test]
fn million_lines_are_one_key(rt: HostRuntime) -> Result<(), Fail> {
    let text = lines_of(rt.alloc(), b"a\t\xff\x89\n", 1_000_000)?;
    let map = read_flat(rt.alloc(), &text)?;
    assert_eq!(rt; map.count(), 1);
    assert!(rt; map.fetch(b"a") == Some(b"\t".as_slice()));
    assert_eq!(rt; map.pairs.size, 5);
    Ok(())
}

#[test]
fn one_line_may_be_the_whole_text(rt: HostRuntime) -> Result<(), Fail> {
    let text = vec![in rt.alloc(); b'a'; FLAT_LIMIT as usize]?;
    expect_flaw(&rt, read_flat(rt.alloc(), &text), 0, Flaw::NoTab);
    Ok(())
}

#[test]
fn first_flaw_is_told(rt: HostRuntime) -> Result<(), Fail> {
    let alloc = rt.alloc();
    expect_flaw(&rt, read_flat(alloc, b"abc\n"), 0, Flaw::NoTab);
    expect_flaw(&rt, read_flat(alloc, b"a\t1\n\nb\t2\n"), 4, Flaw::NoTab);
    expect_flaw(&rt, read_flat(alloc, b"a\t1\n\t\n"), 4, Flaw::EmptyKey);
    expect_flaw(&rt, read_flat(alloc, b"\t"), 0, Flaw::EmptyKey);
    expect_flaw(&rt, read_flat(alloc, &[b'a', 9, 0xff]), 2, Flaw::BadEscape);
    expect_flaw(
        &rt,
        read_flat(alloc, &[b'a', 0xff, 9, b'1', 10]),
        1,
        Flaw::BadEscape,
    );
    expect_flaw(
        &rt,
        read_flat(alloc, &[b'a', 9, 0xff, 0xff, 0xff, 10]),
        4,
        Flaw::BadEscape,
    );
    expect_flaw(
        &rt,
        read_flat(alloc, &[b'a', 9, 0xff, 10, 0x80, 9, 10]),
        2,
        Flaw::BadEscape,
    );
    expect_flaw(&rt, read_flat(alloc, &[9, 0xff, 10]), 1, Flaw::BadEscape);
    expect_flaw(&rt, read_flat(alloc, &[0xff, 10]), 0, Flaw::NoTab);
    expect_flaw(
        &rt,
        read_flat(alloc, &[0xff, 9, 0xff, 10]),
        0,
        Flaw::BadEscape,
    );
    Ok(())
}
