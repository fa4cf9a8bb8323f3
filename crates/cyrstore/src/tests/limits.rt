// Keys, values and files at their limits.
use super::cases::{action_words, host_of, status_of};
use base_bytes::{FLAT_LIMIT, KEY_LIMIT, VALUE_LIMIT};
use disk_kinds::{MemDisk, MemHost};
use std::alloc::Global;
use std::process::Abort;
use std::test::Fail;

// What a run needs besides the text of the file.
const MORE: u64 = 200_000;

// A host with room for a file at the limit, and for one more of its size.
fn large_host(alloc: Global, main: &[u8]) -> Result<MemHost, Fail> {
    let room = FLAT_LIMIT + MORE;
    if main.len() as u64 > room {
        return Err("the file is too long for the test".into());
    }
    let disk = MemDisk::new(alloc, Some(main), room, &[])?;
    Ok(MemHost::new(alloc, disk, MORE, &[])?)
}

// The words `cyr_dbtool f flat set KEY VALUE`.
fn set_words(alloc: Global, make: bool, key: &str, value: &str) -> Result<Vec<String>, Fail> {
    let mut words = action_words(alloc, make, "set")?;
    words.push(String::from_str(alloc, key)?)?;
    words.push(String::from_str(alloc, value)?)?;
    Ok(words)
}

// The bytes of a key and a value as a line.
fn add_line(text: &mut Vec<u8>, key: &str, value: &[u8]) -> Result<(), Fail> {
    text.extend_from_slice(key.as_bytes())?;
    text.push(b'\t')?;
    text.extend_from_slice(value)?;
    text.push(b'\n')?;
    Ok(())
}

// A key at the limit is taken, and the next one is refused; the file was made before.
#[test]
fn key_limit(rt: HostRuntime) -> Result<(), Fail> {
    let alloc = rt.alloc();
    let key = "k".repeat(alloc, KEY_LIMIT as usize)?;
    let mut line = Vec::new(alloc);
    add_line(&mut line, key.as_str(), b"v")?;
    for main in [None, Some(b"".as_slice())] {
        let mut host = host_of(alloc, main, &[], &[])?;
        let words = set_words(alloc, true, key.as_str(), "v")?;
        assert_eq!(rt; status_of(alloc, &words, &mut host)?, 0);
        assert_eq!(rt; host.disk().main(), Some(line.as_slice()));

        let mut host = host_of(alloc, main, &[], &[])?;
        let longer = "k".repeat(alloc, KEY_LIMIT as usize + 1)?;
        let words = set_words(alloc, true, longer.as_str(), "v")?;
        assert_eq!(rt; status_of(alloc, &words, &mut host)?, 70);
        assert_eq!(rt; host.warned(), b"limit key: 65535\n".as_slice());
        assert_eq!(rt; host.disk().main(), Some(b"".as_slice()));
    }
    Ok(())
}

// No pair has a longer key, so that it is neither found nor deleted.
#[test]
fn longer_key_is_absent(rt: HostRuntime) -> Result<(), Fail> {
    let alloc = rt.alloc();
    let key = "k".repeat(alloc, KEY_LIMIT as usize + 1)?;
    for (action, status) in [("get", 1), ("delete", 0)] {
        let mut words = action_words(alloc, false, action)?;
        words.push(String::from_str(alloc, key.as_str())?)?;
        let mut host = host_of(alloc, Some(b"k\t1"), &[], &[])?;
        assert_eq!(rt; status_of(alloc, &words, &mut host)?, status, "{action}");
        assert_eq!(rt; host.warned(), b"".as_slice());
        assert_eq!(rt; host.disk().main(), Some(b"k\t1".as_slice()));
    }
    Ok(())
}

#[test]
fn value_limit(rt: HostRuntime) -> Result<(), Fail> {
    let alloc = rt.alloc();
    let value = "v".repeat(alloc, VALUE_LIMIT as usize + 1)?;
    let words = set_words(alloc, false, "b", value.as_str())?;
    let mut host = host_of(alloc, Some(b"a\t1"), &[], &[])?;
    assert_eq!(rt; status_of(alloc, &words, &mut host)?, 70);
    assert_eq!(rt; host.warned(), b"limit value: 16777217\n".as_slice());
    assert_eq!(rt; host.disk().main(), Some(b"a\t1".as_slice()));
    Ok(())
}

// A run over a large file: its status, what is warned, and what the file then reads.
fn assert_large(
    rt: &impl Abort,
    alloc: Global,
    main: &[u8],
    words: &[String],
    wanted: (u8, &str, &[u8]),
) -> Result<(), Fail> {
    let (status, warned, left) = wanted;
    let mut host = large_host(alloc, main)?;
    assert_eq!(rt; status_of(alloc, words, &mut host)?, status);
    assert_eq!(rt; host.warned(), warned.as_bytes());
    assert!(rt; host.disk().main() == Some(left), "another file");
    Ok(())
}

// A value at the limit.
fn long_value(rt: &impl Abort, alloc: Global) -> Result<String, Fail> {
    let value = "vvvvvvvvvvvvvvvv".repeat(alloc, 1_048_576)?;
    assert_eq!(rt; value.len() as u64, VALUE_LIMIT);
    Ok(value)
}

// A text with a line of a long value for each key.
fn long_lines(alloc: Global, keys: &[&str], value: &str) -> Result<Vec<u8>, Fail> {
    let mut text = Vec::new(alloc);
    for key in keys {
        add_line(&mut text, key, value.as_bytes())?;
    }
    Ok(text)
}

const LONG: [&str; 3] = ["p", "q", "r"];

// Three values at the limit find room in a file.
#[test]
fn three_long_values_are_put(rt: HostRuntime) -> Result<(), Fail> {
    let alloc = rt.alloc();
    let value = long_value(&rt, alloc)?;
    let mut text = Vec::new(alloc);
    for key in LONG {
        let words = set_words(alloc, false, key, value.as_str())?;
        let mut longer = text.clone()?;
        add_line(&mut longer, key, value.as_bytes())?;
        assert_large(&rt, alloc, &text, &words, (0, "", &longer))?;
        text = longer;
    }
    assert_eq!(rt; text.len(), 50_331_657);
    Ok(())
}

#[test]
fn fourth_long_value_is_refused(rt: HostRuntime) -> Result<(), Fail> {
    let alloc = rt.alloc();
    let value = long_value(&rt, alloc)?;
    let text = long_lines(alloc, &LONG, value.as_str())?;
    let words = set_words(alloc, false, "s", value.as_str())?;
    let wanted = (70, "limit file: 67108876\n", text.as_slice());
    assert_large(&rt, alloc, &text, &words, wanted)
}

// A byte that has to be escaped takes two in the new text, also where a pair is deleted.
#[test]
fn longer_text_is_refused(rt: HostRuntime) -> Result<(), Fail> {
    let alloc = rt.alloc();
    let mut text = Vec::new(alloc);
    add_line(&mut text, "a", &vec![in alloc; b'\r'; 40_000_000]?)?;
    add_line(&mut text, "b", b"1")?;
    assert_eq!(rt; text.len(), 40_000_007);
    let words = action_words(alloc, false, "delete b")?;
    let wanted = (70, "limit file: 80000003\n", text.as_slice());
    assert_large(&rt, alloc, &text, &words, wanted)
}

// A text of one line with so many bytes.
fn text_of(alloc: Global, size: usize) -> Result<Vec<u8>, Fail> {
    let mut text = vec![in alloc; b'v'; size]?;
    if size < 3 {
        return Err("too short for a line".into());
    }
    text[0] = b'a';
    text[1] = b'\t';
    text[size - 1] = b'\n';
    Ok(text)
}

// The size of the file, an action, the status, what is told and warned, and what is added to the file.
type Size = (
    u64,
    &'static str,
    u8,
    &'static str,
    &'static str,
    &'static [u8],
);

fn assert_size(rt: &impl Abort, alloc: Global, row: Size) -> Result<(), Fail> {
    let (size, action, status, told, warned, added) = row;
    let mut text = text_of(alloc, size as usize)?;
    let mut host = large_host(alloc, &text)?;
    let words = action_words(alloc, false, action)?;
    assert_eq!(rt; status_of(alloc, &words, &mut host)?, status);
    assert_eq!(rt; host.told(), told.as_bytes());
    assert_eq!(rt; host.warned(), warned.as_bytes());
    text.extend_from_slice(added)?;
    assert!(rt; host.disk().main() == Some(text.as_slice()), "another file");
    Ok(())
}

#[test]
fn longest_text_is_written(rt: HostRuntime) -> Result<(), Fail> {
    let row: Size = (FLAT_LIMIT - 4, "set b 1", 0, "", "", b"b\t1\n");
    assert_size(&rt, rt.alloc(), row)
}

#[test]
fn text_over_the_limit_is_refused(rt: HostRuntime) -> Result<(), Fail> {
    let limit = "limit file: 67108865\n";
    let row: Size = (FLAT_LIMIT - 3, "set b 1", 70, "", limit, b"");
    assert_size(&rt, rt.alloc(), row)
}

#[test]
fn longest_file_has_no_room(rt: HostRuntime) -> Result<(), Fail> {
    let limit = "limit file: 67108868\n";
    let row: Size = (FLAT_LIMIT, "set b 1", 70, "", limit, b"");
    assert_size(&rt, rt.alloc(), row)
}

#[test]
fn longest_file_is_consistent(rt: HostRuntime) -> Result<(), Fail> {
    let row: Size = (FLAT_LIMIT, "consistent", 0, "consistent\n", "", b"");
    assert_size(&rt, rt.alloc(), row)
}

// A file over the limit is not read, not even for an empty key.
#[test]
fn file_over_the_limit_is_refused(rt: HostRuntime) -> Result<(), Fail> {
    let alloc = rt.alloc();
    let text = text_of(alloc, FLAT_LIMIT as usize + 1)?;
    let mut host = large_host(alloc, &text)?;
    for action in ["show", "get ", "set b 1", "delete a", "consistent"] {
        let words = action_words(alloc, false, action)?;
        assert_eq!(rt; status_of(alloc, &words, &mut host)?, 70, "{action}");
    }
    let warned = "limit file: 67108865\n".repeat(alloc, 5)?;
    assert_eq!(rt; host.warned(), warned.as_bytes());
    assert_eq!(rt; host.told(), b"".as_slice());
    assert!(rt; host.disk().main() == Some(text.as_slice()), "another file");
    Ok(())
}
