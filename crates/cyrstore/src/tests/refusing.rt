// Words that are no job, empty keys and damaged files: the file stays as it is.
use super::cases::{Case, assert_both, host_of, status_of, words_of};
use std::alloc::Global;
use std::process::Abort;
use std::test::Fail;

// Lines of words, the name of the tool included.
const WRONG: [&str; 34] = [
    "",
    "cyr_dbtool",
    "cyr_dbtool -n",
    "cyr_dbtool f",
    "cyr_dbtool f flat",
    "cyr_dbtool f flat ",
    "cyr_dbtools f flat show",
    "dbtool f flat set b 2",
    " f flat show",
    // no other backend
    "cyr_dbtool f skiplist set b 2",
    "cyr_dbtool f skiplist show",
    "cyr_dbtool -n f skiplist show",
    "cyr_dbtool f Flat show",
    // no other action
    "cyr_dbtool f flat put b 2",
    "cyr_dbtool f flat repacks",
    "cyr_dbtool f flat exercise 10001",
    "cyr_dbtool f twoskip recover",
    "cyr_dbtool f flat SHOW",
    // a word too few or too many
    "cyr_dbtool f flat get",
    "cyr_dbtool f flat get a b",
    "cyr_dbtool f flat set b",
    "cyr_dbtool f flat set b 2 3",
    "cyr_dbtool f flat delete",
    "cyr_dbtool f flat delete a b",
    "cyr_dbtool f flat show a b",
    "cyr_dbtool f flat consistent x",
    "cyr_dbtool f flat repack x",
    "cyr_dbtool f flat exercise",
    // no other flag, and a key that begins with `-` is given after `--`
    "cyr_dbtool f flat get -k",
    "cyr_dbtool f flat set -b 2",
    "cyr_dbtool f flat set b -2",
    "cyr_dbtool - f flat show",
    "cyr_dbtool -q f flat show",
    "cyr_dbtool --help",
];

// The flag stands once, behind the name of the tool.
const MISPLACED: [&str; 4] = [
    "-n cyr_dbtool f flat show",
    "cyr_dbtool -n -n f flat show",
    "cyr_dbtool -n flat set b 2",
    "cyr_dbtool -nn f flat show",
];

// Where the flag and a word that begins with `-` may stand: the words, the status, and the file after, which is absent
// before.
const TAKEN: [(&str, u8, &[u8]); 6] = [
    ("cyr_dbtool f -n flat show", 0, b""),
    ("cyr_dbtool f flat -n set a 1", 0, b"a\t1\n"),
    ("cyr_dbtool f flat set a 1 -n", 0, b"a\t1\n"),
    ("cyr_dbtool -n f flat set -- -k -v", 0, b"-k\t-v\n"),
    ("cyr_dbtool -n -- f flat set - -n", 0, b"-\t-n\n"),
    ("cyr_dbtool -n f flat get -", 1, b""),
];

fn assert_usage(rt: &impl Abort, alloc: Global, words: &[String]) -> Result<(), Fail> {
    let mut host = host_of(alloc, Some(b"a\t1\n"), &[], &[])?;
    assert_eq!(rt; status_of(alloc, words, &mut host)?, 64, "of {words:?}");
    assert_eq!(rt; host.warned(), b"usage\n".as_slice());
    assert_eq!(rt; host.told(), b"".as_slice());
    assert_eq!(rt; host.disk().main(), Some(b"a\t1\n".as_slice()));
    Ok(())
}

#[test]
fn wrong_words_answer_usage(rt: HostRuntime) -> Result<(), Fail> {
    let alloc = rt.alloc();
    assert_usage(&rt, alloc, &[])?;
    for line in WRONG {
        assert_usage(&rt, alloc, &words_of(alloc, line)?)?;
    }
    for line in MISPLACED {
        assert_usage(&rt, alloc, &words_of(alloc, line)?)?;
    }
    Ok(())
}

#[test]
fn flag_and_word_may_stand_so(rt: HostRuntime) -> Result<(), Fail> {
    let alloc = rt.alloc();
    for (line, status, after) in TAKEN {
        let mut host = host_of(alloc, None, &[], &[])?;
        let words = words_of(alloc, line)?;
        assert_eq!(rt; status_of(alloc, &words, &mut host)?, status, "of {line:?}");
        assert_eq!(rt; host.disk().main(), Some(after), "of {line:?}");
    }
    Ok(())
}

// With wrong words an absent file stays absent, also with the flag.
#[test]
fn wrong_words_make_no_file(rt: HostRuntime) -> Result<(), Fail> {
    let alloc = rt.alloc();
    let mut host = host_of(alloc, None, &[], &[])?;
    let words = words_of(alloc, "cyr_dbtool -n f flat get -k")?;
    assert_eq!(rt; status_of(alloc, &words, &mut host)?, 64);
    assert!(rt; host.disk().main().is_none());
    Ok(())
}

const WITHOUT_KEY: [(&str, &[u8]); 6] = [
    ("get ", b"a\t1\n"),
    ("set  2", b"a\t1\n"),
    ("delete ", b"a\t1\n"),
    ("get ", b""),
    ("set  ", b"b\t1\na\t2\nb\t3"),
    ("delete ", b"b\t1\na\t2\nb\t3"),
];

#[test]
fn empty_key_is_wrong(rt: HostRuntime) -> Result<(), Fail> {
    for (action, file) in WITHOUT_KEY {
        let case = Case {
            make: false,
            action,
            before: Some(file),
            status: 65,
            told: b"",
            warned: "line 1: wrong\n",
            after: Some(file),
        };
        assert_both(&rt, rt.alloc(), &case)?;
    }
    Ok(())
}

// A file, and its first flaw with its place.
const FLAWED: [(&[u8], &str); 12] = [
    (b"abc\n", "NoTab at 0"),
    (b"\n", "NoTab at 0"),
    (b"a\t1\nabc", "NoTab at 4"),
    (b"a\t1\n\nb\t2\n", "NoTab at 4"),
    (b"\t1\n", "EmptyKey at 0"),
    (b"a\t1\n\t1\n", "EmptyKey at 4"),
    (b"a\t1\n\t\xff\n", "BadEscape at 5"),
    (b"a\t1\nb\t\xff\n", "BadEscape at 6"),
    (b"a\xff\t1\n", "BadEscape at 1"),
    (b"a\t\xff\xff\xff", "BadEscape at 4"),
    (b"a\t\xff\n\x80\n", "BadEscape at 2"),
    (b"a\t1\nab\xffc\t2\nabc\n", "BadEscape at 6"),
];

// Each action but `consistent` refuses the file, also with an empty key.
const REFUSING: [&str; 9] = [
    "show", "show z", "get a", "set c 4", "delete a", "delete z", "get ", "set  4", "delete ",
];

fn assert_refused(rt: &impl Abort, alloc: Global, file: &[u8], flaw: &str) -> Result<(), Fail> {
    let warned = format!(in alloc; "damaged: {flaw}\n")?;
    for action in REFUSING {
        let case = Case {
            make: false,
            action,
            before: Some(file),
            status: 76,
            told: b"",
            warned: warned.as_str(),
            after: Some(file),
        };
        assert_both(rt, alloc, &case)?;
    }
    Ok(())
}

fn assert_inconsistent(
    rt: &impl Abort,
    alloc: Global,
    file: &[u8],
    flaw: &str,
) -> Result<(), Fail> {
    let told = format!(in alloc; "not consistent: {flaw}\n")?;
    let case = Case {
        make: false,
        action: "consistent",
        before: Some(file),
        status: 1,
        told: told.as_bytes(),
        warned: "",
        after: Some(file),
    };
    assert_both(rt, alloc, &case)
}

#[test]
fn damaged_file_is_told(rt: HostRuntime) -> Result<(), Fail> {
    for (file, flaw) in FLAWED {
        assert_refused(&rt, rt.alloc(), file, flaw)?;
        assert_inconsistent(&rt, rt.alloc(), file, flaw)?;
    }
    Ok(())
}
