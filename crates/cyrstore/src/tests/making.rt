// Actions where there is no file.
use super::cases::{Case, assert_case};
use std::test::Fail;

// Without the flag each answers `absent`, an empty key or not, and the file stays absent.
const ABSENT: [&str; 9] = [
    "show",
    "show a",
    "get a",
    "set a 1",
    "delete a",
    "consistent",
    "get ",
    "set  1",
    "delete ",
];

#[test]
fn absent_file_answers_absent(rt: HostRuntime) -> Result<(), Fail> {
    for action in ABSENT {
        let case = Case {
            make: false,
            action,
            before: None,
            status: 66,
            told: b"",
            warned: "absent\n",
            after: None,
        };
        assert_case(&rt, rt.alloc(), &case, &[], &[])?;
    }
    Ok(())
}

// With the flag it is made, empty, and then the action is done: the status, what is told and warned, and the file after.
const MADE: [(&str, u8, &[u8], &str, &[u8]); 12] = [
    ("show", 0, b"", "", b""),
    ("show a", 0, b"", "", b""),
    ("show ", 0, b"", "", b""),
    ("get k", 1, b"", "", b""),
    ("set k v", 0, b"", "", b"k\tv\n"),
    ("set k ", 0, b"", "", b"k\t\n"),
    ("set k\t v\n", 0, b"", "", b"k\xff\x89\tv\xff\x8a\n"),
    ("delete k", 0, b"", "", b""),
    ("consistent", 0, b"consistent\n", "", b""),
    ("get ", 65, b"", "line 1: wrong\n", b""),
    ("set  v", 65, b"", "line 1: wrong\n", b""),
    ("delete ", 65, b"", "line 1: wrong\n", b""),
];

#[test]
fn absent_file_is_made(rt: HostRuntime) -> Result<(), Fail> {
    for (action, status, told, warned, after) in MADE {
        let case = Case {
            make: true,
            action,
            before: None,
            status,
            told,
            warned,
            after: Some(after),
        };
        assert_case(&rt, rt.alloc(), &case, &[], &[])?;
    }
    Ok(())
}
