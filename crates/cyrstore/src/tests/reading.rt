// Actions that leave the file as it is.
use super::cases::{Case, assert_both};
use std::test::Fail;

// An action on a file, the status, and what it tells.
type Row = (&'static str, &'static [u8], u8, &'static [u8]);

// Four keys in all: 00 FF, `a`, `a` with a TAB, and `b`.
const ESCAPED: &[u8] = b"\xff\x80\xff\xff\tz\na\xff\x89\t1\nb\tx\na\t0\nb\ty";

const SUBSCRIPTIONS: &[u8] = b"user.anna\t\nuser.anna.Sent\t\nuser.anna.Trash\t\n";

// The keys C3, `è` and `é`, which share a first byte.
const SHARED: &[u8] = b"\xc3\t0\n\xc3\xa8\t1\n\xc3\xa9\t2\n";

const SHOWN: &[Row] = &[
    ("show", b"", 0, b""),
    ("show", b"a\t1\n", 0, b"a\t1\n"),
    ("show", b"b\t1\na\t2\nb\t3", 0, b"a\t2\nb\t3\n"),
    ("show", b"a\tx\xff\x89y\n", 0, b"a\tx\ty\n"),
    ("show", ESCAPED, 0, b"\x00\xff\tz\na\t0\na\t\t1\nb\ty\n"),
    // an empty word is the empty prefix
    ("show ", b"b\t1\na\t2\nb\t3", 0, b"a\t2\nb\t3\n"),
    ("show a", ESCAPED, 0, b"a\t0\na\t\t1\n"),
    ("show a\t", ESCAPED, 0, b"a\t\t1\n"),
    ("show b", b"a\t1\nb\t2\nba\t3\nc\t4\n", 0, b"b\t2\nba\t3\n"),
    ("show c", b"a\t1\nb\t2\nba\t3\nc\t4", 0, b"c\t4\n"),
    (
        "show user.anna.",
        SUBSCRIPTIONS,
        0,
        b"user.anna.Sent\t\nuser.anna.Trash\t\n",
    ),
    ("show user.anna", SUBSCRIPTIONS, 0, SUBSCRIPTIONS),
    ("show user.anna.T", SUBSCRIPTIONS, 0, b"user.anna.Trash\t\n"),
    // no pair has the prefix
    ("show user.b", SUBSCRIPTIONS, 0, b""),
    ("show user.ann.", SUBSCRIPTIONS, 0, b""),
    ("show z", b"a\t1\n", 0, b""),
    ("show ab", b"a\t1\nb\t2\n", 0, b""),
    ("show a", b"", 0, b""),
    // keys are compared by bytes
    (
        "show é",
        b"e\t1\n\xc3\xa9\t2\n\xc3\xa9a\t3\n",
        0,
        b"\xc3\xa9\t2\n\xc3\xa9a\t3\n",
    ),
    ("show e", b"e\t1\n\xc3\xa9\t2\n\xc3\xa9a\t3\n", 0, b"e\t1\n"),
    ("show é", SHARED, 0, b"\xc3\xa9\t2\n"),
    ("show è", SHARED, 0, b"\xc3\xa8\t1\n"),
    ("show", SHARED, 0, SHARED),
];

const GOT: &[Row] = &[
    ("get a", b"a\t1\n", 0, b"1\n"),
    ("get a", b"a\t1\na\t2\n", 0, b"2\n"),
    ("get b", b"b\t1\na\t2\nb\t3", 0, b"3\n"),
    ("get a", b"a\t\n", 0, b"\n"),
    ("get a", b"a\tx\xff\x89y\xff\x8a\n", 0, b"x\ty\n\n"),
    ("get a", b"a\t\xff\x80\xff\xff\n", 0, b"\x00\xff\n"),
    ("get a\t", ESCAPED, 0, b"1\n"),
    ("get user.anna.Sent", SUBSCRIPTIONS, 0, b"\n"),
    ("get é", SHARED, 0, b"2\n"),
    // the key is absent
    ("get z", b"a\t1\n", 1, b""),
    ("get a", b"", 1, b""),
    ("get a", b"ab\t1\n", 1, b""),
    ("get ab", b"a\t1\nac\t1\n", 1, b""),
    ("get ê", SHARED, 1, b""),
];

const CHECKED: &[Row] = &[
    ("consistent", b"", 0, b"consistent\n"),
    ("consistent", b"a\t1\n", 0, b"consistent\n"),
    ("consistent", b"b\t1\na\t2\nb\t3", 0, b"consistent\n"),
    ("consistent", ESCAPED, 0, b"consistent\n"),
    // what is not there is not taken out
    ("delete z", b"b\t1\na\t2\nb\t3", 0, b""),
    ("delete a", b"", 0, b""),
    ("delete a", b"ab\t1\n", 0, b""),
];

#[test]
fn reading_leaves_the_file(rt: HostRuntime) -> Result<(), Fail> {
    for rows in [SHOWN, GOT, CHECKED] {
        for (action, file, status, told) in rows {
            let case = Case {
                make: false,
                action,
                before: Some(file),
                status: *status,
                told,
                warned: "",
                after: Some(file),
            };
            assert_both(&rt, rt.alloc(), &case)?;
        }
    }
    Ok(())
}
