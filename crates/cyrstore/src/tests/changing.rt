// Actions that leave another file: they end with status 0, and print nothing.
use super::cases::{Case, assert_both};
use std::test::Fail;

// An action, the file before and the file after.
type Row = (&'static str, &'static [u8], &'static [u8]);

const SET: &[Row] = &[
    ("set b 2", b"a\t1\n", b"a\t1\nb\t2\n"),
    ("set b 2", b"", b"b\t2\n"),
    ("set b ", b"a\t1\nc\t3\n", b"a\t1\nb\t\nc\t3\n"),
    ("set b 2", b"a\t1\nb\told\nc\t3\n", b"a\t1\nb\t2\nc\t3\n"),
    ("set a 2", b"b\t1\n", b"a\t2\nb\t1\n"),
    ("set aa 3", b"a\t1\nab\t2\n", b"a\t1\naa\t3\nab\t2\n"),
    ("set c 4", b"b\t1\na\t2\nb\t3", b"a\t2\nb\t3\nc\t4\n"),
    // an equal value, and the file is laid out anew
    ("set b 3", b"b\t1\na\t2\nb\t3", b"a\t2\nb\t3\n"),
    ("set b 2", b"a\tx\ty\n", b"a\tx\xff\x89y\nb\t2\n"),
    (
        "set c 3",
        b"\xff\x80\xff\xff\tz\na\xff\x89\t1\nb\tx\na\t0\nb\ty",
        b"\xff\x80\xff\xff\tz\na\t0\na\xff\x89\t1\nb\ty\nc\t3\n",
    ),
    ("set a 3", b"a\t1\na\t2\n", b"a\t3\n"),
    ("set c 4", b"a\t1\nb\t2", b"a\t1\nb\t2\nc\t4\n"),
    (
        "set b\t 2\n",
        b"a\t\x00\r\n",
        b"a\t\xff\x80\xff\x8d\nb\xff\x89\t2\xff\x8a\n",
    ),
    ("set é ü", b"e\t1\n", b"e\t1\n\xc3\xa9\t\xc3\xbc\n"),
];

const DELETED: &[Row] = &[
    ("delete a", b"a\t1\n", b""),
    ("delete a", b"a\t1\nb\t2\n", b"b\t2\n"),
    ("delete b", b"a\t1\nb\t2\nc\t3", b"a\t1\nc\t3\n"),
    ("delete b", b"b\t1\na\t2\nb\t3", b"a\t2\n"),
    ("delete a", b"b\t1\na\t2\nb\t3", b"b\t3\n"),
    ("delete a\t", b"a\t0\na\xff\x89\t1\n", b"a\t0\n"),
    ("delete b", b"b\t1\na\tx\ty\n", b"a\tx\xff\x89y\n"),
];

#[test]
fn changing_leaves_the_new_text(rt: HostRuntime) -> Result<(), Fail> {
    for rows in [SET, DELETED] {
        for (action, before, after) in rows {
            let case = Case {
                make: false,
                action,
                before: Some(before),
                status: 0,
                told: b"",
                warned: "",
                after: Some(after),
            };
            assert_both(&rt, rt.alloc(), &case)?;
        }
    }
    Ok(())
}
