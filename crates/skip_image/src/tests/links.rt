// First flaws of the upper levels, and of the number of records.
use super::files::{DELETED, EMPTY, ONE_PAIR, TALL, TWO_LEVELS};
use super::{Wrong, assert_flaws};
use base_bytes::Flaw;
use std::test::Fail;

const LINKS: &[Wrong] = &[
    Wrong {
        name: "level 1 leaves the first record out",
        file: &TWO_LEVELS,
        changes: &[(88, "0000000000000000"), (328, "bb3f2032")],
        at: 336,
        check: Flaw::Link,
    },
    Wrong {
        name: "level 1 leads past the first record",
        file: &TWO_LEVELS,
        changes: &[(88, "0000000000000198"), (328, "764566f4")],
        at: 336,
        check: Flaw::Link,
    },
    Wrong {
        name: "level 1 leads on from its last record",
        file: &TWO_LEVELS,
        changes: &[(360, "0000000000000198"), (368, "abb08d33")],
        at: 64,
        check: Flaw::Link,
    },
    Wrong {
        name: "level 2 has a record too low",
        file: &TWO_LEVELS,
        changes: &[(96, "0000000000000150"), (328, "8e5c7d76")],
        at: 64,
        check: Flaw::Link,
    },
    Wrong {
        name: "level 30 leads to a record",
        file: &ONE_PAIR,
        changes: &[(320, "0000000000000150"), (328, "c94f4087")],
        at: 64,
        check: Flaw::Link,
    },
    Wrong {
        name: "level 30 leads to nowhere",
        file: &ONE_PAIR,
        changes: &[(327, "01"), (328, "cc3810a4")],
        at: 64,
        check: Flaw::Link,
    },
    Wrong {
        name: "level 29 leads to nowhere",
        file: &EMPTY,
        changes: &[(319, "01"), (328, "5442a810")],
        at: 64,
        check: Flaw::Link,
    },
    Wrong {
        name: "level 1 leaves the third record out",
        file: &TALL,
        changes: &[(360, "0000000000000000"), (376, "883992ff")],
        at: 480,
        check: Flaw::Link,
    },
    Wrong {
        name: "level 1 leads to a dead record",
        file: &TALL,
        changes: &[(360, "00000000000001b0"), (376, "2f9f395c")],
        at: 480,
        check: Flaw::Link,
    },
    Wrong {
        name: "level 2 leaves the first record out",
        file: &TALL,
        changes: &[(96, "0000000000000000"), (328, "297f6abc")],
        at: 336,
        check: Flaw::Link,
    },
    Wrong {
        name: "level 2 leads to a record that is lower",
        file: &TALL,
        changes: &[(368, "00000000000001e0"), (376, "e4dcab13")],
        at: 64,
        check: Flaw::Link,
    },
    Wrong {
        name: "level 1 leads on from the last record",
        file: &TALL,
        changes: &[(504, "0000000000000150"), (512, "29004f10")],
        at: 64,
        check: Flaw::Link,
    },
    Wrong {
        name: "an order before a link",
        file: &TALL,
        changes: &[
            (520, "61"),
            (360, "0000000000000000"),
            (516, "c942d10b"),
            (376, "883992ff"),
        ],
        at: 480,
        check: Flaw::Order,
    },
    Wrong {
        name: "one record too many is counted",
        file: &ONE_PAIR,
        changes: &[(39, "02"), (60, "af45d126")],
        at: 32,
        check: Flaw::Count,
    },
    Wrong {
        name: "no record is counted",
        file: &ONE_PAIR,
        changes: &[(39, "00"), (60, "4b81d05b")],
        at: 32,
        check: Flaw::Count,
    },
    Wrong {
        name: "the greatest number of records",
        file: &ONE_PAIR,
        changes: &[(32, "ffffffffffffffff"), (60, "68306d92")],
        at: 32,
        check: Flaw::Count,
    },
    Wrong {
        name: "a deleted record is counted",
        file: &DELETED,
        changes: &[(39, "01"), (60, "ec489c0e")],
        at: 32,
        check: Flaw::Count,
    },
    Wrong {
        name: "a link and the count",
        file: &ONE_PAIR,
        changes: &[(39, "02"), (327, "01"), (60, "af45d126"), (328, "cc3810a4")],
        at: 64,
        check: Flaw::Link,
    },
    Wrong {
        name: "a link at the first record and the count",
        file: &TWO_LEVELS,
        changes: &[
            (39, "01"),
            (88, "0000000000000000"),
            (60, "bcd8404d"),
            (328, "bb3f2032"),
        ],
        at: 336,
        check: Flaw::Link,
    },
];

#[test]
fn links_have_their_first_flaw(rt: HostRuntime) -> Result<(), Fail> {
    assert_flaws(&rt, rt.alloc(), LINKS)
}
