// First flaws in live records.
use super::files::{CIRCLE, ONE_PAIR, STOPPED, TWO_PAIRS};
use super::{Wrong, assert_flaws};
use base_bytes::Flaw;
use std::test::Fail;

const RECORDS: &[Wrong] = &[
    Wrong {
        name: "a head check",
        file: &ONE_PAIR,
        changes: &[(360, "00")],
        at: 336,
        check: Flaw::Check,
    },
    Wrong {
        name: "a tail check",
        file: &ONE_PAIR,
        changes: &[(367, "00")],
        at: 336,
        check: Flaw::Tail,
    },
    Wrong {
        name: "both check words",
        file: &ONE_PAIR,
        changes: &[(360, "0000000000000000")],
        at: 336,
        check: Flaw::Check,
    },
    Wrong {
        name: "a byte of the value",
        file: &ONE_PAIR,
        changes: &[(369, "63")],
        at: 336,
        check: Flaw::Tail,
    },
    Wrong {
        name: "a byte of the padding",
        file: &ONE_PAIR,
        changes: &[(375, "01")],
        at: 336,
        check: Flaw::Tail,
    },
    Wrong {
        name: "a byte of the padding with its check word",
        file: &ONE_PAIR,
        changes: &[(375, "01"), (364, "124d1216")],
        at: 336,
        check: Flaw::Padding,
    },
    Wrong {
        name: "the first byte of the padding",
        file: &ONE_PAIR,
        changes: &[(370, "80"), (364, "7bfa3658")],
        at: 336,
        check: Flaw::Padding,
    },
    Wrong {
        name: "a byte of the padding, and DIRTY",
        file: &STOPPED,
        changes: &[(375, "01"), (364, "124d1216")],
        at: 336,
        check: Flaw::Padding,
    },
    Wrong {
        name: "a tail check, and DIRTY",
        file: &STOPPED,
        changes: &[(367, "00")],
        at: 336,
        check: Flaw::Tail,
    },
    Wrong {
        name: "a head check and a tail check, and DIRTY",
        file: &STOPPED,
        changes: &[(360, "0000000000000000")],
        at: 336,
        check: Flaw::Tail,
    },
    Wrong {
        name: "an empty key",
        file: &ONE_PAIR,
        changes: &[(338, "000000000002"), (360, "984bdbdf")],
        at: 336,
        check: Flaw::Order,
    },
    Wrong {
        name: "an empty key, and DIRTY",
        file: &STOPPED,
        changes: &[(338, "000000000002")],
        at: 336,
        check: Flaw::Order,
    },
    Wrong {
        name: "padding and an empty key",
        file: &ONE_PAIR,
        changes: &[
            (338, "000000000002"),
            (370, "01"),
            (360, "984bdbdf"),
            (364, "ae16f125"),
        ],
        at: 336,
        check: Flaw::Padding,
    },
    Wrong {
        name: "a circle",
        file: &CIRCLE,
        changes: &[],
        at: 336,
        check: Flaw::Order,
    },
    Wrong {
        name: "a circle, and DIRTY",
        file: &CIRCLE,
        changes: &[(59, "01"), (60, "29f38575")],
        at: 336,
        check: Flaw::Order,
    },
    Wrong {
        name: "keys that fall",
        file: &TWO_PAIRS,
        changes: &[
            (368, "62"),
            (408, "61"),
            (364, "f9f8d649"),
            (404, "469fcb37"),
        ],
        at: 376,
        check: Flaw::Order,
    },
    Wrong {
        name: "keys that are equal",
        file: &TWO_PAIRS,
        changes: &[(408, "61"), (404, "469fcb37")],
        at: 376,
        check: Flaw::Order,
    },
    Wrong {
        name: "a shorter key first that is above",
        file: &TWO_PAIRS,
        changes: &[
            (368, "62"),
            (378, "000200000000"),
            (408, "6161"),
            (364, "f9f8d649"),
            (400, "a8b34a65"),
            (404, "54a2381d"),
        ],
        at: 376,
        check: Flaw::Order,
    },
    Wrong {
        name: "a key and then its prefix",
        file: &TWO_PAIRS,
        changes: &[
            (338, "000200000000"),
            (368, "6161"),
            (408, "61"),
            (360, "0c0a4096"),
            (364, "54a2381d"),
            (404, "469fcb37"),
        ],
        at: 376,
        check: Flaw::Order,
    },
    Wrong {
        name: "a record that leads to itself",
        file: &ONE_PAIR,
        changes: &[(344, "0000000000000150"), (360, "c99b298d")],
        at: 336,
        check: Flaw::Order,
    },
];

#[test]
fn records_have_their_first_flaw(rt: HostRuntime) -> Result<(), Fail> {
    assert_flaws(&rt, rt.alloc(), RECORDS)
}
