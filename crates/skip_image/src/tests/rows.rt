// First flaws in the rows of the log.
use super::files::{DELETED, ONE_PAIR, STOPPED};
use super::{Wrong, assert_flaws};
use base_bytes::Flaw;
use std::test::Fail;

const ROWS: &[Wrong] = &[
    Wrong {
        name: "a put record at 64",
        file: &ONE_PAIR,
        changes: &[(64, "2b")],
        at: 64,
        check: Flaw::Kind,
    },
    Wrong {
        name: "the dummy at level 30",
        file: &ONE_PAIR,
        changes: &[(65, "1e")],
        at: 64,
        check: Flaw::Level,
    },
    Wrong {
        name: "a dummy with a key",
        file: &ONE_PAIR,
        changes: &[(67, "01")],
        at: 64,
        check: Flaw::Kind,
    },
    Wrong {
        name: "a dummy at 336",
        file: &ONE_PAIR,
        changes: &[(336, "3d")],
        at: 336,
        check: Flaw::Kind,
    },
    Wrong {
        name: "an unknown type",
        file: &ONE_PAIR,
        changes: &[(336, "00")],
        at: 336,
        check: Flaw::Kind,
    },
    Wrong {
        name: "a put record of level 0",
        file: &ONE_PAIR,
        changes: &[(337, "00")],
        at: 336,
        check: Flaw::Level,
    },
    Wrong {
        name: "a put record of level 32",
        file: &ONE_PAIR,
        changes: &[(337, "20")],
        at: 336,
        check: Flaw::Level,
    },
    Wrong {
        name: "a put record one level higher",
        file: &ONE_PAIR,
        changes: &[(337, "02")],
        at: 384,
        check: Flaw::Kind,
    },
    Wrong {
        name: "a put record of level 31",
        file: &ONE_PAIR,
        changes: &[(337, "1f")],
        at: 336,
        check: Flaw::Short,
    },
    Wrong {
        name: "a mark of a longer key",
        file: &ONE_PAIR,
        changes: &[(338, "ffff")],
        at: 336,
        check: Flaw::Extended,
    },
    Wrong {
        name: "a mark of a longer value",
        file: &ONE_PAIR,
        changes: &[(340, "ffffffff")],
        at: 336,
        check: Flaw::Extended,
    },
    Wrong {
        name: "a wrong level and a mark",
        file: &ONE_PAIR,
        changes: &[(337, "00ffff")],
        at: 336,
        check: Flaw::Level,
    },
    Wrong {
        name: "a value that passes the end",
        file: &ONE_PAIR,
        changes: &[(340, "00010001")],
        at: 336,
        check: Flaw::Short,
    },
    Wrong {
        name: "a value eight bytes too long",
        file: &ONE_PAIR,
        changes: &[(343, "21")],
        at: 336,
        check: Flaw::Short,
    },
    Wrong {
        name: "a commit record of level 1",
        file: &ONE_PAIR,
        changes: &[(377, "01")],
        at: 376,
        check: Flaw::Level,
    },
    Wrong {
        name: "a commit record with a key",
        file: &ONE_PAIR,
        changes: &[(379, "01")],
        at: 376,
        check: Flaw::Kind,
    },
    Wrong {
        name: "a commit record with a value and a level",
        file: &ONE_PAIR,
        changes: &[(377, "01"), (383, "01")],
        at: 376,
        check: Flaw::Kind,
    },
    Wrong {
        name: "a zero byte for the commit record",
        file: &ONE_PAIR,
        changes: &[(376, "00")],
        at: 376,
        check: Flaw::Kind,
    },
    Wrong {
        name: "a delete record of level 1",
        file: &DELETED,
        changes: &[(401, "01")],
        at: 400,
        check: Flaw::Level,
    },
    Wrong {
        name: "a delete record with a value",
        file: &DELETED,
        changes: &[(407, "01")],
        at: 400,
        check: Flaw::Kind,
    },
    Wrong {
        name: "a row and the dummy",
        file: &ONE_PAIR,
        changes: &[(331, "00"), (376, "00")],
        at: 376,
        check: Flaw::Kind,
    },
    Wrong {
        name: "a wrong row below the end, and DIRTY",
        file: &STOPPED,
        changes: &[(376, "00")],
        at: 376,
        check: Flaw::Kind,
    },
    Wrong {
        name: "a record that passes the end, and DIRTY",
        file: &STOPPED,
        changes: &[(59, "01"), (48, "0000000000000188"), (60, "f3ccbf10")],
        at: 376,
        check: Flaw::Short,
    },
];

#[test]
fn rows_have_their_first_flaw(rt: HostRuntime) -> Result<(), Fail> {
    assert_flaws(&rt, rt.alloc(), ROWS)
}
