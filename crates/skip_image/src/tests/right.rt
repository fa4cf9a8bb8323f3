// Files that open.
use super::files::{
    DELETED, EMPTY, ONE_PAIR, PUT_TWICE, STOPPED, TALL, TALL_STOPPED, TWO_LEVELS, TWO_PAIRS,
};
use super::{Laid, Part, verified};
use crate::Summary;
use std::alloc::Global;
use std::process::Abort;
use std::test::Fail;

/// A file with some bytes changed, and how many live records are found in it.
struct Right {
    name: &'static str,
    file: &'static Laid,
    changes: &'static [Part],
    count: u64,
}

const CLEAN: &[Right] = &[
    Right {
        name: "an empty database",
        file: &EMPTY,
        changes: &[],
        count: 0,
    },
    Right {
        name: "one pair",
        file: &ONE_PAIR,
        changes: &[],
        count: 1,
    },
    Right {
        name: "the one pair deleted",
        file: &DELETED,
        changes: &[],
        count: 0,
    },
    Right {
        name: "two pairs",
        file: &TWO_PAIRS,
        changes: &[],
        count: 2,
    },
    Right {
        name: "a pair put twice",
        file: &PUT_TWICE,
        changes: &[],
        count: 1,
    },
    Right {
        name: "levels 2 and 1",
        file: &TWO_LEVELS,
        changes: &[],
        count: 2,
    },
    Right {
        name: "levels 3, 1 and 2, and a delete record in the list",
        file: &TALL,
        changes: &[],
        count: 3,
    },
    Right {
        name: "another bit of the flags",
        file: &ONE_PAIR,
        changes: &[(59, "02"), (60, "3a5532e9")],
        count: 1,
    },
    Right {
        name: "a dead record with wrong check words",
        file: &DELETED,
        changes: &[(360, "0000000000000000")],
        count: 0,
    },
    Right {
        name: "a dead record with an empty key",
        file: &DELETED,
        changes: &[(338, "0000")],
        count: 0,
    },
    Right {
        name: "a dead record of which no byte of the body is right",
        file: &DELETED,
        changes: &[(368, "ffffffffffffffff")],
        count: 0,
    },
    Right {
        name: "a delete record that leads to a put record",
        file: &DELETED,
        changes: &[
            (39, "01"),
            (408, "0000000000000150"),
            (60, "ec489c0e"),
            (416, "80be12c4"),
        ],
        count: 1,
    },
    Right {
        name: "a dead commit record with wrong check words",
        file: &ONE_PAIR,
        changes: &[(392, "0000000000000000")],
        count: 1,
    },
    Right {
        name: "a key that is a prefix of the next",
        file: &TWO_PAIRS,
        changes: &[
            (378, "000200000000"),
            (408, "6161"),
            (400, "a8b34a65"),
            (404, "54a2381d"),
        ],
        count: 2,
    },
    Right {
        name: "a longer key first",
        file: &TWO_PAIRS,
        changes: &[
            (338, "000200000000"),
            (368, "6161"),
            (360, "0c0a4096"),
            (364, "54a2381d"),
        ],
        count: 2,
    },
    Right {
        name: "a repack size and a generation of all ones",
        file: &ONE_PAIR,
        changes: &[
            (24, "ffffffffffffffff"),
            (40, "ffffffffffffffff"),
            (60, "b30b6b46"),
        ],
        count: 1,
    },
];

const STOPPED_FILES: &[Right] = &[
    Right {
        name: "a store that was stopped",
        file: &STOPPED,
        changes: &[],
        count: 1,
    },
    Right {
        name: "a store that was stopped in the middle of the list",
        file: &TALL_STOPPED,
        changes: &[],
        count: 3,
    },
    Right {
        name: "DIRTY in a file that has nothing else of a transaction",
        file: &ONE_PAIR,
        changes: &[(59, "01"), (60, "a35c6353")],
        count: 1,
    },
    Right {
        name: "all bits of the flags",
        file: &ONE_PAIR,
        changes: &[(56, "ffffffff"), (60, "0ae07326")],
        count: 1,
    },
    Right {
        name: "DIRTY, and both slots lead on below the end",
        file: &STOPPED,
        changes: &[(72, "0000000000000150")],
        count: 1,
    },
    Right {
        name: "DIRTY, and a slot is the greatest number",
        file: &STOPPED,
        changes: &[(72, "ffffffffffffffff")],
        count: 1,
    },
    Right {
        name: "DIRTY, and a slot is the committed end",
        file: &STOPPED,
        changes: &[(72, "0000000000000190")],
        count: 1,
    },
    Right {
        name: "DIRTY, and the slots changed places",
        file: &STOPPED,
        changes: &[(72, "0000000000000150"), (80, "0000000000000190")],
        count: 1,
    },
    Right {
        name: "DIRTY, and zeros behind the committed end",
        file: &STOPPED,
        changes: &[(
            400,
            "00000000000000000000000000000000000000000000000000000000000000000000000000000000",
        )],
        count: 1,
    },
    Right {
        name: "DIRTY, and a wrong head check of a live record",
        file: &STOPPED,
        changes: &[(360, "00000000")],
        count: 1,
    },
    Right {
        name: "DIRTY, and a wrong number of records",
        file: &STOPPED,
        changes: &[(39, "07"), (60, "55616695")],
        count: 1,
    },
    Right {
        name: "DIRTY, and upper pointers to nowhere",
        file: &STOPPED,
        changes: &[(88, "0000000000000001"), (320, "0000000000000150")],
        count: 1,
    },
    Right {
        name: "DIRTY, and levels that do not link",
        file: &TALL_STOPPED,
        changes: &[(360, "0000000000000000"), (96, "0000000000000005")],
        count: 3,
    },
];

fn assert_sums(rt: &impl Abort, alloc: Global, cases: &[Right], clean: bool) -> Result<(), Fail> {
    for case in cases {
        let wanted = Summary {
            count: case.count,
            clean,
        };
        let answer = verified(alloc, case.file, case.changes)?;
        assert_eq!(rt; answer, Ok(wanted), "{}", case.name);
    }
    Ok(())
}

#[test]
fn clean_files_are_summed_up(rt: HostRuntime) -> Result<(), Fail> {
    assert_sums(&rt, rt.alloc(), CLEAN, true)
}

#[test]
fn stopped_files_are_summed_up(rt: HostRuntime) -> Result<(), Fail> {
    assert_sums(&rt, rt.alloc(), STOPPED_FILES, false)
}
