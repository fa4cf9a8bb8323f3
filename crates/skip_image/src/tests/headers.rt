// First flaws in the header.
use super::files::{ONE_PAIR, STOPPED};
use super::{Wrong, assert_flaws};
use base_bytes::Flaw;
use std::test::Fail;

const HEADERS: &[Wrong] = &[
    Wrong {
        name: "the first byte",
        file: &ONE_PAIR,
        changes: &[(0, "00")],
        at: 0,
        check: Flaw::Magic,
    },
    Wrong {
        name: "the last byte of the magic",
        file: &ONE_PAIR,
        changes: &[(19, "01")],
        at: 0,
        check: Flaw::Magic,
    },
    Wrong {
        name: "version 2",
        file: &ONE_PAIR,
        changes: &[(20, "00000002")],
        at: 20,
        check: Flaw::Version,
    },
    Wrong {
        name: "version 2 with its check word",
        file: &ONE_PAIR,
        changes: &[(20, "00000002"), (60, "8e3a6ca5")],
        at: 20,
        check: Flaw::Version,
    },
    Wrong {
        name: "a wrong magic and version",
        file: &ONE_PAIR,
        changes: &[(19, "01"), (23, "00")],
        at: 0,
        check: Flaw::Magic,
    },
    Wrong {
        name: "a wrong check word",
        file: &ONE_PAIR,
        changes: &[(63, "00")],
        at: 60,
        check: Flaw::Check,
    },
    Wrong {
        name: "a wrong check word and end",
        file: &ONE_PAIR,
        changes: &[(48, "0000000000000000")],
        at: 60,
        check: Flaw::Check,
    },
    Wrong {
        name: "an end in the dummy",
        file: &ONE_PAIR,
        changes: &[(48, "0000000000000148"), (60, "6dde675d")],
        at: 48,
        check: Flaw::Size,
    },
    Wrong {
        name: "an end in the dummy, and DIRTY",
        file: &ONE_PAIR,
        changes: &[(48, "0000000000000148"), (59, "01"), (60, "1ad957cb")],
        at: 48,
        check: Flaw::Size,
    },
    Wrong {
        name: "an end of zero, and DIRTY",
        file: &ONE_PAIR,
        changes: &[(48, "0000000000000000"), (59, "01"), (60, "b90697e6")],
        at: 48,
        check: Flaw::Size,
    },
    Wrong {
        name: "an end that is no multiple of 8, and DIRTY",
        file: &ONE_PAIR,
        changes: &[(48, "000000000000018c"), (59, "01"), (60, "064c19d0")],
        at: 48,
        check: Flaw::Size,
    },
    Wrong {
        name: "an end past the file",
        file: &ONE_PAIR,
        changes: &[(48, "0000000000000198"), (60, "e42b1804")],
        at: 48,
        check: Flaw::Size,
    },
    Wrong {
        name: "an end past the file, and DIRTY",
        file: &ONE_PAIR,
        changes: &[(48, "0000000000000198"), (59, "01"), (60, "932c2892")],
        at: 48,
        check: Flaw::Size,
    },
    Wrong {
        name: "the greatest end, and DIRTY",
        file: &ONE_PAIR,
        changes: &[(48, "fffffffffffffff8"), (59, "01"), (60, "15d152f0")],
        at: 48,
        check: Flaw::Size,
    },
    Wrong {
        name: "bytes past the end of a clean file",
        file: &STOPPED,
        changes: &[(59, "00"), (60, "d45b53c5")],
        at: 48,
        check: Flaw::Size,
    },
    Wrong {
        name: "a record past the end of a clean file",
        file: &ONE_PAIR,
        changes: &[(48, "0000000000000178"), (60, "ccffdfdb")],
        at: 48,
        check: Flaw::Size,
    },
];

#[test]
fn headers_have_their_first_flaw(rt: HostRuntime) -> Result<(), Fail> {
    assert_flaws(&rt, rt.alloc(), HEADERS)
}
