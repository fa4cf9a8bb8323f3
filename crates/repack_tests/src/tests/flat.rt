// Flat files that are rewritten afresh, by their bytes.
use super::failing::{disk_of, flat_fault};
use std::alloc::Global;
use std::process::Abort;
use std::test::Fail;

/// A file, and what takes its place.
struct Case {
    name: &'static str,
    text: &'static [u8],
    wanted: &'static [u8],
}

const CASES: &[Case] = &[
    Case {
        name: "no line",
        text: b"",
        wanted: b"",
    },
    Case {
        name: "later lines and another order",
        text: b"b\t2\na\t1\nb\t3\n",
        wanted: b"a\t1\nb\t3\n",
    },
    Case {
        name: "a bare carriage return",
        text: b"k\ta\rb\n",
        wanted: b"k\ta\xff\x8db\n",
    },
];

fn assert_repacked(rt: &impl Abort, alloc: Global, case: &Case) -> Result<(), Fail> {
    let mut disk = disk_of(alloc, case.text, &[])?;
    let fault = flat_fault(alloc, &mut disk)?;
    let is_wanted = disk.main() == Some(case.wanted);
    assert_eq!(rt;
        (fault, is_wanted, disk.counts().publishes),
        (None, true, 1),
        "{}",
        case.name
    );
    Ok(())
}

#[test]
fn texts_are_rewritten(rt: HostRuntime) -> Result<(), Fail> {
    for case in CASES {
        assert_repacked(&rt, rt.alloc(), case)?;
    }
    Ok(())
}
