// Scripts that a device cuts off. After the failed call no other one is made.
use super::steps::{A, Case, Faults, end_of};
use base_notes::{Device, Note};
use std::process::Abort;
use std::test::Fail;

const HOST: Note = Note::DeviceFault {
    device: Device::Host,
};

const INPUT: Note = Note::DeviceFault {
    device: Device::Input,
};

// Pieces of eight bytes: a line of `SET` a read.
const SETS: &[u8] = b"SET\tb\t2\nSET\tc\t3\n";

const CASES: &[(Case, Faults)] = &[
    (
        Case {
            name: "the second read",
            script: SETS,
            note: INPUT,
            told: b"COMMITTED\n",
            left: b"a\t1\nb\t2\n",
        },
        Faults {
            calls: &[],
            prints: &[],
            reads: &[2],
        },
    ),
    (
        Case {
            name: "the first read",
            script: SETS,
            note: INPUT,
            told: b"",
            left: A,
        },
        Faults {
            calls: &[],
            prints: &[],
            reads: &[1, 2],
        },
    ),
    (
        Case {
            name: "the first print",
            script: SETS,
            note: HOST,
            told: b"",
            left: b"a\t1\nb\t2\n",
        },
        Faults {
            calls: &[],
            prints: &[1],
            reads: &[],
        },
    ),
    (
        Case {
            name: "the second print",
            script: SETS,
            note: HOST,
            told: b"COMMITTED\n",
            left: b"a\t1\nb\t2\nc\t3\n",
        },
        Faults {
            calls: &[],
            prints: &[2],
            reads: &[],
        },
    ),
    (
        Case {
            name: "the first call of the disk in a commit",
            script: SETS,
            note: HOST,
            told: b"",
            left: A,
        },
        Faults {
            calls: &[4],
            prints: &[],
            reads: &[],
        },
    ),
];

#[test]
fn devices_cut_scripts_off(rt: HostRuntime) -> Result<(), Fail> {
    for (case, faults) in CASES {
        let end = end_of(rt.alloc(), case, 8, faults)?;
        assert_eq!(rt;
            (end.note, end.is_told, end.is_left),
            (case.note, true, true),
            "{}",
            case.name
        );
    }
    Ok(())
}
