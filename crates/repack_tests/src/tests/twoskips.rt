// Twoskip files that are rewritten afresh, by their bytes.
use base_bytes::{Bytes, u64_at};
use db_core::{Change, run_changes};
use mem_devices::MemDisk;
use std::alloc::Global;
use std::process::Abort;
use std::test::Fail;
use twoskip::{create, open_db, repack};

// More than each test writes.
const ROOM: u64 = 400_000;

/// A change of one key: the random word that gives its level, and its new value; or it is deleted.
struct Step {
    key: &'static [u8],
    put: Option<(u32, &'static [u8])>,
}

/// A new file, changed by one transaction for each step and then rewritten: its size, and its words of eight bytes that
/// are not zero, with check words by Python's zlib.
struct Case {
    name: &'static str,
    steps: &'static [Step],
    size: usize,
    words: &'static [(u64, u64)],
}

const CASES: &[Case] = &[
    Case {
        name: "no pair",
        steps: &[],
        size: 336,
        words: &[
            (0, 0xA1028B0D74776F73),
            (8, 0x6B69702066696C65),
            (16, 0x0000000000000001),
            (24, 0x0000000000000002),
            (40, 0x0000000000000150),
            (48, 0x0000000000000150),
            (56, 0x00000000079C53EC),
            (64, 0x3D1F000000000000),
            (328, 0x4339BC5300000000),
        ],
    },
    Case {
        name: "a key put twice",
        steps: &[
            Step {
                key: b"a",
                put: Some((0, b"x")),
            },
            Step {
                key: b"a",
                put: Some((0, b"y")),
            },
        ],
        size: 400,
        words: &[
            (0, 0xA1028B0D74776F73),
            (8, 0x6B69702066696C65),
            (16, 0x0000000000000001),
            (24, 0x0000000000000002),
            (32, 0x0000000000000001),
            (40, 0x0000000000000190),
            (48, 0x0000000000000190),
            (56, 0x000000006CB48C15),
            (64, 0x3D1F000000000000),
            (72, 0x0000000000000150),
            (328, 0xD90DF8BF00000000),
            (336, 0x2B01000100000001),
            (360, 0x540B03C50093EAB4),
            (368, 0x6179000000000000),
            (376, 0x2400000000000000),
            (384, 0x0000000000000150),
            (392, 0x5DC51C1A00000000),
        ],
    },
    Case {
        name: "levels are kept",
        steps: &[
            Step {
                key: b"a",
                put: Some((1, b"1")),
            },
            Step {
                key: b"b",
                put: Some((0, b"2")),
            },
        ],
        size: 448,
        words: &[
            (0, 0xA1028B0D74776F73),
            (8, 0x6B69702066696C65),
            (16, 0x0000000000000001),
            (24, 0x0000000000000002),
            (32, 0x0000000000000002),
            (40, 0x00000000000001C0),
            (48, 0x00000000000001C0),
            (56, 0x000000002633F64C),
            (64, 0x3D1F000000000000),
            (72, 0x0000000000000150),
            (88, 0x0000000000000150),
            (328, 0x297F6ABC00000000),
            (336, 0x2B02000100000001),
            (344, 0x0000000000000180),
            (368, 0x872E51157777D1AA),
            (376, 0x6131000000000000),
            (384, 0x2B01000100000001),
            (408, 0x540B03C5C810CCD4),
            (416, 0x6232000000000000),
            (424, 0x2400000000000000),
            (432, 0x0000000000000150),
            (440, 0x5DC51C1A00000000),
        ],
    },
    Case {
        name: "a key deleted",
        steps: &[
            Step {
                key: b"a",
                put: Some((3, b"1")),
            },
            Step {
                key: b"b",
                put: Some((0, b"2")),
            },
            Step {
                key: b"a",
                put: None,
            },
        ],
        size: 400,
        words: &[
            (0, 0xA1028B0D74776F73),
            (8, 0x6B69702066696C65),
            (16, 0x0000000000000001),
            (24, 0x0000000000000002),
            (32, 0x0000000000000001),
            (40, 0x0000000000000190),
            (48, 0x0000000000000190),
            (56, 0x000000006CB48C15),
            (64, 0x3D1F000000000000),
            (72, 0x0000000000000150),
            (328, 0xD90DF8BF00000000),
            (336, 0x2B01000100000001),
            (360, 0x540B03C5C810CCD4),
            (368, 0x6232000000000000),
            (376, 0x2400000000000000),
            (384, 0x0000000000000150),
            (392, 0x5DC51C1A00000000),
        ],
    },
];

fn change_of(alloc: Global, step: &Step) -> Result<Change, Fail> {
    let key = Bytes::of(alloc, step.key)?;
    match step.put {
        Some((word, value)) => Ok(Change::Put {
            word,
            key,
            value: Bytes::of(alloc, value)?,
        }),
        None => Ok(Change::Del { key }),
    }
}

// One transaction on a file.
fn change(alloc: Global, disk: &mut MemDisk, step: &Step) -> Result<(), Fail> {
    let mut db = open_db(alloc, disk)?;
    let change = change_of(alloc, step)?;
    run_changes(&mut db, disk, &[change])?;
    Ok(())
}

fn word_at(words: &[(u64, u64)], at: u64) -> u64 {
    for (place, word) in words {
        if *place == at {
            return *word;
        }
    }
    0
}

fn is_file_of(case: &Case, file: &[u8]) -> bool {
    let mut same = file.len() == case.size;
    for n in 0..file.len() / 8 {
        same &= u64_at(file, 8 * n) == word_at(case.words, 8 * n as u64);
    }
    same
}

fn assert_repacked(rt: &impl Abort, alloc: Global, case: &Case) -> Result<(), Fail> {
    let mut disk = MemDisk::new(alloc, None, ROOM, &[])?;
    create(&mut disk)?;
    for step in case.steps {
        change(alloc, &mut disk, step)?;
    }
    let mut db = open_db(alloc, &mut disk)?;
    let answer = repack(alloc, &mut db, &mut disk);
    let is_wanted = disk.main().is_some_and(|file| is_file_of(case, file));
    let publishes = disk.counts().publishes;
    assert_eq!(rt;
        (answer, is_wanted, publishes),
        (Ok(()), true, 2),
        "{}",
        case.name
    );
    Ok(())
}

#[test]
fn files_are_rewritten(rt: HostRuntime) -> Result<(), Fail> {
    for case in CASES {
        assert_repacked(&rt, rt.alloc(), case)?;
    }
    Ok(())
}
