// Exercises of a flat file in memory. The digests are those of the maps worked by hand.
use base_notes::{Device, Note};
use db_exercise::exercise;
use flat_db::open_db;
use mem_devices::{MemDisk, MemHost};
use rand_pcg::Pcg32;
use std::process::Abort;
use std::test::Fail;

// More than any exercise here writes or prints.
const ROOM: u64 = 20_000;

// An exercise of an empty file, whose calls of the disk with these numbers fail, and what must come of it.
struct Case {
    name: &'static str,
    rounds: u32,
    calls: &'static [u64],
    note: Note,
    told: &'static [u8],
    left: &'static [u8],
}

const CASES: &[Case] = &[
    Case {
        name: "no round",
        rounds: 0,
        calls: &[],
        note: Note::Done,
        told: b"transactions 0\npairs 0\nsha1 da39a3ee5e6b4b0d3255bfef95601890afd80709\n",
        left: b"",
    },
    Case {
        name: "one round",
        rounds: 1,
        calls: &[],
        note: Note::Done,
        told: b"transactions 1\npairs 3\nsha1 0112121465eb7aa09498cb9e73a393cc3c58bfd0\n",
        left: b"k3c6\t2\nk9e3\t1\nkdaa\t3\n",
    },
    Case {
        name: "two rounds",
        rounds: 2,
        calls: &[],
        note: Note::Done,
        told: b"transactions 2\npairs 6\nsha1 61c50e9722430c07371d133cce47d2694bc992ce\n",
        left: b"k3c6\t2\nk538\t7\nk78d\t4\nk9e3\t1\nkb54\t6\nkdaa\t3\n",
    },
    Case {
        name: "a call of the first commit fails",
        rounds: 2,
        calls: &[4],
        note: Note::DeviceFault {
            device: Device::Host,
        },
        told: b"",
        left: b"",
    },
];

#[test]
fn rounds_are_reported(rt: HostRuntime) -> Result<(), Fail> {
    let alloc = rt.alloc();
    for case in CASES {
        let disk = MemDisk::new(alloc, Some(b""), ROOM, case.calls)?;
        let mut host = MemHost::new(alloc, disk, ROOM, &[])?;
        let mut db = open_db(alloc, &mut host)?;
        let mut rng = Pcg32::new(42, 54);
        let outcome = exercise(alloc, case.rounds, &mut db, &mut host, &mut rng);
        assert_eq!(rt; outcome.note, case.note, "{}", case.name);
        assert_eq!(rt; host.told(), case.told, "{}", case.name);
        assert_eq!(rt; host.disk().main(), Some(case.left), "{}", case.name);
    }
    Ok(())
}
