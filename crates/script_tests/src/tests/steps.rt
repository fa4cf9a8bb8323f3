// A script over a flat file in memory, and what comes of it.
use base_notes::Note;
use db_script::batch;
use flat_db::open_db;
use mem_devices::{MemDisk, MemHost};
use mem_source::MemSource;
use rand_pcg::Pcg32;
use std::alloc::Global;
use std::test::Fail;

// More than any script here writes or prints.
const ROOM: u64 = 20_000;

// The file on which each script runs.
pub(crate) const A: &[u8] = b"a\t1\n";

// A script, and what must come of it.
#[derive(Clone, Copy)]
pub(crate) struct Case {
    pub(crate) name: &'static str,
    pub(crate) script: &'static [u8],
    pub(crate) note: Note,
    pub(crate) told: &'static [u8],
    pub(crate) left: &'static [u8],
}

// The calls of the disk, the prints and the reads with these numbers fail. Opening makes the calls 1 to 3 of the disk.
#[derive(Clone, Copy)]
pub(crate) struct Faults {
    pub(crate) calls: &'static [u64],
    pub(crate) prints: &'static [u64],
    pub(crate) reads: &'static [u64],
}

pub(crate) const NO_FAULTS: Faults = Faults {
    calls: &[],
    prints: &[],
    reads: &[],
};

// What came of a script.
#[derive(Drop)]
pub(crate) struct End {
    pub(crate) note: Note,
    pub(crate) is_told: bool,
    pub(crate) is_left: bool,
}

// The script is read in pieces of so many bytes.
pub(crate) fn end_of(
    alloc: Global,
    case: &Case,
    piece: usize,
    faults: &Faults,
) -> Result<End, Fail> {
    if piece == 0 {
        return Err("no byte a read".into());
    }
    let disk = MemDisk::new(alloc, Some(A), ROOM, faults.calls)?;
    let mut host = MemHost::new(alloc, disk, ROOM, faults.prints)?;
    let mut source = MemSource::new(alloc, case.script, piece, faults.reads)?;
    let mut db = open_db(alloc, &mut host)?;
    let mut rng = Pcg32::new(42, 54);
    let outcome = batch(alloc, &mut db, &mut host, &mut source, &mut rng);
    Ok(End {
        note: outcome.note,
        is_told: host.told() == case.told,
        is_left: host.disk().main() == Some(case.left),
    })
}
