// The main file is rewritten afresh.
ghost use Rattle.std.specs.Prelude.{◌≡◌, false};
ghost use Rattle.cyr_top.specs.Repacking.{DoesRepack, repacking};
ghost use Rattle.db_core.specs.Sessions.{DbLaws};
ghost use Rattle.db_repack.specs.Repacking.{RepacksOnce, repacking_by};

use crate::acting::make_absent;
use crate::files::Files;
use base_devices::Host;
use base_notes::{Device, Note};
use db_core::Db;
use db_tool::{HOST_FAULT, note_of_change, note_of_opening};
use std::alloc::Global;

// Opens the main file and rewrites it afresh.
fn open_and_repack<H: Host, B: Db<H> + Drop, F: Files<H, B>>(alloc: Global, host: &mut H) -> Note
    requires laws { DbLaws B.kind }
    requires once { RepacksOnce (repacking_by B.kind F.repacked) }
    ensures does { DoesRepack (repacking (repacking_by B.kind F.repacked) false)
        (H.state host.old) (H.state host.new) result }
    ensures rest { H.disk_rest host.old host.new }
{
    let mut db = match F::open_db(alloc, host) {
        Ok(db) => db,
        Err(fault) => return note_of_opening(Device::Host, fault),
    };
    match F::repack(alloc, &mut db, host) {
        Ok(()) => Note::Done,
        Err(fault) => note_of_change(Device::Host, fault),
    }
}

/// Rewrites the main file afresh, which is made first where it is absent and `make` asks for it.
pub(crate) fn repack_files<H: Host, B: Db<H> + Drop, F: Files<H, B>>(
    alloc: Global,
    make: bool,
    host: &mut H,
) -> Note
    requires laws { DbLaws B.kind }
    requires once { RepacksOnce (repacking_by B.kind F.repacked) }
    ensures does { DoesRepack (repacking (repacking_by B.kind F.repacked) make)
        (H.state host.old) (H.state host.new) result }
    ensures rest { H.disk_rest host.old host.new }
{
    if !make {
        return open_and_repack::<H, B, F>(alloc, host);
    }
    match make_absent::<H, B, F>(host) {
        Ok(()) => open_and_repack::<H, B, F>(alloc, host),
        Err(_) => HOST_FAULT,
    }
}
