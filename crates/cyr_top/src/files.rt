// What a backend does with its files: they are made, opened, looked through, and rewritten afresh.
ghost use Rattle.std.specs.Prelude.{◌≡◌, ℕ, false, IfErr, IfOk, List, OnOk};
ghost use Rattle.base_bytes.specs.OrderedMap.{Map};
ghost use Rattle.base_devices.specs.Causes.{FaultHasCause, HasCause};
ghost use Rattle.base_devices.specs.CrashImages.{WhereRead};
ghost use Rattle.base_devices.specs.Frames.{MayReplace, Replaces, StaysAs};
ghost use Rattle.db_core.specs.Opening.{IsDeviceFault, IsOpenRefusal, OpensAs, OpensDisk};
ghost use Rattle.db_core.specs.Refusals.{LeavesDisk};
ghost use Rattle.db_core.specs.Sessions.{over};
ghost use Rattle.db_repack.specs.Repacking.{KeepsRepacked, Repacks, repacking_by};

use base_devices::{Disk, Failed};
use db_core::{Db, DbFault, OpenFault};
use flat_db::FlatDb;
use std::alloc::Global;
use twoskip::Twoskip;

/// The files of a backend, over the main file of a disk.
pub(crate) trait Files<D: Disk, B: Db<D>> {
    // Which file may take the place of which.
    ghost repacked: { List ℕ → List ℕ → Type 0 };

    /// Publishes the file of the map without a pair.
    fn create(disk: &mut D) -> Result<(), Failed>
        ensures replaces { Replaces B.kind.empty (D.state disk.old) (D.state disk.new) result }
        ensures any_moment { MayReplace B.kind.empty (D.state disk.old) (D.state disk.new) }
        ensures cause { HasCause (D.state disk.old).faults (D.state disk.new).faults result }
        ensures rest { D.disk_rest disk.old disk.new };

    /// Opens the main file.
    fn open_db(alloc: Global, disk: &mut D) -> Result<B, OpenFault>
        ensures opens { OpensAs B.kind B.state (D.state disk.old) result }
        ensures disk { OpensDisk B.kind (D.state disk.old) (D.state disk.new) result }
        ensures cause { FaultHasCause IsDeviceFault (D.state disk.old).faults
            (D.state disk.new).faults result }
        ensures repacked { OnOk result (KeepsRepacked (repacking_by B.kind repacked)
            (D.state disk.old) (D.state disk.new)) }
        ensures tied { IfOk result (λ db. B.tie db disk.new) }
        ensures rest { D.disk_rest disk.old disk.new };

    /// Whether the main file opens, by the same tests. It only reads.
    fn verify_db(alloc: Global, disk: &mut D) -> Result<(), OpenFault>
        ensures opens { OnOk result (WhereRead (D.state disk.old)
            (λ main. (m : Map) × B.kind.opens main m)) }
        ensures refused { IfErr result (λ fault. WhereRead (D.state disk.old)
            (λ main. IsOpenRefusal B.kind main fault)) }
        ensures cause { FaultHasCause IsDeviceFault (D.state disk.old).faults
            (D.state disk.new).faults result }
        ensures fresh { (D.state disk.new).fresh ≡ (D.state disk.old).fresh }
        ensures stays { StaysAs (D.state disk.old) (D.state disk.new) }
        ensures rest { D.disk_rest disk.old disk.new };

    /// Rewrites the file of an open database afresh. The session goes on over the new file.
    fn repack(alloc: Global, db: &mut B, disk: &mut D) -> Result<(), DbFault>
        requires closed { (B.state db.old).is_broken ≡ false
            → (B.state db.old).in_transaction ≡ false }
        requires tied { B.tie db.old disk.old }
        ensures repacks { (made : List ℕ) × Repacks (repacking_by B.kind repacked) made
            (over (D.state disk.old) (B.state db.old))
            (over (D.state disk.new) (B.state db.new)) result }
        ensures unharmed { LeavesDisk result disk.old disk.new }
        ensures rest { D.disk_rest disk.old disk.new };
}

/// Files of flat text.
pub(crate) struct FlatFiles;

impl<D: Disk> Files<D, FlatDb> for FlatFiles {
    ghost use Rattle.flat_db.specs.Repacking.{FlatRepacked};

    ghost repacked = { FlatRepacked };

    fn create(disk: &mut D) -> Result<(), Failed> {
        flat_db::create(disk)
    }

    fn open_db(alloc: Global, disk: &mut D) -> Result<FlatDb, OpenFault> {
        flat_db::open_db(alloc, disk)
    }

    fn verify_db(alloc: Global, disk: &mut D) -> Result<(), OpenFault> {
        flat_db::verify_db(alloc, disk)
    }

    fn repack(alloc: Global, db: &mut FlatDb, disk: &mut D) -> Result<(), DbFault> {
        flat_db::repack(alloc, db, disk)
    }
}

/// Files of twoskip.
pub(crate) struct TwoskipFiles;

impl<D: Disk> Files<D, Twoskip> for TwoskipFiles {
    ghost use Rattle.skip_spec.specs.Layout.{Repacked};

    ghost repacked = { Repacked };

    fn create(disk: &mut D) -> Result<(), Failed> {
        twoskip::create(disk)
    }

    fn open_db(alloc: Global, disk: &mut D) -> Result<Twoskip, OpenFault> {
        twoskip::open_db(alloc, disk)
    }

    fn verify_db(alloc: Global, disk: &mut D) -> Result<(), OpenFault> {
        twoskip::check_db(alloc, disk)?;
        Ok(())
    }

    fn repack(alloc: Global, db: &mut Twoskip, disk: &mut D) -> Result<(), DbFault> {
        twoskip::repack(alloc, db, disk)
    }
}
