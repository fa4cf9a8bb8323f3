// A flat file is rewritten afresh, as the canonical text of its map.
ghost use Rattle.std.specs.Prelude.{◌≡◌, false};
ghost use Rattle.db_core.specs.Refusals.{LeavesDisk};
ghost use Rattle.db_core.specs.Sessions.{over};
ghost use Rattle.db_repack.specs.Repacking.{Repacks};
ghost use Rattle.flat_db.specs.FlatText.{canonical_text};
ghost use Rattle.flat_db.specs.Repacking.{flat_repack};
ghost use Rattle.flat_db.specs.Sessions.{FlatTied, flat_state};

use crate::replacing::replace;
use crate::session::{FlatDb, Stage};
use base_bytes::{FLAT_LIMIT, Piece};
use base_devices::Disk;
use db_core::DbFault;
use std::alloc::Global;

/// Publishes the canonical text of a session's map in the place of its file: each pair once, by rising key. The map
/// stays.
///
/// It answers `Broken`; `Full` with the bytes that the text would have, where these are more than `FLAT_LIMIT`;
/// `NoMemory`; and `DiskFault`, after which the session is broken. Each other refusal leaves session and disk as
/// before. Wherever it stops, the file opens to the same map, and after Ok it is that text.
pub fn repack<D: Disk>(alloc: Global, db: &mut FlatDb, disk: &mut D) -> Result<(), DbFault>
    requires closed { (flat_state db.old).is_broken ≡ false
        → (flat_state db.old).in_transaction ≡ false }
    requires tied { FlatTied db.old (D.state disk.old) }
    ensures repacks { Repacks flat_repack (canonical_text (flat_state db.old).seen)
        (over (D.state disk.old) (flat_state db.old))
        (over (D.state disk.new) (flat_state db.new)) result }
    ensures unharmed { LeavesDisk result disk.old disk.new }
    ensures tied { FlatTied db.new (D.state disk.new) }
    ensures rest { D.disk_rest disk.old disk.new }
{
    if db.is_broken() {
        return Err(DbFault::Broken);
    }
    let size = db.seen.size;
    if size > FLAT_LIMIT {
        return Err(DbFault::Full { size });
    }
    let Ok(mut piece) = Piece::new(alloc) else {
        return Err(DbFault::NoMemory);
    };
    match replace(disk, &db.bytes, &db.seen, &mut piece) {
        Ok(()) => Ok(()),
        Err(_) => {
            db.stage = Stage::Broken;
            Err(DbFault::DiskFault)
        }
    }
}
