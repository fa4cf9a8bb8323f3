// A database is converted: a new file of the other kind is filled with its pairs.
ghost use Rattle.std.specs.Prelude.{◌≡◌, false};
ghost use Rattle.base_notes.specs.Notes.{status_of};
ghost use Rattle.cyr_top.specs.Asked.{fill_of, kind_of};
ghost use Rattle.cyr_top.specs.Converting.{DoesConversion, converting, with_both};
ghost use Rattle.db_core.specs.Refusals.{LeavesDisk};
ghost use Rattle.db_core.specs.Sessions.{DbLaws};
ghost use Rattle.db_fill.specs.Filling.{Fills, with_words_to_come};

use crate::files::{Files, FlatFiles, TwoskipFiles};
use base_devices::Disk;
use base_notes::{Backend, Device, Note, Outcome};
use db_core::{Db, DbFault};
use db_tool::{note_of_change, note_of_opening};
use flat_db::FlatDb;
use rand_core::Rng;
use std::alloc::Global;
use twoskip::Twoskip;

// Fills a new file of this backend with the pairs of a database.
fn fill<E: Disk, B: Db<E>, D: Disk, R: Rng>(
    alloc: Global,
    backend: Backend,
    from: &B,
    to: &mut D,
    rng: &mut R,
) -> Result<u64, DbFault>
    requires { (B.state from.now).is_broken ≡ false }
    ensures fills { Fills (fill_of backend) (B.state from.now).seen
        (with_words_to_come (D.state to.old) (R.stream rng.old))
        (with_words_to_come (D.state to.new) (R.stream rng.new)) result }
    ensures unharmed { LeavesDisk result to.old to.new }
    ensures rest { D.disk_rest to.old to.new }
{
    match backend {
        Backend::Flat => flat_db::fill(alloc, from, to, rng),
        Backend::Twoskip => twoskip::fill(alloc, from, to, rng),
    }
}

// Converts a database, by the files of its backend.
fn convert_files<E: Disk, B: Db<E> + Drop, F: Files<E, B>, D: Disk, R: Rng>(
    alloc: Global,
    from: &mut E,
    to: &mut D,
    to_kind: Backend,
    rng: &mut R,
) -> Note
    requires { DbLaws B.kind }
    ensures does { DoesConversion (converting B.kind (fill_of to_kind))
        (with_both (E.state from.old) (D.state to.old) (R.stream rng.old))
        (with_both (E.state from.new) (D.state to.new) (R.stream rng.new)) result }
    ensures from_rest { E.disk_rest from.old from.new }
    ensures to_rest { D.disk_rest to.old to.new }
{
    match to.length() {
        Ok(None) => {}
        Ok(Some(_)) => return Note::Exists,
        Err(_) => {
            return Note::DeviceFault {
                device: Device::Second,
            };
        }
    }
    let db = match F::open_db(alloc, from) {
        Ok(db) => db,
        Err(fault) => return note_of_opening(Device::Host, fault),
    };
    match fill(alloc, to_kind, &db, to, rng) {
        Ok(_) => Note::Done,
        Err(fault) => note_of_change(Device::Second, fault),
    }
}

/// Converts the database of `from` into the new file of `to`, which must be absent.
///
/// The new file is published whole, or not there. The old one is opened, which repairs it where a stop left it in the
/// midst of a change, and not written otherwise. A fault of `from` is noted as one of the host, and one of `to` as one of
/// the second device. It refuses in this order: the new file is there; the old one is absent, too big or damaged; the
/// first pair, by rising key, whose key or value is too long; the new file would be too big.
pub fn convert<E: Disk, D: Disk, R: Rng>(
    alloc: Global,
    from: &mut E,
    from_kind: Backend,
    to: &mut D,
    to_kind: Backend,
    rng: &mut R,
) -> Outcome
    ensures does { DoesConversion (converting (kind_of from_kind) (fill_of to_kind))
        (with_both (E.state from.old) (D.state to.old) (R.stream rng.old))
        (with_both (E.state from.new) (D.state to.new) (R.stream rng.new)) result.note }
    ensures status { result.status ≡ status_of result.note }
    ensures from_rest { E.disk_rest from.old from.new }
    ensures to_rest { D.disk_rest to.old to.new }
{
    let note = match from_kind {
        Backend::Flat => convert_files::<E, FlatDb, FlatFiles, D, R>(alloc, from, to, to_kind, rng),
        Backend::Twoskip => {
            convert_files::<E, Twoskip, TwoskipFiles, D, R>(alloc, from, to, to_kind, rng)
        }
    };
    Outcome {
        status: note.status(),
        note,
    }
}
