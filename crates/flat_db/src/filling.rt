// A new file is filled with the pairs of a database, as their canonical text.
ghost use Rattle.std.specs.Prelude.{◌≡◌, [], Some, IsSome, OnOk, false, length};
ghost use Rattle.base_devices.specs.Causes.{HasCause};
ghost use Rattle.base_devices.specs.CrashImages.{Shows};
ghost use Rattle.base_devices.specs.DiskCalls.{fresh_bytes};
ghost use Rattle.base_devices.specs.Frames.{MayReplace, Replaces, StaysAs};
ghost use Rattle.db_core.specs.Refusals.{LeavesDisk};
ghost use Rattle.db_fill.specs.Filling.{Fills, told, with_words_to_come};
ghost use Rattle.flat_db.specs.Filling.{flat_fill};
ghost use Rattle.flat_db.specs.FlatText.{canonical_text, pair_line};
ghost use Rattle.flat_db.specs.Writing.{AddsBytes, filling};

use crate::writing::{flush, write_line};
use base_bytes::{FLAT_LIMIT, Piece, escaped_size};
use base_devices::{Disk, Failed};
use db_core::{Db, DbFault};
use db_fill::pairs_fault;
use rand_core::Rng;
use std::alloc::Global;

// How many bytes the line of a pair has. A number past 2^64 - 1 is answered as that.
fn told_line_size(key: &[u8], value: &[u8]) -> u64
    ensures { result ≡ told (length (pair_line key.now value.now)) }
{
    let text = (escaped_size(key) as u64).saturating_add(escaped_size(value) as u64);
    text.saturating_add(2)
}

// How many bytes the canonical text of the map seen has. A number past 2^64 - 1 is answered as that.
fn text_size<E: Disk, B: Db<E>>(from: &B) -> u64
    requires { (B.state from.now).is_broken ≡ false }
    ensures { result ≡ told (length (canonical_text (B.state from.now).seen)) }
{
    let mut size: u64 = 0;
    let mut cursor = from.walk_from(b"");
    for _ in 0..from.count() {
        let Some(step) = from.step(cursor) else {
            break;
        };
        size = size.saturating_add(told_line_size(step.pair.key, step.pair.value));
        cursor = step.next;
    }
    size
}

// Adds the lines of the map seen to the new file.
fn write_map<E: Disk, B: Db<E>, D: Disk>(
    from: &B,
    to: &mut D,
    piece: &mut Piece,
) -> Result<(), Failed>
    requires sound { (B.state from.now).is_broken ≡ false }
    requires begun { Shows (D.state to.old) → IsSome (D.state to.old).fresh }
    ensures adds { AddsBytes (canonical_text (B.state from.now).seen)
        (filling (D.state to.old) piece.old) (filling (D.state to.new) piece.new) result }
    ensures rest { D.disk_rest to.old to.new }
{
    let mut cursor = from.walk_from(b"");
    for _ in 0..from.count() {
        let Some(step) = from.step(cursor) else {
            break;
        };
        if let Err(fault) = write_line(to, step.pair.key, step.pair.value, piece) {
            return Err(fault);
        }
        cursor = step.next;
    }
    Ok(())
}

// Writes the new file: the canonical text of the map seen.
fn write_text<E: Disk, B: Db<E>, D: Disk>(
    from: &B,
    to: &mut D,
    piece: &mut Piece,
) -> Result<(), Failed>
    requires sound { (B.state from.now).is_broken ≡ false }
    requires empty { piece.old ≡ [] }
    ensures written { OnOk result (Shows (D.state to.old) → fresh_bytes (D.state to.new).fresh
        ≡ Some (canonical_text (B.state from.now).seen)) }
    ensures stays { StaysAs (D.state to.old) (D.state to.new) }
    ensures cause { HasCause (D.state to.old).faults (D.state to.new).faults result }
    ensures rest { D.disk_rest to.old to.new }
{
    to.new_start()?;
    write_map(from, to, piece)?;
    flush(to, piece)
}

// Puts the text of the map seen in the place of the main file.
fn replace_by<E: Disk, B: Db<E>, D: Disk>(
    from: &B,
    to: &mut D,
    piece: &mut Piece,
) -> Result<(), Failed>
    requires sound { (B.state from.now).is_broken ≡ false }
    requires empty { piece.old ≡ [] }
    ensures replaces { Replaces (canonical_text (B.state from.now).seen)
        (D.state to.old) (D.state to.new) result }
    ensures any_moment { MayReplace (canonical_text (B.state from.now).seen)
        (D.state to.old) (D.state to.new) }
    ensures cause { HasCause (D.state to.old).faults (D.state to.new).faults result }
    ensures rest { D.disk_rest to.old to.new }
{
    write_text(from, to, piece)?;
    to.new_sync()?;
    to.publish()
}

/// Publishes a flat file of the map seen of another database, whatever its kind, and answers how many pairs it has.
/// It draws no random words.
///
/// `KeyTooLong` and `ValueTooLong` are of the first pair, by rising key, whose key or value is too long; `Full` has the
/// size that the file would have, at most 2^64 - 1. A refusal but `DiskFault` leaves the disk alone. Wherever it
/// stops, the file is one that could be left before, or the whole new one, and after Ok only the new one.
pub fn fill<E: Disk, B: Db<E>, D: Disk, R: Rng>(
    alloc: Global,
    from: &B,
    to: &mut D,
    _rng: &mut R,
) -> Result<u64, DbFault>
    requires { (B.state from.now).is_broken ≡ false }
    ensures fills { Fills flat_fill (B.state from.now).seen
        (with_words_to_come (D.state to.old) (R.stream _rng.old))
        (with_words_to_come (D.state to.new) (R.stream _rng.new)) result }
    ensures unharmed { LeavesDisk result to.old to.new }
    ensures rest { D.disk_rest to.old to.new }
{
    if let Some(fault) = pairs_fault(from) {
        return Err(fault);
    }
    let size = text_size(from);
    if size > FLAT_LIMIT {
        return Err(DbFault::Full { size });
    }
    let Ok(mut piece) = Piece::new(alloc) else {
        return Err(DbFault::NoMemory);
    };
    match replace_by(from, to, &mut piece) {
        Ok(()) => Ok(from.count()),
        Err(_) => Err(DbFault::DiskFault),
    }
}
