// A new file is filled with the pairs of a database, as a fresh layout with random levels.
ghost use Rattle.std.specs.Prelude.{◌≡◌, None, IfOk, IfErr, OnOk, false, length};
ghost use Rattle.base_bytes.specs.declared.limits.TheConstants.{SKIP_LIMIT};
ghost use Rattle.db_core.specs.Refusals.{IsDiskFault, LeavesDisk};
ghost use Rattle.db_fill.specs.Filling.{DrawsUpTo, Fills, MayRefuse, fill_refusal, left_after, pairs_refusal, with_words_to_come};
ghost use Rattle.skip_layout.specs.Items.{items_in};
ghost use Rattle.twoskip.specs.Filling.{FillsConvert, items_by, skip_fill};

use crate::replacing::replace_by;
use base_bytes::{NoMemory, SKIP_LIMIT};
use base_devices::Disk;
use db_core::{Db, DbFault};
use db_fill::pairs_fault;
use rand_core::Rng;
use skip_form::level_of;
use skip_image::Image;
use skip_layout::{LayoutItem, lay_out, layout_size};
use std::alloc::Global;

// The generation of a file that is made.
const FIRST_GENERATION: u64 = 1;

// The pairs of the map seen, each with the level of a random word of its own.
fn drawn_items<'a, E: Disk, B: Db<E>, R: Rng>(
    alloc: Global,
    from: &'a B,
    rng: &mut R,
) -> Result<Vec<LayoutItem<'a>>, NoMemory>
    requires { (B.state from.now).is_broken ≡ false }
    ensures items { IfOk result (λ items. items_in items.items
        ≡ items_by (B.state from.now).seen (R.stream rng.old)) }
    ensures all_drawn { OnOk result (R.stream rng.new
        ≡ left_after (length (B.state from.now).seen) (R.stream rng.old)) }
    ensures drawn { DrawsUpTo (length (B.state from.now).seen)
        (R.stream rng.old) (R.stream rng.new) }
{
    let count = from.count();
    let mut items = Vec::new(alloc);
    let Ok(()) = items.reserve(count as usize) else {
        return Err(NoMemory);
    };
    let mut cursor = from.walk_from(b"");
    for _ in 0..count {
        let Some(step) = from.step(cursor) else {
            break;
        };
        let level = level_of(rng.next_u32());
        let (key, value) = (step.pair.key, step.pair.value);
        let Ok(()) = items.push(LayoutItem { level, key, value }) else {
            return Err(NoMemory);
        };
        cursor = step.next;
    }
    Ok(items)
}

// The file of the map seen, in memory.
fn fresh_image<E: Disk, B: Db<E>, R: Rng>(
    alloc: Global,
    from: &B,
    rng: &mut R,
) -> Result<Image, DbFault>
    requires sound { (B.state from.now).is_broken ≡ false }
    requires fits { pairs_refusal (B.state from.now).seen ≡ None }
    ensures bytes { IfOk result (λ image. image.bytes
        ≡ skip_fill.file_of (B.state from.now).seen (R.stream rng.old)) }
    ensures allowed { OnOk result
        (fill_refusal skip_fill (B.state from.now).seen (R.stream rng.old) ≡ None) }
    ensures refused { IfErr result (λ fault. ¬ IsDiskFault fault
        × MayRefuse skip_fill (B.state from.now).seen (R.stream rng.old) fault) }
    ensures all_drawn { OnOk result (R.stream rng.new
        ≡ left_after (length (B.state from.now).seen) (R.stream rng.old)) }
    ensures drawn { DrawsUpTo (length (B.state from.now).seen)
        (R.stream rng.old) (R.stream rng.new) }
{
    let Ok(items) = drawn_items(alloc, from, rng) else {
        return Err(DbFault::NoMemory);
    };
    let size = layout_size(&items);
    if size > SKIP_LIMIT {
        return Err(DbFault::Full { size });
    }
    let Ok(file) = lay_out(alloc, FIRST_GENERATION, 0, &items) else {
        return Err(DbFault::NoMemory);
    };
    match Image::of(alloc, file) {
        Ok(image) => Ok(image),
        Err(_) => Err(DbFault::NoMemory),
    }
}

/// Publishes a twoskip file of the map seen of another database, whatever its kind, and answers how many pairs it has.
/// It draws one `next_u32` word for each pair, by rising key, whose trailing one bits give the level of its record.
///
/// `KeyTooLong` and `ValueTooLong` are of the first pair, by rising key, whose key or value is too long; `Full` has the
/// size that the file would have, at most 2^64 - 1. A refusal but `DiskFault` leaves the disk alone. Wherever it
/// stops, the file is one that could be left before, or the whole new one, and after Ok only the new one.
pub fn fill<E: Disk, B: Db<E>, D: Disk, R: Rng>(
    alloc: Global,
    from: &B,
    to: &mut D,
    rng: &mut R,
) -> Result<u64, DbFault>
    requires { (B.state from.now).is_broken ≡ false }
    ensures fills { Fills skip_fill (B.state from.now).seen
        (with_words_to_come (D.state to.old) (R.stream rng.old))
        (with_words_to_come (D.state to.new) (R.stream rng.new)) result }
    ensures unharmed { LeavesDisk result to.old to.new }
    ensures rest { D.disk_rest to.old to.new }
{
    if let Some(fault) = pairs_fault(from) {
        return Err(fault);
    }
    let image = match fresh_image(alloc, from, rng) {
        Ok(image) => image,
        Err(fault) => return Err(fault),
    };
    match replace_by(&image, to) {
        Ok(()) => Ok(from.count()),
        Err(_) => Err(DbFault::DiskFault),
    }
}

/// The file that a fill publishes is the one to which the map is converted, by the words that were drawn.
pub fn fills_convert()
    ensures { FillsConvert }
{}
