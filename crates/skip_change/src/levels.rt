// A record is placed, and the levels are led to it or past its place. One head may lead on several levels that follow
// one another: its pointers are set in memory, and it is written once, before another one is set.
ghost use Rattle.std.specs.Prelude.{◌≡◌, ◌≢◌, ◌≤◌, ◌<◌, ◌+◌, ◌*◌, List, ℕ, length, slice_index, OnOk};
ghost use Rattle.base_devices.specs.Causes.{HasCause};
ghost use Rattle.base_devices.specs.CrashImages.{Shows, Reads};
ghost use Rattle.skip_form.specs.declared.head.Kind.TheVariants.{Dummy};
ghost use Rattle.skip_form.specs.Sizes.{record_size};
ghost use Rattle.skip_form.specs.Spelling.{IsLevelOf, AreLengthsOf};
ghost use Rattle.skip_spec.specs.Appending.{record_of};
ghost use Rattle.skip_spec.specs.Chain.{pairs};
ghost use Rattle.skip_spec.specs.Near.{heads};
ghost use Rattle.skip_spec.specs.Opens.{Contents, Tidy};
ghost use Rattle.skip_spec.specs.Rows.{IsAmong};
ghost use Rattle.skip_lists.specs.Heads.{HasSlots};
ghost use Rattle.skip_lists.specs.Tie.{TiedToBase, AreKnown, LeavesMap, StaysUpTo};
ghost use Rattle.skip_image.specs.HeadWrites.{ReadsButHead, IsAhead};
ghost use Rattle.skip_image.specs.Image.{image_limit};
ghost use Rattle.skip_change.specs.Changing.{Places, IsKnown, Swap, listed_by, IsBegun, IsRelinked};

use crate::append::write_record;
use base_devices::{Disk, Failed};
use skip_form::Kind;
use skip_image::Image;

/// Appends a record, and leads the record at an offset to it on level zero, in memory.
pub(crate) fn place_record<D: Disk>(
    disk: &mut D,
    image: &mut Image,
    committed: u64,
    at: u64,
    kind: Kind,
    level: u8,
    pointers: &[u64],
    key: &[u8],
    value: &[u8],
) -> Result<(), Failed>
    requires kind { kind ≢ Dummy }
    requires level { IsLevelOf kind level }
    requires lengths { AreLengthsOf kind (length key.now) (length value.now) }
    requires pointers { length pointers.now ≡ level + 1 }
    requires room { record_size level (length key.now) (length value.now) ≤ image.old.spare }
    requires limit { length image.old.bytes
        + record_size level (length key.now) (length value.now) ≤ image_limit }
    requires there { HasSlots image.old.bytes at }
    requires past { 336 ≤ length image.old.bytes }
    requires reads { Shows (D.state disk.old) → Reads (D.state disk.old) image.old.bytes }
    ensures placed { OnOk result (Places committed at
        (record_of kind level pointers.now key.now value.now) image.old.bytes image.new.bytes) }
    ensures length { length image.new.bytes
        ≡ length image.old.bytes + record_size level (length key.now) (length value.now) }
    ensures spare { image.old.spare
        ≤ image.new.spare + record_size level (length key.now) (length value.now) }
    ensures reads { OnOk result (Shows (D.state disk.new)
        → ReadsButHead (D.state disk.new) image.new.bytes at) }
    ensures tied { (base : List ℕ) (says : Contents)
        → TiedToBase base says image.old.bytes (D.state disk.old)
        → Tidy base says → IsKnown says committed at
        → OnOk result (IsAhead base says image.new.bytes at (D.state disk.new)) }
    ensures moments { (base : List ℕ) (says : Contents)
        → TiedToBase base says image.old.bytes (D.state disk.old)
        → Tidy base says → IsKnown says committed at
        → LeavesMap (pairs says.chain) (D.state disk.old) (D.state disk.new) }
    ensures long { (most : ℕ) → length image.new.bytes ≤ most
        → StaysUpTo most (D.state disk.old) (D.state disk.new) }
    ensures written { (D.state disk.new).written ≤ (D.state disk.old).written
        + record_size level (length key.now) (length value.now) }
    ensures publishes { (D.state disk.new).publishes ≡ (D.state disk.old).publishes }
    ensures mark { (D.state disk.new).mark ≡ (D.state disk.old).mark }
    ensures cause { HasCause (D.state disk.old).faults (D.state disk.new).faults result }
    ensures rest { D.disk_rest disk.old disk.new }
{
    let end = image.length();
    let slot = image.free_slot(at, committed);
    write_record(disk, image, kind, level, pointers, key, value)?;
    image.set_pointer(at, slot, end);
    Ok(())
}

/// Writes the head at an offset, unless it is the one that is set next.
fn leave_head<D: Disk>(disk: &mut D, image: &Image, at: u64, next: u64) -> Result<(), Failed>
    requires there { HasSlots image.now.bytes at }
    requires reads { Shows (D.state disk.old)
        → ReadsButHead (D.state disk.old) image.now.bytes at }
    ensures reads { OnOk result (Shows (D.state disk.new)
        → ReadsButHead (D.state disk.new) image.now.bytes next) }
    ensures tied { (base : List ℕ) (says : Contents)
        → IsAhead base says image.now.bytes at (D.state disk.old)
        → (next < says.header.current_size → IsAmong (heads says) next)
        → OnOk result (IsAhead base says image.now.bytes next (D.state disk.new)) }
    ensures moments { (base : List ℕ) (says : Contents)
        → IsAhead base says image.now.bytes at (D.state disk.old)
        → LeavesMap (pairs says.chain) (D.state disk.old) (D.state disk.new) }
    ensures long { (most : ℕ) → length image.now.bytes ≤ most
        → StaysUpTo most (D.state disk.old) (D.state disk.new) }
    ensures written { (D.state disk.new).written ≤ (D.state disk.old).written + 272 }
    ensures publishes { (D.state disk.new).publishes ≡ (D.state disk.old).publishes }
    ensures mark { (D.state disk.new).mark ≡ (D.state disk.old).mark }
    ensures cause { HasCause (D.state disk.old).faults (D.state disk.new).faults result }
    ensures rest { D.disk_rest disk.old disk.new }
{
    if at == next {
        return Ok(());
    }
    image.write_head(disk, at)?;
    Ok(())
}

/// On each upper level below a height, leads the record before a place to another. The head of level zero was set in
/// memory, and is written too.
pub(crate) fn relink<D: Disk>(
    disk: &mut D,
    image: &mut Image,
    before: &[u64; 31],
    leads: &[u64; 32],
    height: u8,
) -> Result<(), Failed>
    requires low { 1 ≤ height }
    requires height { height ≤ 31 }
    requires begun { (s : Swap) × IsBegun image.old.bytes before.now leads.now height s }
    requires reads { Shows (D.state disk.old)
        → ReadsButHead (D.state disk.old) image.old.bytes (slice_index before.now 0) }
    ensures relinked { (s : Swap) → IsBegun image.old.bytes before.now leads.now height s
        → OnOk result (IsRelinked image.old.bytes image.new.bytes height s) }
    ensures length { length image.new.bytes ≡ length image.old.bytes }
    ensures spare { image.old.spare ≤ image.new.spare }
    ensures reads { OnOk result (Shows (D.state disk.new)
        → Reads (D.state disk.new) image.new.bytes) }
    ensures tied { (base : List ℕ) (says : Contents) (s : Swap)
        → IsAhead base says image.old.bytes (slice_index before.now 0) (D.state disk.old)
        → AreKnown says (listed_by s) → IsBegun image.old.bytes before.now leads.now height s
        → OnOk result (TiedToBase base says image.new.bytes (D.state disk.new)) }
    ensures moments { (base : List ℕ) (says : Contents) (s : Swap)
        → IsAhead base says image.old.bytes (slice_index before.now 0) (D.state disk.old)
        → AreKnown says (listed_by s) → IsBegun image.old.bytes before.now leads.now height s
        → LeavesMap (pairs says.chain) (D.state disk.old) (D.state disk.new) }
    ensures long { (most : ℕ) → length image.new.bytes ≤ most
        → StaysUpTo most (D.state disk.old) (D.state disk.new) }
    ensures written { (D.state disk.new).written
        ≤ (D.state disk.old).written + 272 * height }
    ensures publishes { (D.state disk.new).publishes ≡ (D.state disk.old).publishes }
    ensures mark { (D.state disk.new).mark ≡ (D.state disk.old).mark }
    ensures cause { HasCause (D.state disk.old).faults (D.state disk.new).faults result }
    ensures rest { D.disk_rest disk.old disk.new }
{
    for level in 1..height {
        let at = before[level as usize];
        leave_head(disk, image, before[level as usize - 1], at)?;
        image.set_pointer(at, level + 1, leads[level as usize + 1]);
    }
    image.write_head(disk, before[height as usize - 1])?;
    Ok(())
}
