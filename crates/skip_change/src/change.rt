// A pair is stored, or deleted, in the bytes and in the file.
ghost use Rattle.std.specs.Prelude.{◌≡◌, ◌≢◌, ◌≤◌, ◌<◌, ◌+◌, ◌*◌, List, [], ℕ, length, max, OnOk};
ghost use Rattle.base_devices.specs.Causes.{HasCause};
ghost use Rattle.base_devices.specs.CrashImages.{Shows, Reads};
ghost use Rattle.skip_form.specs.Sizes.{record_size};
ghost use Rattle.skip_spec.specs.Chain.{pairs};
ghost use Rattle.skip_spec.specs.Opens.{Contents};
ghost use Rattle.skip_spec.specs.Place.{height};
ghost use Rattle.skip_lists.specs.Tie.{LeavesMap, StaysUpTo};
ghost use Rattle.skip_image.specs.Image.{image_limit};
ghost use Rattle.skip_change.specs.Changing.{HasSpot, IsStored, IsDeleted, IsTied};

use crate::levels::{place_record, relink};
use crate::spot::{Spot, height_at, level_at, pointers_past, toward};
use base_devices::{Disk, Failed};
use skip_form::Kind;
use skip_image::Image;

/// Puts a pair of a level from 1 to 31, in place of the one of the same key if there is one. The
/// bytes have DIRTY, and room for the record.
pub(crate) fn store<D: Disk>(
    disk: &mut D,
    image: &mut Image,
    committed: u64,
    spot: &Spot,
    level: u8,
    key: &[u8],
    value: &[u8],
) -> Result<(), Failed>
    requires low { 1 ≤ level }
    requires high { level ≤ 31 }
    requires some { key.now ≢ [] }
    requires key { length key.now < 65535 }
    requires value { length value.now < 4294967295 }
    requires room { record_size level (length key.now) (length value.now) ≤ image.old.spare }
    requires limit { length image.old.bytes
        + record_size level (length key.now) (length value.now) ≤ image_limit }
    requires spot { HasSpot image.old.bytes key.now spot.now }
    requires reads { Shows (D.state disk.old) → Reads (D.state disk.old) image.old.bytes }
    ensures stored { (s : HasSpot image.old.bytes key.now spot.now)
        → OnOk result (IsStored level value.now image.old.bytes image.new.bytes s) }
    ensures length { length image.new.bytes
        ≡ length image.old.bytes + record_size level (length key.now) (length value.now) }
    ensures spare { image.old.spare
        ≤ image.new.spare + record_size level (length key.now) (length value.now) }
    ensures reads { OnOk result (Shows (D.state disk.new)
        → Reads (D.state disk.new) image.new.bytes) }
    ensures tied { (base : List ℕ) (says : Contents)
        → IsTied base says committed image.old.bytes (D.state disk.old)
        → OnOk result (IsTied base says committed image.new.bytes (D.state disk.new)) }
    ensures moments { (base : List ℕ) (says : Contents)
        → IsTied base says committed image.old.bytes (D.state disk.old)
        → LeavesMap (pairs says.chain) (D.state disk.old) (D.state disk.new) }
    ensures long { (most : ℕ) → length image.new.bytes ≤ most
        → StaysUpTo most (D.state disk.old) (D.state disk.new) }
    // No more than the record, and one head for each level of the greater of the two.
    ensures written { (s : HasSpot image.old.bytes key.now spot.now)
        → (D.state disk.new).written ≤ (D.state disk.old).written
        + record_size level (length key.now) (length value.now)
        + 272 * max level (height s.found.place.dropped) }
    ensures publishes { (D.state disk.new).publishes ≡ (D.state disk.old).publishes }
    ensures mark { (D.state disk.new).mark ≡ (D.state disk.old).mark }
    ensures cause { HasCause (D.state disk.old).faults (D.state disk.new).faults result }
    ensures rest { D.disk_rest disk.old disk.new }
{
    let end = image.length();
    let height = height_at(image.bytes(), spot, level);
    let pointers = pointers_past(image.bytes(), spot, height);
    let leads = toward(&pointers, level, end);
    place_record(
        disk,
        image,
        committed,
        spot.before[0],
        Kind::Put,
        level,
        &pointers[..level as usize + 1],
        key,
        value,
    )?;
    relink(disk, image, &spot.before, &leads, height)?;
    Ok(())
}

/// Deletes the pair of a key that is there. The bytes have DIRTY, and room for the record.
pub(crate) fn delete<D: Disk>(
    disk: &mut D,
    image: &mut Image,
    committed: u64,
    spot: &Spot,
) -> Result<(), Failed>
    requires room { 24 ≤ image.old.spare }
    requires limit { length image.old.bytes + 24 ≤ image_limit }
    requires there { spot.now.same_at ≢ 0 }
    requires spot { (key : List ℕ) × HasSpot image.old.bytes key spot.now }
    requires reads { Shows (D.state disk.old) → Reads (D.state disk.old) image.old.bytes }
    ensures deleted { (key : List ℕ) (s : HasSpot image.old.bytes key spot.now)
        → OnOk result (IsDeleted image.old.bytes image.new.bytes s) }
    ensures length { length image.new.bytes ≡ length image.old.bytes + 24 }
    ensures spare { image.old.spare ≤ image.new.spare + 24 }
    ensures reads { OnOk result (Shows (D.state disk.new)
        → Reads (D.state disk.new) image.new.bytes) }
    ensures tied { (base : List ℕ) (says : Contents)
        → IsTied base says committed image.old.bytes (D.state disk.old)
        → OnOk result (IsTied base says committed image.new.bytes (D.state disk.new)) }
    ensures moments { (base : List ℕ) (says : Contents)
        → IsTied base says committed image.old.bytes (D.state disk.old)
        → LeavesMap (pairs says.chain) (D.state disk.old) (D.state disk.new) }
    ensures long { (most : ℕ) → length image.new.bytes ≤ most
        → StaysUpTo most (D.state disk.old) (D.state disk.new) }
    // No more than the delete record, and one head for each level of the deleted one.
    ensures written { (key : List ℕ) (s : HasSpot image.old.bytes key spot.now)
        → (D.state disk.new).written
        ≤ (D.state disk.old).written + 24 + 272 * height s.found.place.dropped }
    ensures publishes { (D.state disk.new).publishes ≡ (D.state disk.old).publishes }
    ensures mark { (D.state disk.new).mark ≡ (D.state disk.old).mark }
    ensures cause { HasCause (D.state disk.old).faults (D.state disk.new).faults result }
    ensures rest { D.disk_rest disk.old disk.new }
{
    let height = level_at(image.bytes(), spot.same_at);
    let pointers = pointers_past(image.bytes(), spot, height);
    place_record(
        disk,
        image,
        committed,
        spot.before[0],
        Kind::Gone,
        0,
        &[spot.next],
        &[],
        &[],
    )?;
    relink(disk, image, &spot.before, &pointers, height)?;
    Ok(())
}
