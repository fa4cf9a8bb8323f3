// The changes of a transaction, the first one and further ones.
ghost use Rattle.std.specs.Prelude.{◌≡◌, ◌≢◌, ◌≤◌, ◌<◌, ◌+◌, List, [], ℕ, Bool, true, length, take, slice_index, OnOk};
ghost use Rattle.base_devices.specs.Causes.{HasCause};
ghost use Rattle.base_devices.specs.CrashImages.{Shows, Reads};
ghost use Rattle.skip_form.specs.declared.header.Header as headers;
ghost use Rattle.skip_form.specs.Sizes.{record_size};
ghost use Rattle.skip_form.specs.Spelling.{IsHeader, header_bytes};
ghost use Rattle.skip_spec.specs.Appending.{Stores, Deletes, store_writes, delete_writes};
ghost use Rattle.skip_spec.specs.Chain.{Entry, pairs};
ghost use Rattle.skip_spec.specs.Live.{Live};
ghost use Rattle.skip_spec.specs.Opens.{Contents, HasDirty};
ghost use Rattle.skip_spec.specs.Place.{height};
ghost use Rattle.skip_lists.specs.Tie.{TiedBy, LeavesMap, StaysUpTo};
ghost use Rattle.skip_image.specs.Image.{image_limit, HasHeader};
ghost use Rattle.skip_change.specs.Changing.{HasSpot};
ghost use Rattle.skip_change.specs.Headers.{GetsDirty, EndsAt};

use crate::change::{delete, store};
use crate::header::begin_changes;
use crate::spot::Spot;
use base_devices::{Disk, Failed};
use skip_image::Image;

/// Sets DIRTY, unless the transaction has changed something before.
fn make_dirty<D: Disk>(disk: &mut D, image: &mut Image, changed: bool) -> Result<(), Failed>
    requires header { HasHeader image.old.bytes }
    requires there { 64 ≤ length image.old.bytes }
    requires dirty { changed ≡ true → HasDirty image.old.bytes }
    requires reads { Shows (D.state disk.old) → Reads (D.state disk.old) image.old.bytes }
    ensures dirty { GetsDirty image.old.bytes image.new.bytes }
    ensures spare { image.old.spare ≤ image.new.spare }
    ensures reads { OnOk result (Shows (D.state disk.new)
        → Reads (D.state disk.new) image.new.bytes) }
    ensures tied { (base : List ℕ) (says : Contents)
        → TiedBy base says image.old.bytes changed (D.state disk.old)
        → OnOk result (TiedBy base says image.new.bytes true (D.state disk.new)) }
    ensures moments { (base : List ℕ) (says : Contents)
        → TiedBy base says image.old.bytes changed (D.state disk.old)
        → LeavesMap (pairs says.chain) (D.state disk.old) (D.state disk.new) }
    ensures long { (most : ℕ) → length image.old.bytes ≤ most
        → StaysUpTo most (D.state disk.old) (D.state disk.new) }
    ensures written { (D.state disk.new).written ≤ (D.state disk.old).written + 64 }
    ensures publishes { (D.state disk.new).publishes ≡ (D.state disk.old).publishes }
    ensures mark { (D.state disk.new).mark ≡ (D.state disk.old).mark }
    ensures cause { HasCause (D.state disk.old).faults (D.state disk.new).faults result }
    ensures rest { D.disk_rest disk.old disk.new }
{
    if changed {
        return Ok(());
    }
    begin_changes(disk, image)?;
    Ok(())
}

/// Puts a pair within a transaction that began at a committed end, in a record of a level from 1 to
/// 31. The key has 1 to 65,534 bytes and the value at most 4,294,967,294. Where it is the first
/// change, DIRTY is set before. After an error image and disk are of no further use.
pub fn put_pair<D: Disk>(
    disk: &mut D,
    image: &mut Image,
    committed: u64,
    changed: bool,
    spot: &Spot,
    level: u8,
    key: &[u8],
    value: &[u8],
) -> Result<(), Failed>
    requires low { 1 ≤ level }
    requires high { level ≤ 31 }
    requires some { key.now ≢ [] }
    requires key { length key.now < 65535 }
    requires value { length value.now < 4294967295 }
    requires room { record_size level (length key.now) (length value.now) ≤ image.old.spare }
    requires limit { length image.old.bytes
        + record_size level (length key.now) (length value.now) ≤ image_limit }
    requires header { HasHeader image.old.bytes }
    requires dirty { changed ≡ true → HasDirty image.old.bytes }
    requires spot { HasSpot image.old.bytes key.now spot.now }
    requires reads { Shows (D.state disk.old) → Reads (D.state disk.old) image.old.bytes }
    ensures stores { OnOk result (Stores level key.now value.now image.old.bytes image.new.bytes) }
    ensures length { OnOk result (length image.new.bytes ≡ length image.old.bytes
        + record_size level (length key.now) (length value.now)) }
    ensures reads { OnOk result (Shows (D.state disk.new)
        → Reads (D.state disk.new) image.new.bytes) }
    ensures spare { image.old.spare
        ≤ image.new.spare + record_size level (length key.now) (length value.now) }
    ensures tied { (base : List ℕ) (says : Contents) → EndsAt says committed
        → TiedBy base says image.old.bytes changed (D.state disk.old)
        → OnOk result (TiedBy base says image.new.bytes true (D.state disk.new)) }
    ensures moments { (base : List ℕ) (says : Contents) → EndsAt says committed
        → TiedBy base says image.old.bytes changed (D.state disk.old)
        → LeavesMap (pairs says.chain) (D.state disk.old) (D.state disk.new) }
    ensures long { (most : ℕ)
        → length image.old.bytes + record_size level (length key.now) (length value.now) ≤ most
        → StaysUpTo most (D.state disk.old) (D.state disk.new) }
    ensures written { (s : HasSpot image.old.bytes key.now spot.now)
        → (D.state disk.new).written ≤ (D.state disk.old).written
        + store_writes (record_size level (length key.now) (length value.now)) level
        (height s.found.place.dropped) }
    ensures publishes { (D.state disk.new).publishes ≡ (D.state disk.old).publishes }
    ensures mark { (D.state disk.new).mark ≡ (D.state disk.old).mark }
    ensures cause { HasCause (D.state disk.old).faults (D.state disk.new).faults result }
    ensures rest { D.disk_rest disk.old disk.new }
{
    make_dirty(disk, image, changed)?;
    store(disk, image, committed, spot, level, key, value)?;
    Ok(())
}

/// Deletes the pair of a key that is there, within a transaction that began at a committed end.
/// Where it is the first change, DIRTY is set before. After an error image and disk are of no
/// further use.
pub fn take_out<D: Disk>(
    disk: &mut D,
    image: &mut Image,
    committed: u64,
    changed: bool,
    spot: &Spot,
) -> Result<(), Failed>
    requires room { 24 ≤ image.old.spare }
    requires limit { length image.old.bytes + 24 ≤ image_limit }
    requires there { spot.now.same_at ≢ 0 }
    requires header { HasHeader image.old.bytes }
    requires dirty { changed ≡ true → HasDirty image.old.bytes }
    requires spot { (key : List ℕ) × HasSpot image.old.bytes key spot.now }
    requires reads { Shows (D.state disk.old) → Reads (D.state disk.old) image.old.bytes }
    ensures deletes { (key : List ℕ) → HasSpot image.old.bytes key spot.now
        → OnOk result (Deletes key image.old.bytes image.new.bytes) }
    ensures length { OnOk result (length image.new.bytes ≡ length image.old.bytes + 24) }
    ensures reads { OnOk result (Shows (D.state disk.new)
        → Reads (D.state disk.new) image.new.bytes) }
    ensures spare { image.old.spare ≤ image.new.spare + 24 }
    ensures tied { (base : List ℕ) (says : Contents) → EndsAt says committed
        → TiedBy base says image.old.bytes changed (D.state disk.old)
        → OnOk result (TiedBy base says image.new.bytes true (D.state disk.new)) }
    ensures moments { (base : List ℕ) (says : Contents) → EndsAt says committed
        → TiedBy base says image.old.bytes changed (D.state disk.old)
        → LeavesMap (pairs says.chain) (D.state disk.old) (D.state disk.new) }
    ensures long { (most : ℕ) → length image.old.bytes + 24 ≤ most
        → StaysUpTo most (D.state disk.old) (D.state disk.new) }
    ensures written { (key : List ℕ) (s : HasSpot image.old.bytes key spot.now)
        → (D.state disk.new).written
        ≤ (D.state disk.old).written + delete_writes (height s.found.place.dropped) }
    ensures publishes { (D.state disk.new).publishes ≡ (D.state disk.old).publishes }
    ensures mark { (D.state disk.new).mark ≡ (D.state disk.old).mark }
    ensures cause { HasCause (D.state disk.old).faults (D.state disk.new).faults result }
    ensures rest { D.disk_rest disk.old disk.new }
{
    make_dirty(disk, image, changed)?;
    delete(disk, image, committed, spot)?;
    Ok(())
}
