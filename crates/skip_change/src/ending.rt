// A transaction that has changed something is committed.
ghost use Rattle.std.specs.Prelude.{◌≡◌, ◌⊎◌, ◌≤◌, ◌+◌, ◌++◌, List, [], ◌∷◌, ℕ, length, true, OnOk};
ghost use Rattle.base_devices.specs.Causes.{HasCause};
ghost use Rattle.base_devices.specs.CrashImages.{Shows, Reads, IsDurable};
ghost use Rattle.skip_form.specs.Spelling.{record_bytes};
ghost use Rattle.skip_spec.specs.Appending as appending;
ghost use Rattle.skip_spec.specs.Appending.{Commits};
ghost use Rattle.skip_spec.specs.Chain.{Entry, pairs};
ghost use Rattle.skip_spec.specs.Live.{Live, live_under, map_under};
ghost use Rattle.skip_spec.specs.Opens.{Contents, Opens};
ghost use Rattle.skip_lists.specs.Tie.{TiedBy, LeavesMap, LeavesEach, StaysUpTo};
ghost use Rattle.skip_image.specs.Image.{image_limit, HasHeader};
ghost use Rattle.skip_change.specs.Headers.{IsLive, IsCommittedAs};

use crate::append::write_record;
use crate::header::put_header;
use base_devices::{Disk, Failed};
use skip_form::{Header, Kind};
use skip_image::Image;

/// Appends the commit record of a transaction whose records begin at an offset, and waits until the
/// file is on the disk.
fn end_log<D: Disk>(disk: &mut D, image: &mut Image, start: u64) -> Result<(), Failed>
    requires room { 24 ≤ image.old.spare }
    requires limit { length image.old.bytes + 24 ≤ image_limit }
    requires live { IsLive image.old.bytes }
    requires reads { Shows (D.state disk.old) → Reads (D.state disk.old) image.old.bytes }
    ensures bytes { image.new.bytes
        ≡ image.old.bytes ++ record_bytes (appending.commit_record start) }
    ensures live { (starts : List ℕ) (es : List Entry) → Live image.old.bytes starts es
        → Live image.new.bytes (starts ++ length image.old.bytes ∷ []) es }
    ensures length { length image.new.bytes ≡ length image.old.bytes + 24 }
    ensures reads { OnOk result (Shows (D.state disk.new)
        → Reads (D.state disk.new) image.new.bytes) }
    ensures durable { OnOk result (IsDurable (D.state disk.new)) }
    ensures tied { (base : List ℕ) (says : Contents)
        → TiedBy base says image.old.bytes true (D.state disk.old)
        → OnOk result (TiedBy base says image.new.bytes true (D.state disk.new)) }
    ensures moments { (base : List ℕ) (says : Contents)
        → TiedBy base says image.old.bytes true (D.state disk.old)
        → LeavesMap (pairs says.chain) (D.state disk.old) (D.state disk.new) }
    ensures long { (most : ℕ) → length image.new.bytes ≤ most
        → StaysUpTo most (D.state disk.old) (D.state disk.new) }
    ensures written { (D.state disk.new).written ≤ (D.state disk.old).written + 24 }
    ensures publishes { (D.state disk.new).publishes ≡ (D.state disk.old).publishes }
    ensures mark { (D.state disk.new).mark ≡ (D.state disk.old).mark }
    ensures cause { HasCause (D.state disk.old).faults (D.state disk.new).faults result }
    ensures rest { D.disk_rest disk.old disk.new }
{
    write_record(disk, image, Kind::Commit, 0, &[start], &[], &[])?;
    disk.sync()?;
    Ok(())
}

/// Commits what has changed, where the live records are so many: a commit record, and once that is
/// on the disk the header, without DIRTY. After an error image and disk are of no further use.
pub fn commit<D: Disk>(disk: &mut D, image: &mut Image, count: u64) -> Result<(), Failed>
    requires room { 24 ≤ image.old.spare }
    requires limit { length image.old.bytes + 24 ≤ image_limit }
    requires header { HasHeader image.old.bytes }
    requires live { IsLive image.old.bytes }
    requires counted { count ≡ length (live_under image.old.bytes (length image.old.bytes)) }
    requires reads { Shows (D.state disk.old) → Reads (D.state disk.old) image.old.bytes }
    ensures commits { OnOk result (Commits image.old.bytes image.new.bytes) }
    ensures length { OnOk result (length image.new.bytes ≡ length image.old.bytes + 24) }
    ensures reads { OnOk result (Shows (D.state disk.new)
        → Reads (D.state disk.new) image.new.bytes) }
    ensures tied { (base : List ℕ) (says : Contents)
        → TiedBy base says image.old.bytes true (D.state disk.old)
        → OnOk result (IsCommittedAs image.old.bytes image.new.bytes (D.state disk.new)) }
    // A stop leaves all of the transaction or nothing of it.
    ensures moments { (base : List ℕ) (says : Contents)
        → TiedBy base says image.old.bytes true (D.state disk.old)
        → LeavesEach (λ file. Opens file (pairs says.chain)
        ⊎ Opens file (map_under image.old.bytes (length image.old.bytes)))
        (D.state disk.old) (D.state disk.new) }
    ensures long { (most : ℕ) → length image.old.bytes + 24 ≤ most
        → StaysUpTo most (D.state disk.old) (D.state disk.new) }
    ensures written { (D.state disk.new).written ≤ (D.state disk.old).written + 88 }
    ensures publishes { (D.state disk.new).publishes ≡ (D.state disk.old).publishes }
    ensures mark { (D.state disk.new).mark ≡ (D.state disk.old).mark }
    ensures cause { HasCause (D.state disk.old).faults (D.state disk.new).faults result }
    ensures rest { D.disk_rest disk.old disk.new }
{
    let header = image.header();
    end_log(disk, image, header.current_size)?;
    let committed = Header {
        num_records: count,
        current_size: image.length(),
        flags: header.flags / 2 * 2,
        ..header
    };
    put_header(disk, image, &committed)?;
    Ok(())
}
