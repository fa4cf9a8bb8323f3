// The header is written.
ghost use Rattle.std.specs.Prelude.{◌≡◌, ◌≤◌, ◌+◌, List, ℕ, length, take, true, false, OnOk};
ghost use Rattle.base_bytes.specs.Landing.{written_at};
ghost use Rattle.base_devices.specs.Causes.{HasCause};
ghost use Rattle.base_devices.specs.CrashImages.{Shows, Reads, IsDurable};
ghost use Rattle.skip_form.specs.declared.header.Header as headers;
ghost use Rattle.skip_form.specs.Spelling.{IsHeader, header_bytes};
ghost use Rattle.skip_spec.specs.Chain.{Entry, pairs};
ghost use Rattle.skip_spec.specs.Live.{Live};
ghost use Rattle.skip_spec.specs.Opens.{Contents, with_dirty};
ghost use Rattle.skip_lists.specs.Tie.{TiedBy, LeavesMap, StaysUpTo};
ghost use Rattle.skip_image.specs.Image.{HasHeader};
ghost use Rattle.skip_change.specs.Headers.{HaveHeaders, LeavesHeader};

use base_devices::{Disk, Failed};
use skip_form::{Header, write_header};
use skip_image::Image;

/// Writes over the header of the bytes and of the file, and waits until it is on the disk.
pub(crate) fn put_header<D: Disk>(
    disk: &mut D,
    image: &mut Image,
    header: &Header,
) -> Result<(), Failed>
    requires version { header.now.version ≡ 1 }
    requires there { 64 ≤ length image.old.bytes }
    requires reads { Shows (D.state disk.old) → Reads (D.state disk.old) image.old.bytes }
    ensures bytes { image.new.bytes ≡ written_at 0 (header_bytes header.now) image.old.bytes }
    ensures spare { image.old.spare ≤ image.new.spare }
    ensures reads { OnOk result (Shows (D.state disk.new)
        → Reads (D.state disk.new) image.new.bytes) }
    ensures durable { OnOk result (IsDurable (D.state disk.new)) }
    // The header lands whole or not at all.
    ensures moments { HaveHeaders (D.state disk.old)
        → LeavesHeader (header_bytes header.now) (D.state disk.old) (D.state disk.new) }
    ensures long { (most : ℕ) → length image.old.bytes ≤ most
        → StaysUpTo most (D.state disk.old) (D.state disk.new) }
    ensures written { (D.state disk.new).written ≤ (D.state disk.old).written + 64 }
    ensures publishes { (D.state disk.new).publishes ≡ (D.state disk.old).publishes }
    ensures mark { (D.state disk.new).mark ≡ (D.state disk.old).mark }
    ensures cause { HasCause (D.state disk.old).faults (D.state disk.new).faults result }
    ensures rest { D.disk_rest disk.old disk.new }
{
    let bytes = write_header(header);
    image.patch(0, &bytes);
    disk.write_at(0, &bytes)?;
    disk.sync()?;
    Ok(())
}

/// The first change of a transaction: the header gets DIRTY, and that is on the disk before
/// anything else is written.
pub(crate) fn begin_changes<D: Disk>(disk: &mut D, image: &mut Image) -> Result<(), Failed>
    requires header { HasHeader image.old.bytes }
    requires there { 64 ≤ length image.old.bytes }
    requires reads { Shows (D.state disk.old) → Reads (D.state disk.old) image.old.bytes }
    ensures dirty { (h : headers.Header) → IsHeader h → take 64 image.old.bytes ≡ header_bytes h
        → image.new.bytes ≡ written_at 0 (header_bytes (with_dirty h)) image.old.bytes }
    ensures live { (starts : List ℕ) (es : List Entry) → Live image.old.bytes starts es
        → Live image.new.bytes starts es }
    ensures length { length image.new.bytes ≡ length image.old.bytes }
    ensures spare { image.old.spare ≤ image.new.spare }
    ensures reads { OnOk result (Shows (D.state disk.new)
        → Reads (D.state disk.new) image.new.bytes) }
    ensures tied { (base : List ℕ) (says : Contents)
        → TiedBy base says image.old.bytes false (D.state disk.old)
        → OnOk result (TiedBy base says image.new.bytes true (D.state disk.new)) }
    ensures moments { (base : List ℕ) (says : Contents)
        → TiedBy base says image.old.bytes false (D.state disk.old)
        → LeavesMap (pairs says.chain) (D.state disk.old) (D.state disk.new) }
    ensures long { (most : ℕ) → length image.old.bytes ≤ most
        → StaysUpTo most (D.state disk.old) (D.state disk.new) }
    ensures written { (D.state disk.new).written ≤ (D.state disk.old).written + 64 }
    ensures publishes { (D.state disk.new).publishes ≡ (D.state disk.old).publishes }
    ensures mark { (D.state disk.new).mark ≡ (D.state disk.old).mark }
    ensures cause { HasCause (D.state disk.old).faults (D.state disk.new).faults result }
    ensures rest { D.disk_rest disk.old disk.new }
{
    let header = image.header();
    let dirty = Header {
        flags: header.flags / 2 * 2 + 1,
        ..header
    };
    put_header(disk, image, &dirty)?;
    Ok(())
}
