// The end of a repair: the file is cut to the committed end, and then its header commits.
ghost use Rattle.std.specs.Prelude.{◌≡◌, ◌≤◌, ◌+◌, ℕ, List, length, take, OnOk};
ghost use Rattle.base_devices.specs.Causes.{HasCause};
ghost use Rattle.base_devices.specs.CrashImages.{Shows, Reads, IsDurable};
ghost use Rattle.skip_form.specs.declared.header.Header as headers;
ghost use Rattle.skip_form.specs.Spelling.{IsHeader, header_bytes};
ghost use Rattle.skip_spec.specs.Chain.{pairs};
ghost use Rattle.skip_spec.specs.Opens as opens;
ghost use Rattle.skip_spec.specs.Opens.{Contents, Tidy};
ghost use Rattle.skip_spec.specs.Recovery.{clean_header, recovered};
ghost use Rattle.skip_lists.specs.Repair.{IsLinked};
ghost use Rattle.skip_lists.specs.Tie.{TiedToBase, LeavesMap};
ghost use Rattle.skip_image.specs.Image.{HasHeader};
ghost use Rattle.skip_recover.specs.Places.{RepairsInPlace};

use base_devices::{Disk, Failed};
use skip_form::{Header, write_header};
use skip_image::Image;

/// Cuts the file to its committed end, and waits until it is on the disk.
pub(crate) fn cut_to_end<D: Disk>(image: &mut Image, disk: &mut D, end: u64) -> Result<(), Failed>
    requires inside { end ≤ length image.old.bytes }
    requires reads { Shows (D.state disk.old) → Reads (D.state disk.old) image.old.bytes }
    ensures done { (base : List ℕ) (says : Contents)
        → TiedToBase base says image.old.bytes (D.state disk.old) → says.header.current_size ≡ end
        → OnOk result (TiedToBase base says image.new.bytes (D.state disk.new)) }
    ensures durable { OnOk result (IsDurable (D.state disk.new)) }
    ensures moments { (base : List ℕ) (says : Contents)
        → TiedToBase base says image.old.bytes (D.state disk.old) → says.header.current_size ≡ end
        → LeavesMap (pairs says.chain) (D.state disk.old) (D.state disk.new) }
    ensures bytes { image.new.bytes ≡ take end image.old.bytes }
    ensures written { (D.state disk.new).written ≡ (D.state disk.old).written }
    ensures place { RepairsInPlace image.old.bytes image.new.bytes
        (D.state disk.old) (D.state disk.new) }
    ensures cause { HasCause (D.state disk.old).faults (D.state disk.new).faults result }
    ensures rest { D.disk_rest disk.old disk.new }
{
    image.shorten(end);
    disk.cut(end)?;
    disk.sync()?;
    Ok(())
}

/// The file's header without DIRTY, with so many records.
fn cleaned(image: &Image, count: u64) -> [u8; 64]
    requires { HasHeader image.now.bytes }
    ensures bytes { (h : headers.Header) → IsHeader h → take 64 image.now.bytes ≡ header_bytes h
        → result ≡ header_bytes (clean_header h count) }
    ensures size { length result ≡ 64 }
{
    let header = image.header();
    write_header(&Header {
        num_records: count,
        flags: header.flags / 2 * 2,
        ..header
    })
}

/// Writes the header that commits, and waits until it is on the disk.
pub(crate) fn finish<D: Disk>(image: &mut Image, disk: &mut D, count: u64) -> Result<(), Failed>
    requires header { HasHeader image.old.bytes }
    requires long { 64 ≤ length image.old.bytes }
    requires reads { Shows (D.state disk.old) → Reads (D.state disk.old) image.old.bytes }
    requires durable { IsDurable (D.state disk.old) }
    ensures done { (base : List ℕ) (says : Contents)
        → TiedToBase base says image.old.bytes (D.state disk.old) → IsLinked says image.old.bytes
        → length image.old.bytes ≡ says.header.current_size → count ≡ length says.chain
        → OnOk result (opens.Reads image.new.bytes (recovered says)
        × Tidy image.new.bytes (recovered says)) }
    ensures reads { OnOk result
        (Shows (D.state disk.new) → Reads (D.state disk.new) image.new.bytes) }
    ensures durable { OnOk result (IsDurable (D.state disk.new)) }
    ensures moments { (base : List ℕ) (says : Contents)
        → TiedToBase base says image.old.bytes (D.state disk.old) → IsLinked says image.old.bytes
        → length image.old.bytes ≡ says.header.current_size → count ≡ length says.chain
        → LeavesMap (pairs says.chain) (D.state disk.old) (D.state disk.new) }
    ensures written { (D.state disk.new).written ≤ (D.state disk.old).written + 64 }
    ensures place { RepairsInPlace image.old.bytes image.new.bytes
        (D.state disk.old) (D.state disk.new) }
    ensures cause { HasCause (D.state disk.old).faults (D.state disk.new).faults result }
    ensures rest { D.disk_rest disk.old disk.new }
{
    let header = cleaned(image, count);
    image.patch(0, &header);
    disk.write_at(0, &header)?;
    disk.sync()?;
    Ok(())
}
