// A head is made tidy.
ghost use Rattle.std.specs.Prelude.{◌≡◌, ◌≤◌, ℕ, List, None, IsNone, IfSome, OnOk};
ghost use Rattle.base_devices.specs.Causes.{HasCause};
ghost use Rattle.base_devices.specs.CrashImages.{Shows, Reads};
ghost use Rattle.skip_form.specs.Flaws.{head_flaw, head_in};
ghost use Rattle.skip_spec.specs.Rows.{IsAmong};
ghost use Rattle.skip_spec.specs.Chain.{pairs};
ghost use Rattle.skip_spec.specs.Opens.{Contents, IsTidyHead};
ghost use Rattle.skip_spec.specs.Near.{heads};
ghost use Rattle.skip_lists.specs.Heads.{HasSlots};
ghost use Rattle.skip_lists.specs.Tie.{TiedToBase, LeavesMap};
ghost use Rattle.skip_recover.specs.Heads.{IsLoose, Mended};
ghost use Rattle.skip_recover.specs.Places.{RepairsInPlace, WritesNothing};

use crate::heads::{below_end, is_head_right};
use base_devices::{Disk, Failed};
use skip_form::pointer;
use skip_image::Image;

/// The level-zero slot that is at or past the end, or the first where only the head check is wrong; None where the
/// head is tidy.
fn loose_slot(file: &[u8], at: u64, end: u64) -> Option<u8>
    requires right { head_flaw file.now at ≡ None }
    requires level { 1 ≤ (head_in file.now at).level }
    ensures loose { IfSome result (IsLoose file.now end at) }
    ensures tidy { IsNone result → IsTidyHead file.now end at }
    ensures none { IsTidyHead file.now end at → result ≡ None }
{
    if end <= pointer(file, at, 0) {
        return Some(0);
    }
    if end <= pointer(file, at, 1) {
        return Some(1);
    }
    if !is_head_right(file, at) {
        return Some(0);
    }
    None
}

/// Makes a head tidy: a slot at or past the end becomes 0, and a wrong head check right. A tidy head is not
/// written.
pub(crate) fn mend_head<D: Disk>(
    image: &mut Image,
    disk: &mut D,
    at: u64,
    end: u64,
) -> Result<(), Failed>
    requires there { HasSlots image.old.bytes at }
    requires right { head_flaw image.old.bytes at ≡ None }
    requires reads { Shows (D.state disk.old) → Reads (D.state disk.old) image.old.bytes }
    ensures done { (base : List ℕ) (says : Contents)
        → TiedToBase base says image.old.bytes (D.state disk.old)
        → IsAmong (heads says) at → says.header.current_size ≡ end
        → OnOk result (TiedToBase base says image.new.bytes (D.state disk.new)
        × Mended base says image.old.bytes image.new.bytes end at) }
    ensures moments { (base : List ℕ) (says : Contents)
        → TiedToBase base says image.old.bytes (D.state disk.old)
        → IsAmong (heads says) at → says.header.current_size ≡ end
        → LeavesMap (pairs says.chain) (D.state disk.old) (D.state disk.new) }
    ensures still { IsTidyHead image.old.bytes end at
        → WritesNothing image.old.bytes image.new.bytes (D.state disk.old) (D.state disk.new) }
    ensures place { RepairsInPlace image.old.bytes image.new.bytes
        (D.state disk.old) (D.state disk.new) }
    ensures cause { HasCause (D.state disk.old).faults (D.state disk.new).faults result }
    ensures rest { D.disk_rest disk.old disk.new }
{
    if let Some(slot) = loose_slot(image.bytes(), at, end) {
        let to = below_end(image.bytes(), at, slot, end);
        image.write_pointer(disk, at, slot, to)?;
    }
    Ok(())
}
