// Upper pointers are led to a record.
ghost use Rattle.std.specs.Prelude.{◌≡◌, ◌≤◌, ◌<◌, ◌+◌, ℕ, List, slice_index, None, OnOk};
ghost use Rattle.base_devices.specs.Causes.{HasCause};
ghost use Rattle.base_devices.specs.CrashImages.{Shows, Reads};
ghost use Rattle.skip_form.specs.Fields.{pointer_in};
ghost use Rattle.skip_form.specs.Flaws.{head_flaw, head_in};
ghost use Rattle.skip_spec.specs.Rows.{IsAmong};
ghost use Rattle.skip_spec.specs.Chain.{pairs};
ghost use Rattle.skip_spec.specs.Opens.{Contents};
ghost use Rattle.skip_spec.specs.Near.{heads};
ghost use Rattle.skip_lists.specs.Heads.{HasSlots};
ghost use Rattle.skip_lists.specs.Tie.{TiedToBase, LeavesMap};
ghost use Rattle.skip_recover.specs.Heads.{HaveSlots, LeadsSlot, LeadsLast};
ghost use Rattle.skip_recover.specs.Places.{RepairsInPlace, WritesNothing};

use base_devices::{Disk, Failed};
use skip_form::pointer;
use skip_image::Image;

/// Leads an upper slot of a head to an offset. A head that leads there is not written.
fn link<D: Disk>(
    image: &mut Image,
    disk: &mut D,
    from: u64,
    slot: u8,
    to: u64,
) -> Result<(), Failed>
    requires there { HasSlots image.old.bytes from }
    requires right { head_flaw image.old.bytes from ≡ None }
    requires upper { 2 ≤ slot }
    requires slot { slot ≤ (head_in image.old.bytes from).level }
    requires reads { Shows (D.state disk.old) → Reads (D.state disk.old) image.old.bytes }
    ensures done { (base : List ℕ) (says : Contents)
        → TiedToBase base says image.old.bytes (D.state disk.old) → IsAmong (heads says) from
        → OnOk result (TiedToBase base says image.new.bytes (D.state disk.new)
        × LeadsSlot base says image.old.bytes image.new.bytes from slot to) }
    ensures moments { (base : List ℕ) (says : Contents)
        → TiedToBase base says image.old.bytes (D.state disk.old) → IsAmong (heads says) from
        → LeavesMap (pairs says.chain) (D.state disk.old) (D.state disk.new) }
    ensures still { pointer_in image.old.bytes from slot ≡ to
        → WritesNothing image.old.bytes image.new.bytes (D.state disk.old) (D.state disk.new) }
    ensures place { RepairsInPlace image.old.bytes image.new.bytes
        (D.state disk.old) (D.state disk.new) }
    ensures cause { HasCause (D.state disk.old).faults (D.state disk.new).faults result }
    ensures rest { D.disk_rest disk.old disk.new }
{
    if pointer(image.bytes(), from, slot) == to {
        return Ok(());
    }
    image.write_pointer(disk, from, slot, to)?;
    Ok(())
}

/// Leads, on each level below a height, the last record passed to an offset. Heads that lead there are not written.
pub(crate) fn link_levels<D: Disk>(
    image: &mut Image,
    disk: &mut D,
    last: &[u64; 31],
    height: u8,
    to: u64,
) -> Result<(), Failed>
    requires low { 1 ≤ height }
    requires high { height ≤ 31 }
    requires tied { (base : List ℕ) × (says : Contents)
        × TiedToBase base says image.old.bytes (D.state disk.old)
        × HaveSlots base says last.now height }
    ensures done { (base : List ℕ) (says : Contents)
        → TiedToBase base says image.old.bytes (D.state disk.old)
        → HaveSlots base says last.now height
        → OnOk result (TiedToBase base says image.new.bytes (D.state disk.new)
        × LeadsLast base says image.old.bytes image.new.bytes last.now height to) }
    ensures moments { (base : List ℕ) (says : Contents)
        → TiedToBase base says image.old.bytes (D.state disk.old)
        → HaveSlots base says last.now height
        → LeavesMap (pairs says.chain) (D.state disk.old) (D.state disk.new) }
    ensures still { ((i : ℕ) → 1 ≤ i → i < height
        → pointer_in image.old.bytes (slice_index last.now i) (i + 1) ≡ to)
        → WritesNothing image.old.bytes image.new.bytes (D.state disk.old) (D.state disk.new) }
    ensures place { RepairsInPlace image.old.bytes image.new.bytes
        (D.state disk.old) (D.state disk.new) }
    ensures cause { HasCause (D.state disk.old).faults (D.state disk.new).faults result }
    ensures rest { D.disk_rest disk.old disk.new }
{
    for level in 1..height {
        link(image, disk, last[level as usize], level + 1, to)?;
    }
    Ok(())
}

/// Sets a record as the last one on each level below a height.
pub(crate) fn set_last(last: &mut [u64; 31], height: u8, at: u64)
    requires { height ≤ 31 }
    ensures below { (i : ℕ) → i < height → slice_index last.new i ≡ at }
    ensures above { (i : ℕ) → height ≤ i → i ≤ 30
        → slice_index last.new i ≡ slice_index last.old i }
{
    for level in 0..height {
        last[level as usize] = at;
    }
}
