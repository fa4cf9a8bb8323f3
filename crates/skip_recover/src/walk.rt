// The walk along the live records, which makes their heads tidy and links them on each level.
ghost use Rattle.std.specs.Prelude.{◌≡◌, ◌++◌, ◌∷◌, [], ℕ, List, length, OnOk, IfOk};
ghost use Rattle.base_devices.specs.Causes.{HasCause};
ghost use Rattle.skip_spec.specs.Chain.{Entry, pairs};
ghost use Rattle.skip_spec.specs.Opens.{Contents, IsTidyHead};
ghost use Rattle.skip_lists.specs.Repair.{IsLinked};
ghost use Rattle.skip_lists.specs.Tie.{TiedToBase, LeavesMap};
ghost use Rattle.skip_recover.specs.Places.{RepairsInPlace, WritesNothing};
ghost use Rattle.skip_recover.specs.Walks.{IsUnderWay};

use crate::heads::{head_of, next_after};
use crate::links::{link_levels, set_last};
use crate::mending::mend_head;
use base_devices::{Disk, Failed};
use skip_image::Image;

/// Passes the next live record: the last one on each of its levels leads to it, and its head is tidy. Where this is
/// so, nothing is written.
fn pass<D: Disk>(
    image: &mut Image,
    disk: &mut D,
    last: &mut [u64; 31],
    at: u64,
    end: u64,
) -> Result<(), Failed>
    requires { (base : List ℕ) × (says : Contents)
        × (passed : List Entry) × (e : Entry) × (left : List Entry)
        × IsUnderWay base says image.old.bytes (D.state disk.old) last.old passed (e ∷ left) end
        × (e.at ≡ at) }
    ensures done { (base : List ℕ) (says : Contents)
        (passed : List Entry) (e : Entry) (left : List Entry)
        → IsUnderWay base says image.old.bytes (D.state disk.old) last.old passed (e ∷ left) end
        → e.at ≡ at
        → OnOk result (IsUnderWay base says image.new.bytes (D.state disk.new) last.new
        (passed ++ e ∷ []) left end) }
    ensures moments { (base : List ℕ) (says : Contents)
        (passed : List Entry) (e : Entry) (left : List Entry)
        → IsUnderWay base says image.old.bytes (D.state disk.old) last.old passed (e ∷ left) end
        → e.at ≡ at → LeavesMap (pairs says.chain) (D.state disk.old) (D.state disk.new) }
    ensures still { (base : List ℕ) (says : Contents)
        (passed : List Entry) (e : Entry) (left : List Entry)
        → IsUnderWay base says image.old.bytes (D.state disk.old) last.old passed (e ∷ left) end
        → e.at ≡ at → IsLinked says image.old.bytes
        → WritesNothing image.old.bytes image.new.bytes (D.state disk.old) (D.state disk.new) }
    ensures place { RepairsInPlace image.old.bytes image.new.bytes
        (D.state disk.old) (D.state disk.new) }
    ensures cause { HasCause (D.state disk.old).faults (D.state disk.new).faults result }
    ensures rest { D.disk_rest disk.old disk.new }
{
    let level = head_of(image.bytes(), at).level;
    link_levels(image, disk, last, level, at)?;
    set_last(last, level, at);
    mend_head(image, disk, at, end)?;
    Ok(())
}

/// Walks along all live records, where the dummy's head is tidy, and answers how many there are. Where all heads are
/// tidy and all levels linked, nothing is written.
pub(crate) fn walk<D: Disk>(image: &mut Image, disk: &mut D, end: u64) -> Result<u64, Failed>
    requires tied { (base : List ℕ) × (says : Contents)
        × TiedToBase base says image.old.bytes (D.state disk.old)
        × (says.header.current_size ≡ end) }
    requires tidy { IsTidyHead image.old.bytes end 64 }
    ensures done { (base : List ℕ) (says : Contents)
        → TiedToBase base says image.old.bytes (D.state disk.old) → says.header.current_size ≡ end
        → IfOk result (λ count. TiedToBase base says image.new.bytes (D.state disk.new)
        × IsLinked says image.new.bytes × (count ≡ length says.chain)) }
    ensures moments { (base : List ℕ) (says : Contents)
        → TiedToBase base says image.old.bytes (D.state disk.old) → says.header.current_size ≡ end
        → LeavesMap (pairs says.chain) (D.state disk.old) (D.state disk.new) }
    ensures still { (base : List ℕ) (says : Contents)
        → TiedToBase base says image.old.bytes (D.state disk.old) → says.header.current_size ≡ end
        → IsLinked says image.old.bytes
        → WritesNothing image.old.bytes image.new.bytes (D.state disk.old) (D.state disk.new) }
    ensures place { RepairsInPlace image.old.bytes image.new.bytes
        (D.state disk.old) (D.state disk.new) }
    ensures cause { HasCause (D.state disk.old).faults (D.state disk.new).faults result }
    ensures rest { D.disk_rest disk.old disk.new }
{
    let mut last = [64u64; 31];
    let mut at = 64;
    for count in 0..end {
        let next = next_after(image, at, end);
        if next == 0 {
            link_levels(image, disk, &last, 31, 0)?;
            return Ok(count);
        }
        pass(image, disk, &mut last, next, end)?;
        at = next;
    }
    // There are fewer live records than bytes.
    unreachable!()
}
