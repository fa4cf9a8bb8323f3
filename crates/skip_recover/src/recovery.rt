// Repair: the heads are made tidy and linked, and then the file is cut and its header commits.
ghost use Rattle.std.specs.Prelude.{◌≡◌, ◌≤◌, ◌+◌, ℕ, List, length, OnOk, IfOk};
ghost use Rattle.base_bytes.specs.OrderedMap.{Map};
ghost use Rattle.base_devices.specs.Causes.{HasCause};
ghost use Rattle.base_devices.specs.CrashImages.{Shows, Reads, IsDurable};
ghost use Rattle.skip_spec.specs.Chain.{pairs};
ghost use Rattle.skip_spec.specs.Opens as opens;
ghost use Rattle.skip_spec.specs.Opens.{Contents, Tidy, Opens};
ghost use Rattle.skip_spec.specs.Recovery.{recovered, Recovers};
ghost use Rattle.skip_lists.specs.Repair.{IsLinked};
ghost use Rattle.skip_lists.specs.Tie.{TiedToBase, Recoverable, LeavesMap};
ghost use Rattle.skip_recover.specs.Places.{RepairsInPlace, WritesNothing};

use crate::ending::{cut_to_end, finish};
use crate::mending::mend_head;
use crate::walk::walk;
use base_devices::{Disk, Failed};
use skip_image::Image;

/// Makes all heads tidy, links all levels, and answers how many records are live. Where this is so, nothing is
/// written.
fn relink<D: Disk>(image: &mut Image, disk: &mut D, end: u64) -> Result<u64, Failed>
    requires { (base : List ℕ) × (says : Contents)
        × TiedToBase base says image.old.bytes (D.state disk.old)
        × (says.header.current_size ≡ end) }
    ensures done { (base : List ℕ) (says : Contents)
        → TiedToBase base says image.old.bytes (D.state disk.old) → says.header.current_size ≡ end
        → IfOk result (λ count. TiedToBase base says image.new.bytes (D.state disk.new)
        × IsLinked says image.new.bytes × (count ≡ length says.chain)) }
    ensures moments { (base : List ℕ) (says : Contents)
        → TiedToBase base says image.old.bytes (D.state disk.old) → says.header.current_size ≡ end
        → LeavesMap (pairs says.chain) (D.state disk.old) (D.state disk.new) }
    ensures still { (base : List ℕ) (says : Contents)
        → TiedToBase base says image.old.bytes (D.state disk.old) → says.header.current_size ≡ end
        → IsLinked says image.old.bytes
        → WritesNothing image.old.bytes image.new.bytes (D.state disk.old) (D.state disk.new) }
    ensures place { RepairsInPlace image.old.bytes image.new.bytes
        (D.state disk.old) (D.state disk.new) }
    ensures cause { HasCause (D.state disk.old).faults (D.state disk.new).faults result }
    ensures rest { D.disk_rest disk.old disk.new }
{
    mend_head(image, disk, 64, end)?;
    let count = walk(image, disk, end)?;
    Ok(count)
}

/// Cuts the file to its end, and writes the header that commits.
fn settle<D: Disk>(image: &mut Image, disk: &mut D, end: u64, count: u64) -> Result<(), Failed>
    requires { (base : List ℕ) × (says : Contents)
        × TiedToBase base says image.old.bytes (D.state disk.old)
        × (says.header.current_size ≡ end) }
    ensures done { (base : List ℕ) (says : Contents)
        → TiedToBase base says image.old.bytes (D.state disk.old) → says.header.current_size ≡ end
        → IsLinked says image.old.bytes → count ≡ length says.chain
        → OnOk result (opens.Reads image.new.bytes (recovered says)
        × Tidy image.new.bytes (recovered says)) }
    ensures reads { OnOk result
        (Shows (D.state disk.new) → Reads (D.state disk.new) image.new.bytes) }
    ensures durable { OnOk result (IsDurable (D.state disk.new)) }
    ensures moments { (base : List ℕ) (says : Contents)
        → TiedToBase base says image.old.bytes (D.state disk.old) → says.header.current_size ≡ end
        → IsLinked says image.old.bytes → count ≡ length says.chain
        → LeavesMap (pairs says.chain) (D.state disk.old) (D.state disk.new) }
    ensures written { (D.state disk.new).written ≤ (D.state disk.old).written + 64 }
    ensures place { RepairsInPlace image.old.bytes image.new.bytes
        (D.state disk.old) (D.state disk.new) }
    ensures cause { HasCause (D.state disk.old).faults (D.state disk.new).faults result }
    ensures rest { D.disk_rest disk.old disk.new }
{
    cut_to_end(image, disk, end)?;
    finish(image, disk, count)?;
    Ok(())
}

/// Repairs a file that a stop left with DIRTY, in the image and on the disk. The file is one that verification accepts;
/// the disk reads it, and all that a stop may leave of it are images of one base. `Failed` only where the disk fails,
/// and then another repair ends what this one began.
pub fn recover<D: Disk>(image: &mut Image, disk: &mut D) -> Result<(), Failed>
    requires { Recoverable image.old.bytes (D.state disk.old) }
    // After Ok the file is tidy and says the same, and a stop leaves nothing else.
    ensures recovers { OnOk result (Recovers image.old.bytes image.new.bytes) }
    ensures reads { OnOk result
        (Shows (D.state disk.new) → Reads (D.state disk.new) image.new.bytes) }
    ensures durable { OnOk result (IsDurable (D.state disk.new)) }
    // At each moment each file that may be left opens to the map from before, and is no longer than the longest one.
    ensures moments { (m : Map) → Opens image.old.bytes m
        → LeavesMap m (D.state disk.old) (D.state disk.new) }
    ensures place { RepairsInPlace image.old.bytes image.new.bytes
        (D.state disk.old) (D.state disk.new) }
    // Of a file whose heads are right only the header is written.
    ensures still { (says : Contents) → opens.Reads image.old.bytes says
        → IsLinked says image.old.bytes
        → (D.state disk.new).written ≤ (D.state disk.old).written + 64 }
    ensures cause { HasCause (D.state disk.old).faults (D.state disk.new).faults result }
    ensures rest { D.disk_rest disk.old disk.new }
{
    let end = image.header().current_size;
    let count = relink(image, disk, end)?;
    settle(image, disk, end, count)?;
    Ok(())
}
