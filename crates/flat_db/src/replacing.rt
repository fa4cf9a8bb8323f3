// The main file is replaced: a whole new text is written beside it, synced, and put in its place.
ghost use Rattle.std.specs.Prelude.{◌≡◌, ◌⊎◌, [], Some, OnOk};
ghost use Rattle.base_devices.specs.Causes.{HasCause};
ghost use Rattle.base_devices.specs.CrashImages.{IsDurable, LeavesOnly, Shows};
ghost use Rattle.base_devices.specs.Frames.{MayReplace, Replaces, StaysAs};
ghost use Rattle.base_devices.specs.DiskCalls.{fresh_bytes};
ghost use Rattle.flat_db.specs.FlatText.{canonical_text};
ghost use Rattle.flat_db.specs.Kept.{map_among};
ghost use Rattle.flat_db.specs.Sessions.{flat_kind};

use crate::pairs::Pairs;
use crate::writing::{flush, write_pairs};
use base_bytes::Piece;
use base_devices::{Disk, Failed};

// Writes the new file: the canonical text of a map.
fn write_text<D: Disk>(
    disk: &mut D,
    bytes: &[u8],
    pairs: &Pairs,
    piece: &mut Piece,
) -> Result<(), Failed>
    requires { piece.old ≡ [] }
    ensures written { OnOk result (Shows (D.state disk.old) → fresh_bytes (D.state disk.new).fresh
        ≡ Some (canonical_text (map_among bytes.now pairs.now))) }
    ensures stays { StaysAs (D.state disk.old) (D.state disk.new) }
    ensures cause { HasCause (D.state disk.old).faults (D.state disk.new).faults result }
    ensures rest { D.disk_rest disk.old disk.new }
{
    disk.new_start()?;
    write_pairs(disk, bytes, &pairs.entries, piece)?;
    flush(disk, piece)
}

// Puts the text of a map in the place of the main file.
pub(crate) fn replace<D: Disk>(
    disk: &mut D,
    bytes: &[u8],
    pairs: &Pairs,
    piece: &mut Piece,
) -> Result<(), Failed>
    requires { piece.old ≡ [] }
    ensures replaces { Replaces (canonical_text (map_among bytes.now pairs.now))
        (D.state disk.old) (D.state disk.new) result }
    ensures any_moment { MayReplace (canonical_text (map_among bytes.now pairs.now))
        (D.state disk.old) (D.state disk.new) }
    ensures cause { HasCause (D.state disk.old).faults (D.state disk.new).faults result }
    ensures rest { D.disk_rest disk.old disk.new }
{
    write_text(disk, bytes, pairs, piece)?;
    disk.new_sync()?;
    disk.publish()
}

/// Publishes an empty file: the text of the map without a pair. It takes no memory.
///
/// Wherever it stops, the file is one that could be left before, or empty, and after Ok only empty.
pub fn create<D: Disk>(disk: &mut D) -> Result<(), Failed>
    ensures replaces { Replaces flat_kind.empty (D.state disk.old) (D.state disk.new) result }
    ensures any_moment { MayReplace flat_kind.empty (D.state disk.old) (D.state disk.new) }
    ensures cause { HasCause (D.state disk.old).faults (D.state disk.new).faults result }
    ensures rest { D.disk_rest disk.old disk.new }
{
    disk.new_start()?;
    disk.new_sync()?;
    disk.publish()
}
