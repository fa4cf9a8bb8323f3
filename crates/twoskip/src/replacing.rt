// The main file is replaced: a whole new one is written beside it, synced, and put in its place.
ghost use Rattle.std.specs.Prelude.{◌≡◌, Some, OnOk};
ghost use Rattle.base_devices.specs.Causes.{HasCause};
ghost use Rattle.base_devices.specs.CrashImages.{Shows};
ghost use Rattle.base_devices.specs.DiskCalls.{fresh_bytes};
ghost use Rattle.base_devices.specs.Frames.{MayReplace, Replaces, StaysAs};
ghost use Rattle.skip_kind.specs.Kind.{skip_kind};

use base_devices::{Disk, Failed};
use skip_form::{Head, Header, Kind, tail_check, write_head_into, write_header};
use skip_image::Image;

// Writes the new file: the bytes of an image.
fn write_image<D: Disk>(image: &Image, to: &mut D) -> Result<(), Failed>
    ensures written { OnOk result (Shows (D.state to.old) → fresh_bytes (D.state to.new).fresh
        ≡ Some image.now.bytes) }
    ensures stays { StaysAs (D.state to.old) (D.state to.new) }
    ensures cause { HasCause (D.state to.old).faults (D.state to.new).faults result }
    ensures rest { D.disk_rest to.old to.new }
{
    to.new_start()?;
    image.write_new(to)
}

// Puts the bytes of an image in the place of the main file.
pub(crate) fn replace_by<D: Disk>(image: &Image, to: &mut D) -> Result<(), Failed>
    ensures replaces { Replaces image.now.bytes (D.state to.old) (D.state to.new) result }
    ensures any_moment { MayReplace image.now.bytes (D.state to.old) (D.state to.new) }
    ensures cause { HasCause (D.state to.old).faults (D.state to.new).faults result }
    ensures rest { D.disk_rest to.old to.new }
{
    write_image(image, to)?;
    to.new_sync()?;
    to.publish()
}

// The header of generation 1, of a file of 336 bytes without a record.
const EMPTY_HEADER: Header = Header {
    version: 1,
    generation: 1,
    num_records: 0,
    repack_size: 336,
    current_size: 336,
    flags: 0,
};

// The record at 64, which leads to none.
const DUMMY: Head = Head {
    kind: Kind::Dummy,
    level: 31,
    key_len: 0,
    value_len: 0,
    size: 272,
};

// The file of the map without a pair: a header and the dummy.
fn empty_file() -> [u8; 336]
    ensures { result ≡ skip_kind.empty }
{
    let mut bytes = [0u8; 336];
    let (header, dummy) = bytes.split_at_mut(64);
    header.copy_from_slice(&write_header(&EMPTY_HEADER));
    write_head_into(&DUMMY, &[0u64; 32], tail_check(b"", b""), dummy);
    bytes
}

/// Publishes an empty file: the 336 bytes of the map without a pair. It takes no memory.
///
/// Wherever it stops, the file is one that could be left before, or empty, and after Ok only empty.
pub fn create<D: Disk>(disk: &mut D) -> Result<(), Failed>
    ensures replaces { Replaces skip_kind.empty (D.state disk.old) (D.state disk.new) result }
    ensures any_moment { MayReplace skip_kind.empty (D.state disk.old) (D.state disk.new) }
    ensures cause { HasCause (D.state disk.old).faults (D.state disk.new).faults result }
    ensures rest { D.disk_rest disk.old disk.new }
{
    disk.new_start()?;
    disk.new_write(&empty_file())?;
    disk.new_sync()?;
    disk.publish()
}
