// The new index takes the place of the old one.
ghost use Rattle.std.specs.Prelude.{◌≡◌, ◌++◌, Some, OnOk};
ghost use Rattle.base_devices.specs.Causes.{HasCause};
ghost use Rattle.base_devices.specs.Frames.{MayReplace, Replaces, StaysAs};
ghost use Rattle.base_devices.specs.CrashImages.{Shows};
ghost use Rattle.base_devices.specs.DiskCalls.{fresh_bytes};
ghost use Rattle.index_form.specs.Spelling.{header_bytes};

use base_devices::{Disk, Failed};
use index_form::{IndexHeader, write_header};

// Writes the new file: a header and the bytes of its records.
fn write_index<D: Disk>(disk: &mut D, header: &IndexHeader, records: &[u8]) -> Result<(), Failed>
    ensures written { OnOk result (Shows (D.state disk.old) → fresh_bytes (D.state disk.new).fresh
        ≡ Some (header_bytes header.now ++ records.now)) }
    ensures stays { StaysAs (D.state disk.old) (D.state disk.new) }
    ensures cause { HasCause (D.state disk.old).faults (D.state disk.new).faults result }
    ensures rest { D.disk_rest disk.old disk.new }
{
    disk.new_start()?;
    disk.new_write(&write_header(header))?;
    disk.new_write(records)
}

// Puts a header and the bytes of its records in the place of the main file.
pub(crate) fn replace<D: Disk>(
    disk: &mut D,
    header: &IndexHeader,
    records: &[u8],
) -> Result<(), Failed>
    ensures replaces { Replaces (header_bytes header.now ++ records.now)
        (D.state disk.old) (D.state disk.new) result }
    ensures any_moment { MayReplace (header_bytes header.now ++ records.now)
        (D.state disk.old) (D.state disk.new) }
    ensures cause { HasCause (D.state disk.old).faults (D.state disk.new).faults result }
    ensures rest { D.disk_rest disk.old disk.new }
{
    write_index(disk, header, records)?;
    disk.new_sync()?;
    disk.publish()
}
