// Why a database is not opened, and the first question at each opening: how long its file is.
ghost use Rattle.std.specs.Prelude.{◌≡◌, ◌≤◌, IfOk, IfErr, Some};
ghost use Rattle.base_devices.specs.Causes.{FaultHasCause};
ghost use Rattle.base_devices.specs.CrashImages.{WhereRead};
ghost use Rattle.base_devices.specs.DiskCalls.{IsLength};
ghost use Rattle.base_devices.specs.Frames.{StaysAs};
ghost use Rattle.db_core.specs.Opening.{IsDeviceFault, IsSizeRefusal};

use base_bytes::Flaw;
use base_devices::Disk;

/// Why a database was not opened, in the order in which the causes are tested.
#[derive(Clone, Copy, Debug, PartialEq, Eq)]
pub enum OpenFault {
    /// There is no main file.
    Absent,
    /// It has so many bytes, more than it may.
    TooBig { size: u64 },
    /// Memory ran out.
    NoMemory,
    /// The disk failed.
    DiskFault,
    /// The file's first flaw, and the offset in bytes at which it shows.
    Damaged { at: u64, check: Flaw },
}

/// How many bytes the main file has, where it is there and has no more than `limit`. It is asked for its length
/// once, and no other call is made.
pub fn file_size<D: Disk>(disk: &mut D, limit: u64) -> Result<u64, OpenFault>
    ensures answered { IfOk result (λ size. WhereRead (D.state disk.old)
        (λ main. IsLength main (Some size))) }
    ensures within { IfOk result (λ size. size ≤ limit) }
    ensures refused { IfErr result (λ fault. WhereRead (D.state disk.old)
        (λ main. IsSizeRefusal limit main fault)) }
    ensures cause { FaultHasCause IsDeviceFault (D.state disk.old).faults (D.state disk.new).faults
        result }
    ensures fresh { (D.state disk.new).fresh ≡ (D.state disk.old).fresh }
    ensures stays { StaysAs (D.state disk.old) (D.state disk.new) }
    ensures rest { D.disk_rest disk.old disk.new }
{
    match disk.length() {
        Ok(Some(size)) if size > limit => Err(OpenFault::TooBig { size }),
        Ok(Some(size)) => Ok(size),
        Ok(None) => Err(OpenFault::Absent),
        Err(_) => Err(OpenFault::DiskFault),
    }
}
