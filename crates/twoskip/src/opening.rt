// A twoskip file is opened, or looked through.
ghost use Rattle.std.specs.Prelude.{◌≡◌, ◌≤◌, ℕ, length, Some, IfOk, IfErr, OnOk};
ghost use Rattle.base_bytes.specs.Fields.{AreBytes};
ghost use Rattle.base_devices.specs.Causes.{FaultHasCause};
ghost use Rattle.base_devices.specs.CrashImages.{Shows, WhereRead};
ghost use Rattle.base_devices.specs.DiskCalls.{HasLength};
ghost use Rattle.base_devices.specs.Frames.{StaysAs};
ghost use Rattle.db_core.specs.Opening.{ChecksAs, IsDamage, IsDeviceFault, IsOpenRefusal, OpensAs, OpensDisk};
ghost use Rattle.db_repack.specs.Repacking.{KeepsRepacked};
ghost use Rattle.skip_image.specs.Verifying.{IsVerified};
ghost use Rattle.skip_kind.specs.Kind.{skip_kind};
ghost use Rattle.skip_txn.specs.Sessions.{Tied, session_state};
ghost use Rattle.twoskip.specs.Opening.{IsRead, IsSettled, SettlesDisk, WhereSettled};
ghost use Rattle.twoskip.specs.Repacking.{skip_repack};

use crate::session::Twoskip;
use base_bytes::{Damage, SKIP_LIMIT};
use base_devices::{Disk, ReadFault};
use db_core::{OpenFault, file_size};
use skip_image::{Image, Summary};
use skip_recover::recover;
use skip_txn::Session;
use std::alloc::Global;

// The items of a slice of bytes are bytes, which the contract of an image does not say.
pub(crate) fn are_bytes(_file: &[u8])
    ensures { AreBytes _file.now }
{}

// The bytes of the main file, whose size was told before.
fn read_image<D: Disk>(alloc: Global, disk: &mut D, size: u64) -> Result<Image, OpenFault>
    requires size { Shows (D.state disk.old) → HasLength (D.state disk.old).reads size }
    requires within { size ≤ SKIP_LIMIT }
    ensures read { IfOk result (λ image. WhereRead (D.state disk.old)
        (λ main. main ≡ Some image.bytes)) }
    ensures bytes { IfOk result (λ image. AreBytes image.bytes) }
    ensures size { IfOk result (λ image. length image.bytes ≤ SKIP_LIMIT) }
    ensures refused { IfErr result (λ fault. ¬ IsDamage fault
        × WhereRead (D.state disk.old) (λ main. IsOpenRefusal skip_kind main fault)) }

    // The disk is as it was.
    ensures cause { FaultHasCause IsDeviceFault (D.state disk.old).faults (D.state disk.new).faults
        result }
    ensures fresh { (D.state disk.new).fresh ≡ (D.state disk.old).fresh }
    ensures stays { StaysAs (D.state disk.old) (D.state disk.new) }
    ensures rest { D.disk_rest disk.old disk.new }
{
    match Image::load(alloc, disk, size) {
        Ok(image) => {
            are_bytes(image.bytes());
            Ok(image)
        }
        Err(ReadFault::NoMemory) => Err(OpenFault::NoMemory),
        Err(ReadFault::DiskFault) => Err(OpenFault::DiskFault),
    }
}

// What verification finds in a file, or its first flaw.
fn verify(image: &mut Image) -> Result<Summary, OpenFault>
    requires bytes { AreBytes image.old.bytes }
    requires within { length image.old.bytes ≤ SKIP_LIMIT }
    ensures found { IfOk result
        (λ summary. IsVerified image.old.bytes summary.count summary.clean) }
    ensures flaw { IfErr result (λ fault. IsDamage fault
        × IsOpenRefusal skip_kind (Some image.old.bytes) fault) }
    ensures same { image.new ≡ image.old }
{
    match image.verify() {
        Ok(summary) => Ok(summary),
        Err(Damage { at, check }) => Err(OpenFault::Damaged { at, check }),
    }
}

// Repairs a file with DIRTY, and leaves another one alone.
fn settle<D: Disk>(image: &mut Image, disk: &mut D, clean: bool) -> Result<(), OpenFault>
    requires { (count : ℕ) × IsRead image.old.bytes count clean (D.state disk.old) }
    ensures settled { OnOk result
        (IsSettled image.old.bytes image.new.bytes (D.state disk.new)) }
    ensures disk { SettlesDisk image.old.bytes clean (D.state disk.old) (D.state disk.new) }
    ensures fault { IfErr result IsDeviceFault }
    ensures cause { FaultHasCause IsDeviceFault (D.state disk.old).faults (D.state disk.new).faults
        result }
    ensures rest { D.disk_rest disk.old disk.new }
{
    if clean {
        return Ok(());
    }
    match recover(image, disk) {
        Ok(()) => Ok(()),
        Err(_) => Err(OpenFault::DiskFault),
    }
}

/// Opens a twoskip file: a session over it, where it is there, within its limit and without a flaw. A file that a
/// stop left dirty is repaired; no other one is written.
///
/// The file is synced before it is read, so that a crash later leaves no other one than was read, or than its
/// repair makes of it. A repair keeps levels and generation, so that a repack then gives what it would have given. An absent file is not synced, and one over the limit is refused as soon as its length is
/// known.
pub fn open_db<D: Disk>(alloc: Global, disk: &mut D) -> Result<Twoskip, OpenFault>
    ensures opens { OpensAs skip_kind session_state (D.state disk.old) result }
    ensures disk { OpensDisk skip_kind (D.state disk.old) (D.state disk.new) result }
    ensures reads { OnOk result (WhereSettled skip_kind (D.state disk.old)
        ((D.state disk.new).reads ≡ (D.state disk.old).reads)) }
    ensures repacked { OnOk result
        (KeepsRepacked skip_repack (D.state disk.old) (D.state disk.new)) }
    ensures cause { FaultHasCause IsDeviceFault (D.state disk.old).faults (D.state disk.new).faults
        result }
    ensures tied { IfOk result (λ db. Tied db (D.state disk.new)) }
    ensures rest { D.disk_rest disk.old disk.new }
{
    let size = file_size(disk, SKIP_LIMIT)?;
    let Ok(()) = disk.sync() else {
        return Err(OpenFault::DiskFault);
    };
    let mut image = read_image(alloc, disk, size)?;
    let summary = verify(&mut image)?;
    settle(&mut image, disk, summary.clean)?;
    Ok(Twoskip::over(Session::new(image)))
}

/// How many pairs the map of a twoskip file has, by the same tests as `open_db`. It only reads.
pub fn check_db<D: Disk>(alloc: Global, disk: &mut D) -> Result<u64, OpenFault>
    ensures checks { ChecksAs skip_kind (D.state disk.old) result }
    ensures cause { FaultHasCause IsDeviceFault (D.state disk.old).faults (D.state disk.new).faults
        result }
    ensures fresh { (D.state disk.new).fresh ≡ (D.state disk.old).fresh }
    ensures stays { StaysAs (D.state disk.old) (D.state disk.new) }
    ensures rest { D.disk_rest disk.old disk.new }
{
    let size = file_size(disk, SKIP_LIMIT)?;
    let mut image = read_image(alloc, disk, size)?;
    let summary = verify(&mut image)?;
    Ok(summary.count)
}
