// The old index is read, whatever it holds.
ghost use Rattle.std.specs.Prelude.{◌≡◌, ◌<◌, ◌≤◌, ℕ, Some, None, IfOk, IfErr, IfSome, IsSome, length};
ghost use Rattle.std.specs.Option.{option_map};
ghost use Rattle.base_bytes.specs.declared.limits.TheConstants.{SKIP_LIMIT};
ghost use Rattle.base_devices.specs.Causes.{FaultHasCause};
ghost use Rattle.base_devices.specs.CrashImages.{Image, WhereRead};
ghost use Rattle.base_devices.specs.DiskCalls.{IsLength};
ghost use Rattle.base_devices.specs.Frames.{MayLeaveLess};
ghost use Rattle.mail_rebuild.specs.OldIndex.{IsOldIndex, IsShort, view_of};
ghost use Rattle.mail_rebuild.specs.OldFile.{IsDiskFault, IsReadKind, IsReadRefusal};
ghost use Rattle.mail_rebuild.specs.Rebuilt.{old_header, whole_index};
ghost use Rattle.index_form.specs.Views.{file_of};

use crate::RebuildFault;
use base_bytes::SKIP_LIMIT;
use base_devices::{Disk, ReadFault, read_whole};
use index_form::{IndexFault, IndexHeader, IndexView, MINOR_VERSION, view_index};
use std::alloc::Global;

// What there is of an old index.
#[derive(Clone, Copy)]
pub(crate) enum OldIndex<'a> {
    Absent,
    Damaged(IndexFault),
    Whole(IndexView<'a>),
}

// The header from which the index of a folder without one is made.
const NEW_HEADER: IndexHeader = IndexHeader {
    generation: 0,
    format: 0,
    minor_version: MINOR_VERSION,
    start_offset: 128,
    record_size: 96,
    num_records: 0,
    last_appenddate: 0,
    last_uid: 0,
    quota_mailbox_used: 0,
    pop3_last_login: 0,
    uidvalidity: 0,
    deleted: 0,
    answered: 0,
    flagged: 0,
    options: 0,
    leaked_cache: 0,
    highestmodseq: 1,
    deletedmodseq: 0,
    exists: 0,
    first_expunged: 0,
    last_repack_time: 0,
    header_file_crc: 0,
    sync_crc: 0,
    recentuid: 0,
    recenttime: 0,
    spare_bytes: [0; 12],
};

// The bytes of the old index, if there is one: its length, then a sync, then its bytes.
pub(crate) fn read_old<D: Disk>(
    alloc: Global,
    disk: &mut D,
) -> Result<Option<Vec<u8>>, RebuildFault>
    ensures read { IfOk result (λ file. WhereRead (D.state disk.old)
        (λ main. main ≡ option_map (λ bytes. bytes.items) file)) }
    ensures refused { IfErr result (λ fault. WhereRead (D.state disk.old)
        (λ main. IsReadRefusal main fault)) }
    ensures kind { IfErr result IsReadKind }
    ensures cause { FaultHasCause IsDiskFault (D.state disk.old).faults (D.state disk.new).faults
        result }
    ensures short { IfOk result (λ file. IfSome file (λ bytes. length bytes.items ≤ SKIP_LIMIT)) }
    ensures same { IfOk result (λ _. (D.state disk.new).reads ≡ (D.state disk.old).reads) }
    ensures leaves { MayLeaveLess (D.state disk.old) (D.state disk.new) }
    ensures rest { D.disk_rest disk.old disk.new }
{
    let size = match disk.length() {
        Ok(Some(size)) => size,
        Ok(None) => return Ok(None),
        Err(_) => return Err(RebuildFault::DiskFault),
    };
    if size > SKIP_LIMIT {
        return Err(RebuildFault::TooBig { size });
    }
    let Ok(()) = disk.sync() else {
        return Err(RebuildFault::DiskFault);
    };
    match read_whole(alloc, disk, size) {
        Ok(bytes) => Ok(Some(bytes)),
        Err(ReadFault::NoMemory) => Err(RebuildFault::NoMemory),
        Err(ReadFault::DiskFault) => Err(RebuildFault::DiskFault),
    }
}

// What these bytes are of an index.
pub(crate) fn old_index(file: Option<&[u8]>) -> OldIndex<'_>
    ensures is { IsOldIndex (option_map (λ bytes. bytes.now) file.entry) result }
    ensures short { IfSome file.entry (λ bytes. length bytes.now ≤ SKIP_LIMIT) → IsShort result }
{
    match file {
        None => OldIndex::Absent,
        Some(bytes) => match view_index(bytes) {
            Ok(view) => OldIndex::Whole(view),
            Err(fault) => OldIndex::Damaged(fault),
        },
    }
}

impl<'a> OldIndex<'a> {
    // The index, where it is there and without a fault.
    pub(crate) fn view(&self) -> Option<IndexView<'a>>
        ensures view { result ≡ view_of self.now }
        ensures whole { (image : Image) → IsOldIndex image self.now →
            option_map file_of result ≡ whole_index image }
    {
        match self {
            OldIndex::Whole(view) => Some(*view),
            _ => None,
        }
    }

    // Its header, or what stands for it.
    pub(crate) fn header(&self) -> IndexHeader
        ensures { (image : Image) → IsOldIndex image self.now →
            result ≡ old_header (whole_index image) }
    {
        match self {
            OldIndex::Whole(view) => view.header(),
            _ => NEW_HEADER,
        }
    }
}
