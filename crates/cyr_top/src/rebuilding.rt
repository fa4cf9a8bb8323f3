// The index of a folder is rebuilt, and the run ends with a note.
ghost use Rattle.std.specs.Prelude.{◌≡◌};
ghost use Rattle.base_devices.specs.HostCalls.{moment};
ghost use Rattle.base_devices.specs.SpoolCalls.{GaveNoName, shown_files};
ghost use Rattle.base_notes.specs.declared.note.Device.TheVariants.{Spool as SpoolDevice};
ghost use Rattle.cyr_top.specs.Rebuilding.{DoesRebuild, rebuild_note, rebuild_of};
ghost use Rattle.db_tool.specs.ToolNotes.{Faults};

use base_bytes::FILES_LIMIT;
use base_devices::{Host, Spool};
use base_notes::{Device, LimitName, Note, Options};
use db_tool::HOST_FAULT;
use mail_rebuild::{RebuildFault, rebuild};
use std::alloc::Global;

// The note of a rebuild that was refused.
fn note_of_rebuild(fault: RebuildFault) -> Note
    ensures { result ≡ rebuild_note fault }
{
    let (limit, number) = match fault {
        RebuildFault::TooMany => (LimitName::Files, FILES_LIMIT + 1),
        RebuildFault::TooBig { size } => (LimitName::File, size),
        RebuildFault::ModseqFull => (LimitName::Modseq, u64::MAX),
        RebuildFault::SpoolFault => {
            return Note::DeviceFault {
                device: Device::Spool,
            };
        }
        RebuildFault::DiskFault | RebuildFault::WriteFault => return HOST_FAULT,
        RebuildFault::NoMemory => return Note::Memory,
    };
    Note::Limit { limit, number }
}

/// Rebuilds the index of the spool's folder, which is the host's main file. `now` is the time in seconds since 1970.
pub(crate) fn reconstruct<H: Host, S: Spool>(
    alloc: Global,
    options: &Options,
    host: &mut H,
    spool: &mut S,
    now: u64,
) -> Note
    requires { GaveNoName (S.state spool.old) }
    ensures does { DoesRebuild (rebuild_of (S.state spool.old) now options.now)
        (moment (H.state host.old) (H.streams host.old))
        (moment (H.state host.new) (H.streams host.new)) result }
    ensures spool_faults { Faults SpoolDevice result (S.state spool.old).faults
        (S.state spool.new).faults }
    ensures files { shown_files (S.state spool.new) ≡ shown_files (S.state spool.old) }
    ensures spool_rest { S.spool_rest spool.old spool.new }
    ensures rest { H.host_rest host.old host.new }
{
    match rebuild(alloc, host, spool, now, options) {
        Ok(_) => Note::Done,
        Err(fault) => note_of_rebuild(fault),
    }
}
