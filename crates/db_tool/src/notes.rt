// The notes with which a tool ends where an opening or a change is refused.
ghost use Rattle.std.specs.Prelude.{◌≡◌};
ghost use Rattle.db_tool.specs.ToolNotes.{change_note, opening_note};

use base_notes::{Device, LimitName, Note};
use db_core::{DbFault, OpenFault};

/// The note of a run in which a call of the host failed.
pub const HOST_FAULT: Note = Note::DeviceFault {
    device: Device::Host,
};

/// The note of a change that was refused, over a database on this device.
pub fn note_of_change(device: Device, fault: DbFault) -> Note
    ensures { result ≡ change_note device fault }
{
    let (limit, number) = match fault {
        DbFault::KeyTooLong { length } => (LimitName::Key, length),
        DbFault::ValueTooLong { length } => (LimitName::Value, length),
        DbFault::Full { size } => (LimitName::File, size),
        DbFault::KeyEmpty => return Note::BadLine { line: 1 },
        DbFault::NoMemory => return Note::Memory,
        DbFault::Broken | DbFault::DiskFault => return Note::DeviceFault { device },
    };
    Note::Limit { limit, number }
}

/// The note of a database on this device that was not opened.
pub fn note_of_opening(device: Device, fault: OpenFault) -> Note
    ensures { result ≡ opening_note device fault }
{
    match fault {
        OpenFault::Absent => Note::Absent,
        OpenFault::TooBig { size } => Note::Limit {
            limit: LimitName::File,
            number: size,
        },
        OpenFault::NoMemory => Note::Memory,
        OpenFault::DiskFault => Note::DeviceFault { device },
        OpenFault::Damaged { at, check } => Note::Damaged { at, check },
    }
}
