// The line that a check prints.
ghost use Rattle.std.specs.Prelude.{◌≡◌, IfSome, IfNone};
ghost use Rattle.base_devices.specs.HostCalls.{moment};
ghost use Rattle.base_notes.specs.declared.note.Note.TheVariants.{Memory};
ghost use Rattle.cyr_top.specs.Stated.{flaw_line};
ghost use Rattle.db_core.specs.Opening.{IsDamage};
ghost use Rattle.db_core.specs.declared.opening.OpenFault.TheVariants.{Damaged};
ghost use Rattle.db_tool.specs.Doing.{Looks};
ghost use Rattle.db_tool.specs.ToolNotes.{IsFault};

use arrayvec::ArrayString;
use base_bytes::Damage;
use base_devices::Host;
use base_notes::Note;
use db_core::OpenFault;
use db_tool::HOST_FAULT;
use itoa::Buffer;

/// Room for the longest line of a check, in bytes: 21 fixed ones, a flaw's name of up to 9, and a number of up to 20.
const CHECK_LINE_ROOM: usize = 64;

/// The flaw of a database that was not opened for one.
pub(crate) fn flaw_of(fault: OpenFault) -> Option<Damage>
    ensures some { IfSome result (λ damage. fault ≡ Damaged damage.at damage.check) }
    ensures none { IfNone result (¬ IsDamage fault) }
{
    match fault {
        OpenFault::Damaged { at, check } => Some(Damage { at, check }),
        _ => None,
    }
}

/// The line of a check that met a flaw. It takes no memory.
pub(crate) fn line_of_flaw(flaw: Damage) -> ArrayString<CHECK_LINE_ROOM>
    ensures { result.bytes ≡ flaw_line flaw.at flaw.check }
{
    let mut buffer = Buffer::new();
    let mut line = ArrayString::new();
    line.push_str("not consistent: ");
    line.push_str(flaw.check.name());
    line.push_str(" at ");
    line.push_str(buffer.format(flaw.at));
    line.push_str("\n");
    line
}

/// Prints a line, and ends with the note.
pub(crate) fn end_with<H: Host>(host: &mut H, line: &str, note: Note) -> Note
    requires fault { ¬ IsFault note }
    requires memory { ¬ (note ≡ Memory) }
    ensures looks { Looks note line.now (moment (H.state host.old) (H.streams host.old))
        (moment (H.state host.new) (H.streams host.new)) result }
    ensures rest { H.host_rest host.old host.new }
{
    match host.tell(line.as_bytes()) {
        Ok(()) => note,
        Err(_) => HOST_FAULT,
    }
}
