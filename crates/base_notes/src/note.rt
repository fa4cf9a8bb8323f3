// How a run ends: its note, the note's status and the note's text.
ghost use Rattle.std.specs.Prelude.{◌≡◌, ◌≤◌, ◌++◌, length, codes, decimal};
ghost use Rattle.base_bytes.specs.Flaws.{flaw_text};
ghost use Rattle.base_notes.specs.Notes.{limit_text, device_text, note_text, status_of};

use crate::{
    STATUS_ABSENT, STATUS_BAD_LINE, STATUS_DAMAGED, STATUS_DEVICE_FAULT, STATUS_DONE,
    STATUS_EXISTS, STATUS_LIMIT, STATUS_NEGATIVE, STATUS_NO_MEMORY, STATUS_USAGE,
};
use arrayvec::ArrayString;
use base_bytes::Flaw;
use itoa::Buffer;

/// What has a limit.
#[derive(Clone, Copy, Debug, PartialEq, Eq)]
pub enum LimitName {
    Key,
    Value,
    Script,
    File,
    Files,
    Modseq,
}

/// A device that can fail.
#[derive(Clone, Copy, Debug, PartialEq, Eq)]
pub enum Device {
    /// The main file, its new file, and standard output.
    Host,
    /// The second database of a conversion.
    Second,
    /// The folder of message files.
    Spool,
    /// Standard input.
    Input,
}

/// How a run ended.
#[derive(Clone, Copy, Debug, PartialEq, Eq)]
pub enum Note {
    /// The stated result was reached.
    Done,
    /// The key is absent, or the file is not consistent.
    Answer,
    /// The words give no job.
    Usage,
    /// This line of the script is wrong, counted from 1; or, as line 1, a key is empty.
    BadLine { line: u64 },
    /// The database is absent and is not to be made.
    Absent,
    /// This number passes the limit.
    Limit { limit: LimitName, number: u64 },
    /// The new file of a conversion is there.
    Exists,
    /// The device failed.
    DeviceFault { device: Device },
    /// Memory ran out.
    Memory,
    /// The database opens to no map; its first flaw, and the offset in bytes.
    Damaged { at: u64, check: Flaw },
}

/// The end of a run: the status of the process, and why.
#[derive(Clone, Copy, Debug, PartialEq, Eq)]
pub struct Outcome {
    pub status: u8,
    pub note: Note,
}

/// The longest text of a note, in bytes.
pub const NOTE_LENGTH: usize = 64;

/// The text of a note, which takes no memory.
pub type NoteText = ArrayString<NOTE_LENGTH>;

fn limit_name(limit: LimitName) -> &'static str
    ensures name { result.now ≡ limit_text limit }
    ensures short { length result.now ≤ 6 }
{
    match limit {
        LimitName::Key => "key",
        LimitName::Value => "value",
        LimitName::Script => "script",
        LimitName::File => "file",
        LimitName::Files => "files",
        LimitName::Modseq => "modseq",
    }
}

fn device_name(device: Device) -> &'static str
    ensures name { result.now ≡ device_text device }
    ensures short { length result.now ≤ 6 }
{
    match device {
        Device::Host => "host",
        Device::Second => "second",
        Device::Spool => "spool",
        Device::Input => "input",
    }
}

fn bad_line(line: u64) -> NoteText
    ensures { result.bytes ≡ codes "line " ++ decimal line ++ codes ": wrong\n" }
{
    let mut buffer = Buffer::new();
    let mut text = NoteText::new();
    text.push_str("line ");
    text.push_str(buffer.format(line));
    text.push_str(": wrong\n");
    text
}

fn plain(words: &str) -> NoteText
    requires { length words.now ≤ 16 }
    ensures { result.bytes ≡ words.now }
{
    let mut text = NoteText::new();
    text.push_str(words);
    text
}

fn device_fault(device: Device) -> NoteText
    ensures { result.bytes ≡ codes "device fault: " ++ device_text device ++ codes "\n" }
{
    let mut text = NoteText::new();
    text.push_str("device fault: ");
    text.push_str(device_name(device));
    text.push_str("\n");
    text
}

// A name and a number, and the words before each.
fn named(before: &str, name: &str, between: &str, number: u64) -> NoteText
    requires before { length before.now ≤ 9 }
    requires name { length name.now ≤ 9 }
    requires between { length between.now ≤ 4 }
    ensures { result.bytes ≡ before.now ++ name.now ++ between.now ++ decimal number ++ codes "\n" }
{
    let mut buffer = Buffer::new();
    let mut text = NoteText::new();
    text.push_str(before);
    text.push_str(name);
    text.push_str(between);
    text.push_str(buffer.format(number));
    text.push_str("\n");
    text
}

impl Note {
    /// The status of a run that ends so.
    pub fn status(self) -> u8
        ensures { result ≡ status_of self }
    {
        match self {
            Note::Done => STATUS_DONE,
            Note::Answer => STATUS_NEGATIVE,
            Note::Usage => STATUS_USAGE,
            Note::BadLine { .. } => STATUS_BAD_LINE,
            Note::Absent => STATUS_ABSENT,
            Note::Limit { .. } => STATUS_LIMIT,
            Note::Exists => STATUS_EXISTS,
            Note::DeviceFault { .. } => STATUS_DEVICE_FAULT,
            Note::Memory => STATUS_NO_MEMORY,
            Note::Damaged { .. } => STATUS_DAMAGED,
        }
    }

    /// The text that standard error gets, with its line feed. `Done` and `Answer` have none.
    pub fn text(self) -> NoteText
        ensures { result.bytes ≡ note_text self }
    {
        match self {
            Note::Done | Note::Answer => NoteText::new(),
            Note::Usage => plain("usage\n"),
            Note::BadLine { line } => bad_line(line),
            Note::Absent => plain("absent\n"),
            Note::Limit { limit, number } => named("limit ", limit_name(limit), ": ", number),
            Note::Exists => plain("exists\n"),
            Note::DeviceFault { device } => device_fault(device),
            Note::Memory => plain("no memory\n"),
            Note::Damaged { at, check } => named("damaged: ", check.name(), " at ", at),
        }
    }
}
