//! The shared types and the device traits under one name, for programs that use the crates of this repository
//! as libraries. They stand in four crates, which the crates here name directly: so an edit of a note's text
//! proves no format anew, and an edit of a device trait no message.
#![tactic(auto)]

pub use base_bytes::{
    Bytes, Change, Damage, Escaped, FILES_LIMIT, FLAT_LIMIT, Flaw, KEY_LIMIT, NoMemory, PIECE_SIZE,
    Pair, Piece, SCRIPT_LIMIT, SKIP_LIMIT, Steps, Text, VALUE_LIMIT, bad_escape, compare_keys,
    escape_into, escaped_size, fields_read_back, part_at, u32_at, u64_at, unescape,
};
pub use base_devices::{
    Disk, Failed, Host, NAME_LIMIT, Name, ReadFault, Spool, counted, read_whole,
};
pub use base_notes::{
    Action, Backend, Device, LimitName, Note, NoteText, Options, Outcome, STATUS_ABSENT,
    STATUS_BAD_LINE, STATUS_DAMAGED, STATUS_DEVICE_FAULT, STATUS_DONE, STATUS_EXISTS, STATUS_LIMIT,
    STATUS_NEGATIVE, STATUS_NO_MEMORY, STATUS_USAGE,
};
pub use base_source::Source;
