//! What the words of a command line can ask for, and how a run ends.
//!
//! Read in this order:
//!   action   the actions of `cyr_dbtool`, the backends, the flags of `reconstruct`
//!   status   the statuses of the process
//!   note     how a run ended: its note, with the status and the text of each
#![tactic(auto)]

mod action;
mod note;
mod status;

pub use action::{Action, Backend, Options};
pub use note::{Device, LimitName, Note, NoteText, Outcome};
pub use status::{
    STATUS_ABSENT, STATUS_BAD_LINE, STATUS_DAMAGED, STATUS_DEVICE_FAULT, STATUS_DONE,
    STATUS_EXISTS, STATUS_LIMIT, STATUS_NEGATIVE, STATUS_NO_MEMORY, STATUS_USAGE,
};
