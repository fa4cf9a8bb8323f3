//! What a mailbox folder holds: the names of its files, and the facts of each message.
//! Read in this order:
//!   names        the uid that a file's name stands for, and the name of a uid
//!   listing      the names of a folder, sorted out; fault: why it may fail
//!   dates        the seconds of a date as mail has it
//!   header       where the header of a message ends, read in pieces
//!   field_state, date_field   the Date field of a header, read in pieces
//!   facts        size, digest, lines and date of a message, read in pieces
//!   scanning     a message is read once
#![tactic(auto)]

mod date_field;
mod dates;
mod facts;
mod fault;
mod field_state;
mod header;
mod listing;
mod names;
mod scanning;
#[cfg(test)]
mod tests;

pub use dates::date_seconds;
pub use facts::Scanned;
pub use fault::ScanFault;
pub use listing::{Listing, list};
pub use names::{message_name, uid_of_name};
pub use scanning::scan;
