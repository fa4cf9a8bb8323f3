//! How a twoskip file is spelled: its header, and the heads of its records. The layouts are in
//! docs/formats.md. Nothing here takes memory.
#![tactic(auto)]

mod fields;
mod head;
mod header;
mod laws;
mod opening;
mod sizes;

pub use head::{Head, Kind, head_at, pointer, write_head_into};
pub use header::{Header, read_header, write_header};
pub use laws::spelling_is_unique;
pub use sizes::{head_size, level_of, record_size, tail_check};

#[cfg(test)]
mod tests;
