//! Devices in memory, which show all that they hold: the models by which the crates above are tested and proved.
//!
//! Read in this order; `docs/devices.md` has the model in words:
//!   call_log   which number each call has, and what it did
//!   landings   the lines of a write, and when a disk stops
//!   memory     a disk over such a record
//!   mem_host   a host around that disk
//!   replay     the record is played again: what a stop leaves
//!   buffers    memory that is taken at once
#![tactic(auto)]

mod buffers;
mod call_log;
mod landings;
mod mem_host;
mod memory;
mod replay;
#[cfg(test)]
mod tests;

pub use mem_host::MemHost;
pub use memory::{Counts, MemDisk};
