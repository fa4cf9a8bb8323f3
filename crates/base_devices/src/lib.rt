//! The devices as traits, with what each call does, what a crash may leave at each moment, and when a call may fail.
//!
//! Read in this order; `docs/devices.md` has the model in words:
//!   disk     a main file, which may be absent, and a new file beside it
//!   host     a disk with standard output and standard error
//!   reading  a file is read whole
//!   spool    a folder of message files
//!   faults   what a real device counts
#![tactic(auto)]

mod disk;
mod faults;
mod host;
mod reading;
mod spool;

pub use disk::{Disk, Failed};
pub use faults::counted;
pub use host::Host;
pub use reading::{ReadFault, read_whole};
pub use spool::{NAME_LIMIT, Name, Spool};
