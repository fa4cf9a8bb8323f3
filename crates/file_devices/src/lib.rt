//! Devices on real files: the trusted edge. No contract can say what a file holds, so read these by eye.
//!
//! Read in this order; `docs/devices.md` has the system calls of each call:
//!   real        the main file and the new file, as files of the system
//!   file        a disk of these two; each failure is counted once
//!   file_host   a host around that disk, with the standard streams
#![tactic(auto)]

mod file;
mod file_host;
mod real;
#[cfg(test)]
mod tests;

pub use file::FileDisk;
pub use file_host::FileHost;
