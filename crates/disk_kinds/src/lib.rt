//! The devices under one name: those in memory, and real ones. They stand in six crates, which meet the same traits.
#![tactic(auto)]

pub use file_devices::{FileDisk, FileHost};
pub use file_source::StdinSource;
pub use file_spool::FileSpool;
pub use mem_devices::{Counts, MemDisk, MemHost};
pub use mem_source::MemSource;
pub use mem_spool::MemSpool;
