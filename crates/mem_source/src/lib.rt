//! A source of bytes in memory.
#![tactic(auto)]

mod mem_source;

pub use mem_source::MemSource;
