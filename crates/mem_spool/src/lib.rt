//! A folder of message files in memory.
#![tactic(auto)]

mod mem_spool;
#[cfg(test)]
mod tests;

pub use mem_spool::MemSpool;
