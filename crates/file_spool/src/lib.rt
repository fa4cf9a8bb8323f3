//! A real folder of message files. Nothing is proved of the files themselves: read this crate by eye.
#![tactic(auto)]

mod ahead;
mod file_spool;
#[cfg(test)]
mod tests;

pub use file_spool::FileSpool;
