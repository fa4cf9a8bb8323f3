//! Standard input as a source of bytes. Nothing is proved of the bytes themselves: read this crate by eye.
#![tactic(auto)]

mod stdin_source;
#[cfg(test)]
mod tests;

pub use stdin_source::StdinSource;
