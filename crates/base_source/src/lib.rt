//! A source of bytes as a trait, with what its call does and when it may fail.
#![tactic(auto)]

mod source;

pub use source::Source;
