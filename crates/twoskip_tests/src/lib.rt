//! Tests of twoskip databases over a disk in memory.
#![tactic(auto)]

#[cfg(test)]
mod tests;
