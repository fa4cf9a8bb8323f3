//! Tests of the mail crates over folders in memory.
#![tactic(auto)]

#[cfg(test)]
mod tests;
