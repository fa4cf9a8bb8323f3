//! Tests of a rebuild over a folder and a host in memory.
#![tactic(auto)]

#[cfg(test)]
mod tests;
