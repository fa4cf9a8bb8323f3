//! Tests of whole runs on twoskip files over a host in memory.
#![tactic(auto)]

#[cfg(test)]
mod tests;
