//! Tests of databases that are rewritten afresh, of both kinds, over disks in memory. There is no code here.
#![tactic(auto)]

#[cfg(test)]
mod tests;
