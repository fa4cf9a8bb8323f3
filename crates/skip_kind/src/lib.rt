//! What a twoskip file is as a kind of database, in the words of `db_core`.
#![tactic(auto)]

mod laws;

pub use laws::skip_kind_keeps_its_laws;
