//! The file of a database is rewritten afresh: what that owes, whatever its kind.
//!
//! specs/Repacking.antt has what a repack answers, writes and leaves. There is no code here.
#![tactic(auto)]
