//! What a tool does with an open database of any kind, and what it prints.
//!
//! Read in this order:
//!   notes      the notes of refusals
//!   printing   output is gathered and printed in large pieces
//!   looking    `show` and `get`
//!   acting     `set` and `delete`, and all actions together; what each owes is its task, in `specs/Tasks.antt`
#![tactic(auto)]

mod acting;
mod looking;
mod notes;
mod printing;

pub use acting::act;
pub use looking::{print_text, print_value};
pub use notes::{HOST_FAULT, note_of_change, note_of_opening};
