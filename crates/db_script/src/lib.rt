//! Scripts over an open database of any kind: lines of a source are done one by one, each with its reply.
#![tactic(auto)]

mod batching;
mod buffer;
mod doing;
mod form;
mod line;
mod printing;
mod replying;
mod script;

pub use batching::batch;
pub use buffer::Found;
pub use line::Line;
pub use script::{Script, ScriptFault};
