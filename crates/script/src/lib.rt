//! Whole scripts of commands, as lists of calls, and lists of calls with looks between them.

#![tactic(auto)]

mod fault;
mod looks;
mod reading;

pub use fault::ScriptFault;
pub use looks::with_looks;
pub use reading::read_script;
