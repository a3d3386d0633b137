//! What an instruction does: a word decoded once into its class, the operation and the operands.

#![tactic(auto)]

mod action;
mod reading;

pub use action::Action;
pub use reading::action_of;
