//! Two stores under a stack of layers, and two that are written through a join.

#![tactic(auto)]

mod lent;
mod settings;

pub use lent::write_beside;
pub use settings::Settings;
