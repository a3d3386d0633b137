//! The lines that answer commands: one for each answer of a bench, and one that shows its state.

#![tactic(auto)]

mod answer;
mod refusals;
mod shown;

pub use answer::AnswerLine;
pub use shown::ShowLine;
