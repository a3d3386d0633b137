//! RV32I by whole instructions, as definitions (`specs/Machine`), and why an instruction cannot be carried out.

#![tactic(auto)]

mod cause;

pub use cause::Cause;
