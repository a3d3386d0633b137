//! The arithmetic of RV32I: what its instructions compute, apart from registers and memory.

#![tactic(auto)]

/// The operations on two registers, or on a register and an immediate.
mod operations;
/// The comparisons of the branches.
mod comparisons;
/// What a load puts into a register.
mod loads;
/// What a store writes, and to which bytes of a word.
mod stores;

pub use comparisons::{Comparison, compare};
pub use loads::{Load, loaded};
pub use operations::{Operation, operate};
pub use stores::{Lanes, Store, store_lanes};
