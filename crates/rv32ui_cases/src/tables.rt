//! The cases as they are published, instruction by instruction.

pub(super) mod branching;
pub(super) mod jumping;
pub(super) mod loading;
pub(super) mod register_immediate;
pub(super) mod register_register;
pub(super) mod storing;
pub(super) mod upper_immediate;
