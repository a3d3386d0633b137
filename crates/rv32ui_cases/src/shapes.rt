//! What a case is: the published macros with their arguments in the published order, and what each puts into a program.
//! Nops come first, then the result, then what it is made from. A bypass case runs twice, in a loop.

pub(crate) mod branch_cases;
pub(crate) mod immediate_cases;
pub(crate) mod jump_cases;
pub(crate) mod load_cases;
pub(crate) mod register_cases;
pub(crate) mod store_cases;
pub(crate) mod upper_cases;
