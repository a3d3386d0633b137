//! Executed cases of the report on the published RISC-V tests.

#![tactic(auto)]

#[cfg(test)]
mod failures;
