//! Executed cases of decoder and encoder.

#![tactic(auto)]

#[cfg(test)]
mod codes;
#[cfg(test)]
mod immediates;
