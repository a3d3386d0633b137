//! Executed cases of the bench and of lists of calls.

#![tactic(auto)]

#[cfg(test)]
mod clocks;
#[cfg(test)]
mod counted_loop;
#[cfg(test)]
mod refusals;
#[cfg(test)]
mod seen;
#[cfg(test)]
mod shielded;
