//! Executed cases of the trace, and of what is read for it.

#![tactic(auto)]

#[cfg(test)]
mod files;
#[cfg(test)]
mod inputs;
#[cfg(test)]
mod memories;
#[cfg(test)]
mod refusals;
#[cfg(test)]
mod traces;
