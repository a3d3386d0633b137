//! Executed cases of the core.

#![tactic(auto)]

#[cfg(test)]
mod instructions;
#[cfg(test)]
mod refusals;
#[cfg(test)]
mod replies;
#[cfg(test)]
mod seen;
