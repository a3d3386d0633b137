//! Executed cases of stores and layers.

#![tactic(auto)]

#[cfg(test)]
mod layers_at_their_ends;
#[cfg(test)]
mod stacks;
#[cfg(test)]
mod stores_by_mask;
