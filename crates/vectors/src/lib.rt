//! Known values: worked examples of the instruction set, proved against its definitions.

#![tactic(auto)]

ghost use Rattle.std.specs.Prelude.{◌≡◌, length};
ghost use Rattle.vectors.specs.Examples.{Every};
ghost use Rattle.vectors.specs.Values.{table};

/// How many worked examples there are. That the definitions give each of them is what its contract says.
#[tactic(auto, using(crate::proofs::Tests::every_value))]
pub fn known_values() -> usize
    ensures all { Every table }
    ensures count { result ≡ length table }
{
    13
}
