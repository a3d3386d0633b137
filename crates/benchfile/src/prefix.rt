ghost use Rattle.std.specs.Prelude.{◌≡◌};
ghost use Rattle.benchfile.specs.Laws.{Decides};

use super::file::{HEADER_LENGTH, LONGEST_IMAGE};

/// One byte more than the longest file has.
pub(super) const ENOUGH: usize = HEADER_LENGTH + LONGEST_IMAGE as usize + 1;

/// How many bytes of an input suffice: of any longer input the first so many get the
/// verdict that the whole gets, so that an input without end can be judged.
#[tactic(auto, using(crate::proofs::FirstBytes::enough))]
pub fn enough_bytes() -> usize
    ensures value { result ≡ 32793 }
    ensures decides { Decides result }
{
    ENOUGH
}
