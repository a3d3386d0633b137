ghost use Rattle.std.specs.Prelude.{Some};
ghost use Rattle.assembly.specs.Hexadecimal.{eight_digits};

use std::fmt;

/// A number in its eight lower-case hexadecimal digits.
#[derive(Clone, Copy)]
pub struct Hex(pub u32);

impl fmt::Display for Hex {
    ghost output = { λ h. Some (eight_digits h.0) };

    #[tactic(auto, using(crate::proofs::Digits::eight_digits_is))]
    fn fmt<W: fmt::Write>(&self, f: &mut fmt::Formatter<W>) -> fmt::Result {
        let number = self.0;
        write!(f, "{number:08x}")
    }
}
