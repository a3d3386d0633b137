ghost use Rattle.std.specs.Prelude.{◌≡◌};
ghost use Rattle.isa.specs.Refusals.{number_of};

/// Why a word or an instruction is refused.
#[derive(Clone, Copy, PartialEq, Eq, Debug)]
pub enum Refusal {
    /// The word is no instruction.
    NoInstruction = 3,
    /// The instruction has no word: a register, a lacking operand or the immediate does not fit.
    DoesNotFit = 10,
}

impl Refusal {
    /// The refusal's number: 3 or 10.
    // A method, and no `From` for a number: a caller shall read that it is the number of the refusal.
    pub fn number(self) -> u8
        ensures { result ≡ number_of self }
    {
        self as u8
    }
}
