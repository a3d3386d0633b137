ghost use Rattle.std.specs.Prelude.{◌≡◌};
ghost use Rattle.memory.specs.Meaning.{refused};
ghost use Rattle.memory.specs.Refusals.{number_of};

/// Why a memory refuses a call.
#[derive(Clone, Copy, PartialEq, Eq, Debug)]
pub enum Cause {
    /// The word is absent.
    NoWord = 2,
    /// The word is fixed.
    FixedWord = 5,
    /// The mask is above 15.
    BadMask = 9,
}

impl Cause {
    /// The refusal's number: 2, 5 or 9.
    // A method, and no `From` for a number: a caller shall read that it is the number of the refusal.
    pub fn number(self) -> u8
        ensures { result ≡ number_of self }
    {
        self as u8
    }

    /// The refusal of a call for word `word`, for this cause.
    pub fn at(self, word: u32) -> MemoryFault
        ensures { result ≡ refused self word }
    {
        MemoryFault { cause: self, word }
    }
}

/// A refusal of a memory: its cause, and the word number that was given to the call.
#[derive(Clone, Copy, PartialEq, Eq, Debug)]
pub struct MemoryFault {
    pub cause: Cause,
    pub word: u32,
}
