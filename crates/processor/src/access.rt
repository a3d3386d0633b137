ghost use Rattle.std.specs.Prelude.{◌≡◌};
ghost use Rattle.processor.specs.Accesses.{suits, word_in, written_in};

use memory::MemoryFault;

// `Nothing` is a case of both, and no Option around the others: `suits`, `word` and `written` are methods of a reply, and the
// core's table takes any reply by them, which of an Option they could not be; and an access is matched together with its reply.

/// What a core asks of the memory in one clock: nothing, one read or one write.
#[derive(Clone, Copy, PartialEq, Eq, Debug)]
pub enum Access {
    Nothing,
    /// The word of this number.
    Read(u32),
    /// The lanes of a word that the mask names, from the value.
    Write { word: u32, value: u32, mask: u8 },
}

/// What the memory answers.
#[derive(Clone, Copy, PartialEq, Eq, Debug)]
pub enum Reply {
    Nothing,
    Read(Result<u32, MemoryFault>),
    Written(Result<(), MemoryFault>),
}

impl Reply {
    /// Whether this is a reply to `access`: to a read the word or a fault, to a write that it was made or a fault.
    pub fn suits(self, access: Access) -> bool
        ensures { result ≡ suits access self }
    {
        matches!(
            (access, self),
            (Access::Nothing, Reply::Nothing)
                | (Access::Read(_), Reply::Read(_))
                | (Access::Write { .. }, Reply::Written(_))
        )
    }

    /// The answer to a read. A reply to anything else gives 0.
    pub fn word(self) -> Result<u32, MemoryFault>
        ensures { result ≡ word_in self }
    {
        match self {
            Reply::Read(answer) => answer,
            _ => Ok(0),
        }
    }

    /// The answer to a write. A reply to anything else is no refusal.
    pub fn written(self) -> Result<(), MemoryFault>
        ensures { result ≡ written_in self }
    {
        match self {
            Reply::Written(answer) => answer,
            _ => Ok(()),
        }
    }
}
