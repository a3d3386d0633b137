ghost use Rattle.std.specs.Prelude.{◌≡◌};
ghost use Rattle.benchfile.specs.Refusals.{number_of};

/// Why bytes are refused as a bench file.
#[derive(Clone, Copy, PartialEq, Eq, Debug)]
pub enum Refusal {
    /// There are under 24 bytes, or they do not begin with `RVB`.
    NotBenchFile = 11,
    /// The version is not 1.
    Version = 12,
    /// A reserved byte is not zero, or the base address and the image length are not whole words,
    /// do not fit the image that follows, or pass the end of the address space.
    Header = 13,
    /// The instruction limit is above 1,000,000.
    Limit = 7,
}

impl Refusal {
    /// The number that stands for the refusal: 11, 12, 13 or 7, in the order above.
    // A method, and no `From` for a number: a caller shall read that it is the number of the refusal.
    pub fn number(self) -> u8
        ensures { result ≡ number_of self }
    {
        self as u8
    }
}
