ghost use Rattle.std.specs.Prelude.{◌≡◌};
ghost use Rattle.alu.specs.Comparisons.{compared};

/// A comparison of two words, by which a branch is taken.
#[derive(Clone, Copy, PartialEq, Eq, Debug)]
pub enum Comparison {
    /// BEQ: they are equal.
    Equal,
    /// BNE: they differ.
    NotEqual,
    /// BLT: the first is less, as signed numbers.
    Less,
    /// BGE: the first is greater or equal, as signed numbers.
    GreaterEqual,
    /// BLTU: the first is less, as unsigned numbers.
    LessUnsigned,
    /// BGEU: the first is greater or equal, as unsigned numbers.
    GreaterEqualUnsigned,
}

/// Whether `comparison` holds of `a` and `b`, so that its branch is taken.
pub fn compare(comparison: Comparison, a: u32, b: u32) -> bool
    ensures { result ≡ compared comparison a b }
{
    match comparison {
        Comparison::Equal => a == b,
        Comparison::NotEqual => a != b,
        Comparison::Less => a.cast_signed() < b.cast_signed(),
        Comparison::GreaterEqual => a.cast_signed() >= b.cast_signed(),
        Comparison::LessUnsigned => a < b,
        Comparison::GreaterEqualUnsigned => a >= b,
    }
}
