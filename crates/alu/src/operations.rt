ghost use Rattle.std.specs.Prelude.{◌≡◌};
ghost use Rattle.alu.specs.Operations.{operated};

/// An operation on two words.
#[derive(Clone, Copy, PartialEq, Eq, Debug)]
pub enum Operation {
    /// The sum, modulo 2^32.
    Add,
    /// The difference, modulo 2^32.
    Sub,
    /// The first shifted left, by the second modulo 32.
    Sll,
    /// 1 if the first is less than the second, both as signed numbers, and else 0.
    Slt,
    /// 1 if the first is less than the second, both as unsigned numbers, and else 0.
    Sltu,
    /// The exclusive or of the bits.
    Xor,
    /// The first shifted right, by the second modulo 32, with zeros at the top.
    Srl,
    /// The first shifted right, by the second modulo 32, with copies of its sign bit at the top.
    Sra,
    /// The or of the bits.
    Or,
    /// The and of the bits.
    And,
}

/// What `operation` gives of the operands `a` and `b`.
pub fn operate(operation: Operation, a: u32, b: u32) -> u32
    ensures { result ≡ operated operation a b }
{
    match operation {
        Operation::Add => a.wrapping_add(b),
        Operation::Sub => a.wrapping_sub(b),
        Operation::Sll => a.wrapping_shl(b),
        Operation::Slt => u32::from(a.cast_signed() < b.cast_signed()),
        Operation::Sltu => u32::from(a < b),
        Operation::Xor => a ^ b,
        Operation::Srl => a.wrapping_shr(b),
        Operation::Sra => a.cast_signed().wrapping_shr(b).cast_unsigned(),
        Operation::Or => a | b,
        Operation::And => a & b,
    }
}
