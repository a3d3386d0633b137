use super::mnemonic::Mnemonic;

/// An instruction with its operands. An operand that the mnemonic's format lacks is 0.
///
/// The immediate is the number that the manual means: signed for the formats I, S, B and J, the shift
/// amount for a shift, and from 0 to 2^32 - 4096 for the format U. In 64 bits each of them has one value.
#[derive(Clone, Copy, PartialEq, Eq, Debug)]
pub struct Instruction {
    pub mnemonic: Mnemonic,
    pub rd: u8,
    pub rs1: u8,
    pub rs2: u8,
    pub immediate: i64,
}
