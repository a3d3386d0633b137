ghost use Rattle.std.specs.Prelude.{◌≡◌, ◌^◌, ◌<◌, ◌≤◌};
ghost use Rattle.bits.specs.Field.{field};
ghost use Rattle.bits.specs.Sign.{signed_of};
ghost use Rattle.isa.specs.Reading.{in_format};
ghost use Rattle.isa.specs.declared.mnemonic.Format.TheVariants.{Register, Immediate, Shift, Store, Branch, Upper, Jump};

use bits::{field, sign_extend};
use isa::{Instruction, Mnemonic};

// The register number from bit `lo` up.
fn register(word: u32, lo: u32) -> u8
    ensures { result ≡ field lo 5 word }
{
    field(word, lo, 5) as u8
}

// The number that `x`, of `width` bits, stands for in two's complement.
fn signed(x: u32, width: u32) -> i64
    requires { (0 < width) × ((width ≤ 32) × (x < 2 ^ width)) }
    ensures { result ≡ signed_of width x }
{
    i64::from(sign_extend(x, width).cast_signed())
}

// A function for each format: they differ in which operands they have and in where these stand.
pub(super) fn r_type(mnemonic: Mnemonic, word: u32) -> Instruction
    ensures { result ≡ in_format Register mnemonic word }
{
    Instruction {
        mnemonic,
        rd: register(word, 7),
        rs1: register(word, 15),
        rs2: register(word, 20),
        immediate: 0,
    }
}

pub(super) fn i_type(mnemonic: Mnemonic, word: u32) -> Instruction
    ensures { result ≡ in_format Immediate mnemonic word }
{
    Instruction {
        mnemonic,
        rd: register(word, 7),
        rs1: register(word, 15),
        rs2: 0,
        immediate: signed(field(word, 20, 12), 12),
    }
}

// The format I of a shift.
pub(super) fn shift_type(mnemonic: Mnemonic, word: u32) -> Instruction
    ensures { result ≡ in_format Shift mnemonic word }
{
    Instruction {
        mnemonic,
        rd: register(word, 7),
        rs1: register(word, 15),
        rs2: 0,
        immediate: i64::from(field(word, 20, 5)),
    }
}

pub(super) fn s_type(mnemonic: Mnemonic, word: u32) -> Instruction
    ensures { result ≡ in_format Store mnemonic word }
{
    let immediate = (field(word, 25, 7) << 5) + field(word, 7, 5);
    Instruction {
        mnemonic,
        rd: 0,
        rs1: register(word, 15),
        rs2: register(word, 20),
        immediate: signed(immediate, 12),
    }
}

pub(super) fn b_type(mnemonic: Mnemonic, word: u32) -> Instruction
    ensures { result ≡ in_format Branch mnemonic word }
{
    let immediate = (field(word, 31, 1) << 12)
        + (field(word, 7, 1) << 11)
        + (field(word, 25, 6) << 5)
        + (field(word, 8, 4) << 1);
    Instruction {
        mnemonic,
        rd: 0,
        rs1: register(word, 15),
        rs2: register(word, 20),
        immediate: signed(immediate, 13),
    }
}

pub(super) fn u_type(mnemonic: Mnemonic, word: u32) -> Instruction
    ensures { result ≡ in_format Upper mnemonic word }
{
    Instruction {
        mnemonic,
        rd: register(word, 7),
        rs1: 0,
        rs2: 0,
        immediate: i64::from(field(word, 12, 20) << 12),
    }
}

pub(super) fn j_type(mnemonic: Mnemonic, word: u32) -> Instruction
    ensures { result ≡ in_format Jump mnemonic word }
{
    let immediate = (field(word, 31, 1) << 20)
        + (field(word, 12, 8) << 12)
        + (field(word, 20, 1) << 11)
        + (field(word, 21, 10) << 1);
    Instruction {
        mnemonic,
        rd: register(word, 7),
        rs1: 0,
        rs2: 0,
        immediate: signed(immediate, 21),
    }
}
