ghost use Rattle.std.specs.Prelude.{◌≡◌};
ghost use Rattle.alu.specs.Operations.{word_of};
ghost use Rattle.isa.specs.Decoding.{reading_of};
ghost use Rattle.actions.specs.Actions.{action_by, action_of_word, FoundAsRead};

use super::action::Action;
use alu::{Comparison, Load, Operation, Store};
use decode::decode;
use isa::{Instruction, Mnemonic};

// An immediate modulo 2^32.
fn word_of(immediate: i64) -> u32
    ensures { result ≡ word_of immediate }
{
    (immediate.cast_unsigned() % 0x1_0000_0000) as u32
}

// What an instruction does, by its mnemonic.
fn by_mnemonic(instruction: Instruction) -> Action
    ensures { result ≡ action_by instruction.mnemonic instruction }
{
    let Instruction {
        mnemonic,
        rd,
        rs1,
        rs2,
        immediate,
    } = instruction;
    let immediate = word_of(immediate);
    let comp = |operation| Action::Comp {
        operation,
        rd,
        rs1,
        rs2,
    };
    let comp_immediate = |operation| Action::CompI {
        operation,
        rd,
        rs1,
        immediate,
    };
    let load = |load| Action::Ld {
        load,
        rd,
        rs1,
        immediate,
    };
    let store = |store| Action::St {
        store,
        rs1,
        rs2,
        immediate,
    };
    let branch = |comparison| Action::Br {
        comparison,
        rs1,
        rs2,
        immediate,
    };
    // A line for each mnemonic, as in the definition.
    match mnemonic {
        Mnemonic::Add => comp(Operation::Add),
        Mnemonic::Sub => comp(Operation::Sub),
        Mnemonic::Sll => comp(Operation::Sll),
        Mnemonic::Slt => comp(Operation::Slt),
        Mnemonic::Sltu => comp(Operation::Sltu),
        Mnemonic::Xor => comp(Operation::Xor),
        Mnemonic::Srl => comp(Operation::Srl),
        Mnemonic::Sra => comp(Operation::Sra),
        Mnemonic::Or => comp(Operation::Or),
        Mnemonic::And => comp(Operation::And),
        Mnemonic::Addi => comp_immediate(Operation::Add),
        Mnemonic::Slli => comp_immediate(Operation::Sll),
        Mnemonic::Slti => comp_immediate(Operation::Slt),
        Mnemonic::Sltiu => comp_immediate(Operation::Sltu),
        Mnemonic::Xori => comp_immediate(Operation::Xor),
        Mnemonic::Srli => comp_immediate(Operation::Srl),
        Mnemonic::Srai => comp_immediate(Operation::Sra),
        Mnemonic::Ori => comp_immediate(Operation::Or),
        Mnemonic::Andi => comp_immediate(Operation::And),
        Mnemonic::Lui => Action::Lui { rd, immediate },
        Mnemonic::Auipc => Action::Auipc { rd, immediate },
        Mnemonic::Lb => load(Load::Byte),
        Mnemonic::Lh => load(Load::Half),
        Mnemonic::Lw => load(Load::Word),
        Mnemonic::Lbu => load(Load::ByteUnsigned),
        Mnemonic::Lhu => load(Load::HalfUnsigned),
        Mnemonic::Sb => store(Store::Byte),
        Mnemonic::Sh => store(Store::Half),
        Mnemonic::Sw => store(Store::Word),
        Mnemonic::Jal => Action::Jal { rd, immediate },
        Mnemonic::Jalr => Action::Jalr { rd, rs1, immediate },
        Mnemonic::Beq => branch(Comparison::Equal),
        Mnemonic::Bne => branch(Comparison::NotEqual),
        Mnemonic::Blt => branch(Comparison::Less),
        Mnemonic::Bge => branch(Comparison::GreaterEqual),
        Mnemonic::Bltu => branch(Comparison::LessUnsigned),
        Mnemonic::Bgeu => branch(Comparison::GreaterEqualUnsigned),
    }
}

// The instruction that `word` is, or none. A function of its own: in one with `action_of` a mistake would be refused by the file of
// its proof, and not by the contract.
#[tactic(auto, using(crate::proofs::Readings::found_word))]
fn reading(word: u32) -> Option<Instruction>
    ensures value { result ≡ reading_of word }
    ensures law { FoundAsRead word }
{
    decode(word).ok()
}

/// What `word` does as an instruction; none if it is no instruction.
pub fn action_of(word: u32) -> Option<Action>
    ensures value { result ≡ action_of_word word }
    ensures law { FoundAsRead word }
{
    reading(word).map(by_mnemonic)
}
