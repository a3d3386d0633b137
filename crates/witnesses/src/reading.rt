ghost use Rattle.std.specs.Prelude.{◌≡◌, Some, Ok, Err, pos, negsuc, [], ◌∷◌};
ghost use Rattle.isa.specs.declared.mnemonic.Format.TheVariants.{Immediate, Register, Store};
ghost use Rattle.isa.specs.declared.mnemonic.Mnemonic.TheVariants.{Add, Addi, Lui, Lw, Lh};
ghost use Rattle.isa.specs.declared.refusal.Refusal.TheVariants.{DoesNotFit};
ghost use Rattle.isa.specs.Fitting.{Fits};
ghost use Rattle.isa.specs.Reading.{Reads};
ghost use Rattle.isa.specs.Table.{Selects, row_of};
ghost use Rattle.decode.specs.Classes.{Names, OnlyMnemonic};
ghost use Rattle.encode.specs.Words.{Carries, Filled, FilledUpper, Only, Within, Written};
ghost use Rattle.encode.specs.Laws.{OneInstruction, OneWord};
ghost use Rattle.actions.specs.Actions.{FoundAsRead};
ghost use Rattle.actions.specs.declared.action.Action.TheVariants.{CompI};
ghost use Rattle.alu.specs.declared.operations.Operation.TheVariants as operation;
ghost use Rattle.isa.specs.Decoding.{reading_of};
ghost use Rattle.vectors.specs.Examples.{Every, reads};
ghost use Rattle.witnesses.specs.Reading.{add, addi, beq, jal, lui, slli, sw};

use actions::{Action, action_of};
use decode::decode;
use encode::decode_encoded;
use isa::{Instruction, Mnemonic, Refusal};

/// A word reads as `addi x1, x0, 5`, and not as the same with 6. `OneInstruction` holds of every word; this is one that reads as an instruction.
#[tactic(auto, using(crate::proofs::Readings::decoded, crate::proofs::Readings::read))]
pub fn reads() -> Result<Instruction, Refusal>
    ensures value { result ≡ Ok (addi (pos 5)) }
    ensures shown { Reads 0x00500093 (addi (pos 5)) × (Reads 0x00500093 (addi (pos 6)) → ⊥) }
    ensures one { OneInstruction 0x00500093 }
{
    decode(0x00500093)
}

/// The search finds the same. `FoundAsRead` too holds of every word.
#[tactic(auto, using(crate::proofs::Readings::found, crate::proofs::Readings::finds))]
pub fn found() -> Option<Action>
    ensures value { result ≡ Some (CompI operation.Add 1 0 5) }
    ensures met { FoundAsRead 0x00500093 }
    ensures premise { (reading_of 0x00500093 ≡ Some (addi (pos 5))) × Reads 0x00500093 (addi (pos 5)) }
{
    action_of(0x00500093)
}

/// The codes of ADDI are those with its opcode and funct3, whatever the funct7, and none with another opcode.
#[tactic(auto, using(crate::proofs::Readings::selected))]
pub fn selects()
    ensures { Selects Addi 0b0010011 0b000 0b1010101 × (Selects Addi 0b0110011 0b000 0b1010101 → ⊥) }
{}

/// Of the loads, LW alone has this funct3.
#[tactic(auto, using(crate::proofs::Readings::one_load))]
pub fn only_mnemonic()
    ensures { OnlyMnemonic 0b0000011 0b010 (Ok Lw) × (OnlyMnemonic 0b0000011 0b010 (Ok Lh) → ⊥) }
{}

/// It is in the table with these codes and the format I, and LH is not, nor is it a store.
#[tactic(auto, using(crate::proofs::Readings::load_named))]
pub fn mnemonic_named()
    ensures { Names 0b0000011 0b010 Immediate (Ok Lw) × (Names 0b0000011 0b010 Immediate (Ok Lh) → ⊥) × (Names 0b0000011 0b010 Store (Ok Lw) → ⊥) }
{}

/// `addi x1, x0, 2047` fits, and so it comes back from its word. `OneWord` holds of every instruction; this is one that has a word.
#[tactic(auto, using(crate::proofs::Fitting::came_back, crate::proofs::Fitting::fit))]
pub fn fits() -> Result<Instruction, Refusal>
    ensures value { result ≡ Ok (addi (pos 2047)) }
    ensures shown { Fits (addi (pos 2047)) × (Fits (addi (pos 2048)) → ⊥) }
    ensures one { OneWord (addi (pos 2047)) }
{
    decode_encoded(&Instruction {
        mnemonic: Mnemonic::Addi,
        rd: 1,
        rs1: 0,
        rs2: 0,
        immediate: 2047,
    })
}

/// The ends of the other ranges, offsets and upper parts that are no multiples, no such register, and an immediate where there is none.
#[tactic(auto, using(crate::proofs::Fitting::registers, crate::proofs::Fitting::stores, crate::proofs::Fitting::branches, crate::proofs::Fitting::jumps, crate::proofs::Fitting::shifts, crate::proofs::Fitting::uppers))]
pub fn ends()
    ensures registers { Fits add × (Fits (record add { rd = 32 }) → ⊥) × (Fits (record add { immediate = pos 1 }) → ⊥) }
    ensures store { Fits (sw (negsuc 2047)) × (Fits (sw (negsuc 2048)) → ⊥) }
    ensures branch { Fits (beq (pos 4094)) × (Fits (beq (pos 4096)) → ⊥) × (Fits (beq (pos 4093)) → ⊥) }
    ensures jump { Fits (jal (negsuc 1048575)) × (Fits (jal (pos 1048576)) → ⊥) }
    ensures shift { Fits (slli (pos 31)) × (Fits (slli (pos 32)) → ⊥) }
    ensures upper { Fits (lui (pos 4096)) × (Fits (lui (pos 4095)) → ⊥) }
{}

/// This word carries the operands of `addi x1, x0, 5`, and the word of another instruction does not.
#[tactic(auto, using(crate::proofs::Fitting::carried))]
pub fn carries()
    ensures { Carries Immediate (row_of Addi) (addi (pos 5)) 0x00500093 × (Carries Immediate (row_of Addi) (addi (pos 5)) 0x00600093 → ⊥) }
{}

/// A word is the answer to what it carries, and a refusal is none.
#[tactic(auto, using(crate::proofs::Fitting::only_word, crate::proofs::Fitting::word_written))]
pub fn written()
    ensures only { Only Register (row_of Add) add (Ok 0x003100B3) × (Only Register (row_of Add) add (Err DoesNotFit) → ⊥) }
    ensures written { Written Immediate (row_of Addi) (addi (pos 5)) (Ok 0x00500093) × (Written Immediate (row_of Addi) (addi (pos 5)) (Err DoesNotFit) → ⊥) }
{}

/// A word is filled by one number in each field.
#[tactic(auto, using(crate::proofs::Fitting::fields, crate::proofs::Fitting::upper_fields))]
pub fn filled()
    ensures fields { Filled (row_of Add) 1 2 3 0 0x003100B3 × (Filled (row_of Add) 1 2 4 0 0x003100B3 → ⊥) }
    ensures upper { FilledUpper (row_of Lui) 1 0x12345 0x123450B7 × (FilledUpper (row_of Lui) 1 0x12346 0x123450B7 → ⊥) }
{}

/// 2047 is a signed number of twelve bits, and 2048 is not.
#[tactic(auto, using(crate::proofs::Fitting::twelve_bits))]
pub fn within()
    ensures { Within 12 (pos 2047) × (Within 12 (pos 2048) → ⊥) }
{}

/// Every example of this list holds, and not every one of the same with one more.
#[tactic(auto, using(crate::proofs::Readings::examples))]
pub fn every()
    ensures { Every (reads 0x00500093 (addi (pos 5)) ∷ []) × (Every (reads 0x00500093 (addi (pos 5)) ∷ reads 0x00500093 (addi (pos 6)) ∷ []) → ⊥) }
{}
