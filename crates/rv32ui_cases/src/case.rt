ghost use Rattle.std.specs.Prelude.{◌≡◌};
ghost use Rattle.rv32ui_cases.specs.Cases.{number_of, program_of};

use super::program::Program;
use super::shapes::branch_cases::Branch;
use super::shapes::immediate_cases::Immediate;
use super::shapes::jump_cases::Jump;
use super::shapes::load_cases::Load;
use super::shapes::register_cases::Registers;
use super::shapes::store_cases::Store;
use super::shapes::upper_cases::Upper;
use isa::Mnemonic;

/// A case: its number in the published file, and what it is.
#[derive(Clone, Copy)]
pub enum Case {
    Registers(u8, Registers),
    Immediate(u8, Immediate),
    Upper(u8, Upper),
    Load(u8, Load),
    Store(u8, Store),
    Branch(u8, Branch),
    Jump(u8, Jump),
}

impl Case {
    /// Its number in the published file.
    pub fn number(self) -> u8
        ensures { result ≡ number_of self }
    {
        match self {
            Case::Registers(number, _)
            | Case::Immediate(number, _)
            | Case::Upper(number, _)
            | Case::Load(number, _)
            | Case::Store(number, _)
            | Case::Branch(number, _)
            | Case::Jump(number, _) => number,
        }
    }

    /// The case's program, for this instruction.
    pub fn program(self, mnemonic: Mnemonic) -> Program
        ensures { result ≡ program_of self mnemonic }
    {
        let mut program = Program::new(self.number(), mnemonic);
        match self {
            Case::Registers(_, shape) => shape.put(mnemonic, &mut program),
            Case::Immediate(_, shape) => shape.put(mnemonic, &mut program),
            Case::Upper(_, shape) => shape.put(mnemonic, &mut program),
            Case::Load(_, shape) => shape.put(mnemonic, &mut program),
            Case::Store(_, shape) => shape.put(mnemonic, &mut program),
            Case::Branch(_, shape) => shape.put(mnemonic, &mut program),
            Case::Jump(_, shape) => shape.put(mnemonic, &mut program),
        }
        program
    }
}
