ghost use Rattle.std.specs.Prelude.{◌≡◌};
ghost use Rattle.assembly.specs.Names.{name_of};

use isa::Mnemonic;

/// The mnemonic's name, as assemblers write it.
// A text and no `Display`: the type is another crate's, and a type around it would have the same arms.
pub(super) fn name(mnemonic: Mnemonic) -> &'static str
    ensures { result.now ≡ name_of mnemonic }
{
    match mnemonic {
        Mnemonic::Add => "add",
        Mnemonic::Sub => "sub",
        Mnemonic::Sll => "sll",
        Mnemonic::Slt => "slt",
        Mnemonic::Sltu => "sltu",
        Mnemonic::Xor => "xor",
        Mnemonic::Srl => "srl",
        Mnemonic::Sra => "sra",
        Mnemonic::Or => "or",
        Mnemonic::And => "and",
        Mnemonic::Addi => "addi",
        Mnemonic::Slli => "slli",
        Mnemonic::Slti => "slti",
        Mnemonic::Sltiu => "sltiu",
        Mnemonic::Xori => "xori",
        Mnemonic::Srli => "srli",
        Mnemonic::Srai => "srai",
        Mnemonic::Ori => "ori",
        Mnemonic::Andi => "andi",
        Mnemonic::Lui => "lui",
        Mnemonic::Auipc => "auipc",
        Mnemonic::Lb => "lb",
        Mnemonic::Lh => "lh",
        Mnemonic::Lw => "lw",
        Mnemonic::Lbu => "lbu",
        Mnemonic::Lhu => "lhu",
        Mnemonic::Sb => "sb",
        Mnemonic::Sh => "sh",
        Mnemonic::Sw => "sw",
        Mnemonic::Jal => "jal",
        Mnemonic::Jalr => "jalr",
        Mnemonic::Beq => "beq",
        Mnemonic::Bne => "bne",
        Mnemonic::Blt => "blt",
        Mnemonic::Bge => "bge",
        Mnemonic::Bltu => "bltu",
        Mnemonic::Bgeu => "bgeu",
    }
}
