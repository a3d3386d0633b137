use alu::{Comparison, Load, Operation, Store};

/// What an instruction does, by its class: the operation of the arithmetic, the numbers of its registers, and its immediate
/// as a word, that is, modulo 2^32.
#[derive(Clone, Copy, PartialEq, Eq, Debug)]
pub enum Action {
    /// rd ← rs1 op rs2.
    Comp {
        operation: Operation,
        rd: u8,
        rs1: u8,
        rs2: u8,
    },
    /// rd ← rs1 op immediate.
    CompI {
        operation: Operation,
        rd: u8,
        rs1: u8,
        immediate: u32,
    },
    /// rd ← immediate.
    Lui {
        rd: u8,
        immediate: u32,
    },
    /// rd ← address + immediate.
    Auipc {
        rd: u8,
        immediate: u32,
    },
    /// rd ← memory at rs1 + immediate.
    Ld {
        load: Load,
        rd: u8,
        rs1: u8,
        immediate: u32,
    },
    /// Memory at rs1 + immediate ← rs2.
    St {
        store: Store,
        rs1: u8,
        rs2: u8,
        immediate: u32,
    },
    /// rd ← address + 4, and on at address + immediate.
    Jal {
        rd: u8,
        immediate: u32,
    },
    /// rd ← address + 4, and on at rs1 + immediate with bit 0 cleared.
    Jalr {
        rd: u8,
        rs1: u8,
        immediate: u32,
    },
    /// On at address + immediate if the comparison of rs1 and rs2 holds.
    Br {
        comparison: Comparison,
        rs1: u8,
        rs2: u8,
        immediate: u32,
    },
}
