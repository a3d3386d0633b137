use decode::decode;
use encode::{encode, encode_decoded};
use isa::{Instruction, Mnemonic, Refusal};

/// The mnemonic that a word reads as.
fn mnemonic(word: u32) -> Result<Mnemonic, Refusal> {
    decode(word).map(|i| i.mnemonic)
}

/// The word of these codes, with all other bits 0.
fn word_of(opcode: u32, funct3: u32, funct7: u32) -> u32 {
    (opcode % 128) + (funct3 % 8) * 4096 + (funct7 % 128) * 33_554_432
}

#[test]
fn opcodes(rt: HostRuntime) {
    let read = [
        0b0110011, 0b0010011, 0b0110111, 0b0010111, 0b0000011, 0b0100011, 0b1101111, 0b1100111,
        0b1100011,
    ];
    for opcode in 0..128 {
        assert_eq!(rt; decode(opcode).is_ok(), read.contains(&opcode));
    }
}

const COMP: [Mnemonic; 8] = [
    Mnemonic::Add,
    Mnemonic::Sll,
    Mnemonic::Slt,
    Mnemonic::Sltu,
    Mnemonic::Xor,
    Mnemonic::Srl,
    Mnemonic::Or,
    Mnemonic::And,
];

const COMPI: [Mnemonic; 8] = [
    Mnemonic::Addi,
    Mnemonic::Slli,
    Mnemonic::Slti,
    Mnemonic::Sltiu,
    Mnemonic::Xori,
    Mnemonic::Srli,
    Mnemonic::Ori,
    Mnemonic::Andi,
];

// Both written out beside the decoder's own tables, on which the tests shall not lean.

/// What COMP reads: each operation under funct7 0000000, and SUB and SRA under 0100000.
fn comp(funct3: u32, funct7: u32) -> Result<Mnemonic, Refusal> {
    match (funct3, funct7) {
        (0, 32) => Ok(Mnemonic::Sub),
        (5, 32) => Ok(Mnemonic::Sra),
        (_, 0) => COMP
            .get(funct3 as usize)
            .copied()
            .ok_or(Refusal::NoInstruction),
        _ => Err(Refusal::NoInstruction),
    }
}

/// What COMPI reads: a shift asks for its funct7, and the others take any.
fn compi(funct3: u32, funct7: u32) -> Result<Mnemonic, Refusal> {
    match (funct3, funct7) {
        (5, 32) => Ok(Mnemonic::Srai),
        (1 | 5, 1..=127) => Err(Refusal::NoInstruction),
        _ => COMPI
            .get(funct3 as usize)
            .copied()
            .ok_or(Refusal::NoInstruction),
    }
}

#[test]
fn every_funct3_and_funct7(rt: HostRuntime) {
    assert_eq!(rt; Refusal::NoInstruction.number(), 3);
    for funct3 in 0..8 {
        for funct7 in 0..128 {
            assert_eq!(rt;
                mnemonic(word_of(0b0110011, funct3, funct7)),
                comp(funct3, funct7)
            );
            assert_eq!(rt;
                mnemonic(word_of(0b0010011, funct3, funct7)),
                compi(funct3, funct7)
            );
        }
    }
}

/// Words outside the base: FENCE, ECALL, EBREAK, a CSR instruction, a multiplication, a compressed word, all zeros and all ones.
#[test]
fn no_instructions(rt: HostRuntime) {
    for word in [
        0x0ff0_000f,
        0x0000_0073,
        0x0010_0073,
        0x3000_1073,
        0x0220_81b3,
        0x0000_4501,
        0,
        0xffff_ffff,
        0x2010_5093,
    ] {
        assert_eq!(rt; decode(word), Err(Refusal::NoInstruction));
    }
}

/// Every word that is read is written back: some thousand words over all bits.
#[test]
fn words_come_back(rt: HostRuntime) {
    let mut word: u32 = 1;
    // One loop compares and counts: an iterator that counts would read every word a second time.
    let mut read = 0u32;
    for _ in 0..20_000 {
        word = word.wrapping_mul(1_664_525).wrapping_add(1_013_904_223);
        let candidate = (word & 0xffff_ff80) | 0b0010011;
        if let Ok(back) = encode_decoded(candidate) {
            assert_eq!(rt; back, candidate);
            read = read.saturating_add(1);
        }
    }
    assert!(rt; read > 10_000);
}

#[test]
fn registers(rt: HostRuntime) {
    let encoded = |mnemonic, rd, rs1, rs2| {
        encode(&Instruction {
            mnemonic,
            rd,
            rs1,
            rs2,
            immediate: 0,
        })
    };
    let refused = Err(Refusal::DoesNotFit);
    assert_eq!(rt; Refusal::DoesNotFit.number(), 10);
    assert!(rt; encoded(Mnemonic::Add, 31, 31, 31).is_ok());
    assert_eq!(rt; encoded(Mnemonic::Add, 32, 0, 0), refused);
    assert_eq!(rt; encoded(Mnemonic::Add, 0, 32, 0), refused);
    assert_eq!(rt; encoded(Mnemonic::Add, 0, 0, 32), refused);
    assert!(rt; encoded(Mnemonic::Addi, 31, 31, 0).is_ok());
    assert_eq!(rt; encoded(Mnemonic::Addi, 0, 0, 1), refused);
    assert_eq!(rt; encoded(Mnemonic::Slli, 0, 0, 1), refused);
    assert!(rt; encoded(Mnemonic::Sw, 0, 31, 31).is_ok());
    assert_eq!(rt; encoded(Mnemonic::Sw, 1, 0, 0), refused);
    assert_eq!(rt; encoded(Mnemonic::Beq, 1, 0, 0), refused);
    assert_eq!(rt; encoded(Mnemonic::Lui, 0, 1, 0), refused);
    assert_eq!(rt; encoded(Mnemonic::Lui, 0, 0, 1), refused);
    assert_eq!(rt; encoded(Mnemonic::Jal, 0, 1, 0), refused);
    assert_eq!(rt; encoded(Mnemonic::Jal, 32, 0, 0), refused);
}
