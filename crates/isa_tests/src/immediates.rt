use decode::decode;
use encode::encode;
use isa::{Instruction, Mnemonic, Refusal};

/// Both ends of a range of immediates, and what is just outside or between two of its numbers.
#[derive(Clone, Copy)]
struct Range {
    mnemonic: Mnemonic,
    taken: [i64; 2],
    refused: [i64; 4],
}

const RANGES: [Range; 9] = [
    Range {
        mnemonic: Mnemonic::Add,
        taken: [0, 0],
        refused: [-1, 1, -2048, 2047],
    },
    Range {
        mnemonic: Mnemonic::Addi,
        taken: [-2048, 2047],
        refused: [-2049, 2048, 4095, -4096],
    },
    Range {
        mnemonic: Mnemonic::Lw,
        taken: [-2048, 2047],
        refused: [-2049, 2048, 4095, -4096],
    },
    Range {
        mnemonic: Mnemonic::Jalr,
        taken: [-2048, 2047],
        refused: [-2049, 2048, 4095, -4096],
    },
    Range {
        mnemonic: Mnemonic::Slli,
        taken: [0, 31],
        refused: [-1, 32, 63, -32],
    },
    Range {
        mnemonic: Mnemonic::Sw,
        taken: [-2048, 2047],
        refused: [-2049, 2048, 4095, -4096],
    },
    Range {
        mnemonic: Mnemonic::Beq,
        taken: [-4096, 4094],
        refused: [-4098, 4096, 4095, -4095],
    },
    Range {
        mnemonic: Mnemonic::Lui,
        taken: [0, 0xffff_f000],
        refused: [-4096, 0x1_0000_0000, 1, 0xffff_ffff],
    },
    Range {
        mnemonic: Mnemonic::Jal,
        taken: [-1_048_576, 1_048_574],
        refused: [-1_048_578, 1_048_576, 1_048_575, -1_048_575],
    },
];

#[test]
fn ends_of_the_ranges(rt: HostRuntime) {
    for Range {
        mnemonic,
        taken,
        refused,
    } in RANGES {
        let with = |immediate| Instruction {
            mnemonic,
            rd: 0,
            rs1: 0,
            rs2: 0,
            immediate,
        };
        // Not `and_then(decode)`: a function of another crate that is passed by its name gets no contract.
        for z in taken {
            assert_eq!(rt; encode(&with(z)).and_then(|word| decode(word)), Ok(with(z)));
        }
        for z in refused {
            assert_eq!(rt; encode(&with(z)), Err(Refusal::DoesNotFit));
        }
    }
}
