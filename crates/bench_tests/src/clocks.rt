use super::seen::{numbers, seen, shown};
use anyhow::{Result, ensure};
use bench::{Bench, Look, LookFault, Stepped};
use memory::Cause;
use stores::WordBank;

/// Each class at address 0 with its clocks and the next address: a step counts them, and a way back counts them off.
#[test]
fn three_or_four() -> Result<()> {
    for (word, clocks, next) in [
        // add x4, x1, x2
        (0x0020_8233, 3, 4),
        // addi x4, x1, 5
        (0x0050_8213, 3, 4),
        // lui x4, 1
        (0x0000_1237, 3, 4),
        // auipc x4, 1
        (0x0000_1217, 3, 4),
        // lw x3, 0(x0)
        (0x0000_2183, 4, 4),
        // sw x2, 4(x0)
        (0x0020_2223, 3, 4),
        // jal x4, 8
        (0x0080_026f, 3, 8),
        // jalr x4, 8(x0)
        (0x0080_0267, 3, 8),
        // beq x0, x0, 8, which is taken
        (0x0000_0463, 4, 8),
        // bne x0, x0, 8, which is not
        (0x0000_1463, 4, 4),
    ] {
        let mut words = [word, 0];
        let mut bench = Bench::new(WordBank::new(&mut words), numbers(7, 9), 0);
        for _ in 0..2 {
            let stepped = Stepped {
                address: 0,
                word,
                clocks,
            };
            ensure!(bench.step() == Ok(stepped), "{word:08x}");
            let after = seen(&bench)?;
            ensure!(after.counts == [clocks, 1, 1], "{word:08x}");
            ensure!(after.core[0] == next, "{word:08x}");
            ensure!(bench.back() == Ok(1), "{word:08x}");
            let before = seen(&bench)?;
            ensure!(before.counts == [0, 0, 0], "{word:08x}");
            ensure!(before.core == [0; 7], "{word:08x}");
            ensure!(before.registers == shown(7, 9), "{word:08x}");
        }
    }
    Ok(())
}

/// Everything that a look can be at, in T3 of a load after a taken branch.
#[test]
fn looks() -> Result<()> {
    // beq x0, x0, 8, a word of data, and lw x3, 4(x0)
    let mut words = [0x0000_0463, 0x8877_6655, 0x0040_2183];
    let mut bench = Bench::new(WordBank::new(&mut words), numbers(7, 9), 0);
    ensure!(bench.step().is_ok());
    for _ in 0..3 {
        ensure!(bench.tick().is_ok());
    }
    let before = seen(&bench)?;
    for (at, shown) in [
        (Look::Register(0), Ok(0)),
        (Look::Register(1), Ok(7)),
        (Look::Register(2), Ok(9)),
        (Look::Register(31), Ok(0)),
        (Look::Register(32), Err(LookFault::NoRegister)),
        (Look::Register(255), Err(LookFault::NoRegister)),
        (Look::Byte(4), Ok(0x55)),
        (Look::Byte(5), Ok(0x66)),
        (Look::Byte(6), Ok(0x77)),
        (Look::Byte(7), Ok(0x88)),
        (Look::Byte(8), Ok(0x83)),
        (Look::Byte(12), Err(Cause::NoWord.at(3).into())),
        (
            Look::Byte(u32::MAX),
            Err(Cause::NoWord.at(0x3fff_ffff).into()),
        ),
        (Look::Pc, Ok(12)),
        (Look::Tr, Ok(8)),
        (Look::Ir, Ok(0x0040_2183)),
        (Look::Dr, Ok(0x8877_6655)),
        (Look::Ar, Ok(4)),
        (Look::Flg, Ok(1)),
        (Look::Phase, Ok(3)),
        (Look::Clocks, Ok(7)),
        (Look::Retired, Ok(1)),
        (Look::Journal, Ok(1)),
    ] {
        ensure!(bench.look(at) == shown, "{at:?}");
        ensure!(seen(&bench)? == before, "{at:?}");
    }
    Ok(())
}
