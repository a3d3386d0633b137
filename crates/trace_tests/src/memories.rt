use anyhow::{Result, ensure};
use arch1::{CoreFault, Phase};
use bench::{Bench, Stepped};
use layers::Shield;
use machine::Cause;
use registers::RegisterFile;
use stores::WordBank;
use tracer::{last_line, trace, trace_step};

/// addi x1, x0, 5 and sw x1, 4(x0), which writes over itself.
const WORDS: [u32; 2] = [0x0050_0093, 0x0010_2223];

fn registers() -> RegisterFile {
    RegisterFile::new([0; 32])
}

/// A store to a fixed word.
#[test]
fn fixed_word(rt: HostRuntime) -> Result<()> {
    let mut words = WORDS;
    let memory = Shield {
        from: 1,
        to: 2,
        below: WordBank::new(&mut words),
    };
    let printed = trace(rt.alloc(), memory, registers(), 0, 10)?;
    ensure!(
        printed.as_str()
            == "00000000 00500093 3\nstop 5 at 00000004 after 1 instructions and 3 clocks\n"
    );
    ensure!(words == WORDS);
    Ok(())
}

/// Registers that are not zero: bne x1, x0, -4 is taken for as long as x1 is not 0, and the limit ends it.
#[test]
fn registers_given(rt: HostRuntime) -> Result<()> {
    let mut words = [0x0000_0013, 0xfe00_9ee3];
    let mut registers = registers();
    registers.put(1, 1);
    let printed = trace(rt.alloc(), WordBank::new(&mut words), registers, 4, 3)?;
    ensure!(
        printed.as_str()
            == "00000004 fe009ee3 4\n00000000 00000013 3\n00000004 fe009ee3 4\nstop 0 at 00000000 after 3 instructions and 11 clocks\n"
    );
    Ok(())
}

/// One run makes 1,000,000 steps at most: jal x0, 0.
#[test]
fn longest_run(rt: HostRuntime) -> Result<()> {
    for (limit, text) in [
        (
            1_000_000,
            "stop 0 at 00000000 after 1000000 instructions and 3000000 clocks\n",
        ),
        (
            1_000_001,
            "stop 7 at 00000000 after 0 instructions and 0 clocks\n",
        ),
    ] {
        let mut words = [0x0000_006f];
        let memory = WordBank::new(&mut words);
        let printed = last_line(rt.alloc(), memory, registers(), 0, limit)?;
        ensure!(printed.as_str() == text);
    }
    Ok(())
}

/// A step that is made adds its line, and one that is refused none.
#[test]
fn steps(rt: HostRuntime) -> Result<()> {
    let mut words = [0x0050_0093, 0];
    let mut bench = Bench::new(WordBank::new(&mut words), registers(), 0);
    let mut text = "before\n".to_string(rt.alloc())?;
    let made = trace_step(&mut bench, &mut text)?;
    ensure!(
        made == Ok(Stepped {
            address: 0,
            word: 0x0050_0093,
            clocks: 3,
        })
    );
    ensure!(text.as_str() == "before\n00000000 00500093 3\n");
    let refused = trace_step(&mut bench, &mut text)?;
    ensure!(
        refused
            == Err(CoreFault {
                phase: Phase::T2,
                address: 4,
                cause: Cause::NoInstruction,
            })
    );
    ensure!(text.as_str() == "before\n00000000 00500093 3\n");
    Ok(())
}
