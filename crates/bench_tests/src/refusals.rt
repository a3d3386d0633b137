use super::seen::{State, UNTOUCHED, fault, holds, numbers, seen, shown, stepped, ticked};
use anyhow::{Result, ensure};
use arch1::Phase;
use bench::{BackFault, Look, LookFault, RunFault, Stop};
use layers::Shield;
use machine::Cause;
use session::{Answer, Call, play};
use stores::WordBank;

/// jal x1, 4: to the next word.
const NEXT: u32 = 0x0040_00ef;

/// jal x1, 16: to a word that is absent.
const AWAY: u32 = 0x0100_00ef;

/// jalr x1, 3(x0): to 2, which four does not divide.
const ODD: u32 = 0x0030_00e7;

/// A run of more steps than a run may have.
const TOO_LONG: Call = Call::Run(1_000_001);

fn too_many() -> Answer {
    Answer::Ran(Err(RunFault {
        done: 0,
        stop: Stop::TooMany,
    }))
}

/// Two words, the first of which no store may write.
fn plays<const N: usize>(
    words: [u32; 2],
    calls: [Call; N],
    answers: [Answer; N],
    now: State,
) -> Result<()> {
    let mut bank = words;
    let memory = Shield {
        from: 0,
        to: 1,
        below: WordBank::new(&mut bank),
    };
    let mut places = [UNTOUCHED; N];
    let (bench, made) = play(memory, numbers(0, 9), 0, &calls, &mut places);
    ensure!(made == N && places == answers, "{words:?} {calls:?}");
    ensure!(seen(&bench)? == now, "{words:?} {calls:?}");
    ensure!(holds(&bench, 0, &words), "{words:?} {calls:?}");
    Ok(())
}

/// A tick, a step and a run that are refused, and after each every kind of call.
#[test]
fn refused_by_the_core() -> Result<()> {
    let absent = memory::Cause::NoWord;
    for (words, refused) in [
        ([ODD, 0], fault(Phase::T0, 2, Cause::UnalignedPc)),
        ([AWAY, 0], fault(Phase::T0, 16, absent.at(4).into())),
        (
            [NEXT, 0x2010_5093],
            fault(Phase::T2, 4, Cause::NoInstruction),
        ),
        // lw x4, 2(x0) and sh x1, 1(x0)
        (
            [NEXT, 0x0020_2203],
            fault(Phase::T2, 4, Cause::UnalignedAddress),
        ),
        (
            [NEXT, 0x0010_10a3],
            fault(Phase::T2, 4, Cause::UnalignedAddress),
        ),
        // lw x4, 64(x0) and sw x1, 64(x0)
        (
            [NEXT, 0x0400_2203],
            fault(Phase::T2, 4, absent.at(16).into()),
        ),
        (
            [NEXT, 0x0410_2023],
            fault(Phase::T2, 4, absent.at(16).into()),
        ),
        // sw x1, 0(x0)
        (
            [NEXT, 0x0010_2023],
            fault(Phase::T2, 4, memory::Cause::FixedWord.at(0).into()),
        ),
    ] {
        let address = u64::from(refused.address);
        let kept = State {
            core: [address, 0, 0, 0, 0, 0, 0],
            counts: [3, 1, 1],
            registers: shown(4, 9),
        };
        let at_start = State {
            core: [0; 7],
            counts: [0; 3],
            registers: shown(0, 9),
        };
        let fetched = State {
            core: [
                address.wrapping_add(4),
                address,
                0,
                u64::from(words[1]),
                0,
                0,
                1,
            ],
            counts: [4, 1, 1],
            registers: shown(4, 9),
        };
        let ran = Answer::Ran(Err(RunFault {
            done: 0,
            stop: Stop::Core(refused),
        }));
        // Where T2 refuses, the instruction has had two ticks before.
        let (open, first, second) = if refused.phase == Phase::T0 {
            (
                Call::Look(Look::Phase),
                Answer::Looked(Ok(0)),
                Answer::Looked(Ok(0)),
            )
        } else {
            (Call::Tick, ticked(Phase::T1), ticked(Phase::T2))
        };
        let (tick, ticked_state) = if refused.phase == Phase::T0 {
            (Answer::Ticked(Err(refused)), kept)
        } else {
            (ticked(Phase::T1), fetched)
        };
        for (call, answer) in [
            (Call::Tick, Answer::Ticked(Err(refused))),
            (Call::Step, Answer::Stepped(Err(refused))),
            (Call::Run(5), ran),
        ] {
            for (next, told, now) in [
                (Call::Tick, tick, ticked_state),
                (Call::Step, Answer::Stepped(Err(refused)), kept),
                (Call::Run(2), ran, kept),
                (TOO_LONG, too_many(), kept),
                (Call::Back, Answer::Back(Ok(1)), at_start),
                (Call::Look(Look::Pc), Answer::Looked(Ok(address)), kept),
                (
                    Call::Look(Look::Register(32)),
                    Answer::Looked(Err(LookFault::NoRegister)),
                    kept,
                ),
            ] {
                plays(
                    words,
                    [Call::Step, open, open, call, next],
                    [stepped(0, words[0], 3), first, second, answer, told],
                    now,
                )?;
            }
        }
    }
    Ok(())
}

/// A way back, a run and looks that are refused on a new bench, and after each every kind of call.
#[test]
fn refused_on_a_new_bench() -> Result<()> {
    let absent = memory::Cause::NoWord.at(2);
    let first = u64::from(NEXT);
    let new = State {
        core: [0; 7],
        counts: [0; 3],
        registers: shown(0, 9),
    };
    let fetched = State {
        core: [4, 0, 0, first, 0, 0, 1],
        counts: [1, 0, 0],
        registers: shown(0, 9),
    };
    let retired = State {
        core: [4, 0, first, first, 0, 0, 0],
        counts: [3, 1, 1],
        registers: shown(4, 9),
    };
    for (call, answer) in [
        (Call::Back, Answer::Back(Err(BackFault::NothingToTakeBack))),
        (TOO_LONG, too_many()),
        (
            Call::Look(Look::Register(32)),
            Answer::Looked(Err(LookFault::NoRegister)),
        ),
        (
            Call::Look(Look::Byte(8)),
            Answer::Looked(Err(LookFault::Memory(absent))),
        ),
    ] {
        for (next, told, now) in [
            (Call::Tick, ticked(Phase::T1), fetched),
            (Call::Step, stepped(0, NEXT, 3), retired),
            (Call::Run(1), Answer::Ran(Ok(1)), retired),
            (TOO_LONG, too_many(), new),
            (
                Call::Back,
                Answer::Back(Err(BackFault::NothingToTakeBack)),
                new,
            ),
            (Call::Look(Look::Pc), Answer::Looked(Ok(0)), new),
        ] {
            plays([NEXT, NEXT], [call, next], [answer, told], now)?;
        }
    }
    Ok(())
}

/// A run and looks that are refused while an instruction is open, and after each every kind of call.
#[test]
fn refused_in_an_instruction() -> Result<()> {
    let absent = memory::Cause::NoWord.at(2);
    let word = u64::from(NEXT);
    let open = State {
        core: [8, 4, word, word, 0, 0, 1],
        counts: [4, 1, 1],
        registers: shown(4, 9),
    };
    let decoded = State {
        core: [8, 4, word, word, 0, 0, 2],
        counts: [5, 1, 1],
        registers: shown(4, 9),
    };
    let retired = State {
        core: [8, 4, word, word, 0, 0, 0],
        counts: [6, 2, 2],
        registers: shown(8, 9),
    };
    let dropped = State {
        core: [4, 0, 0, 0, 0, 0, 0],
        counts: [3, 1, 1],
        registers: shown(4, 9),
    };
    for (call, answer) in [
        (TOO_LONG, too_many()),
        (
            Call::Look(Look::Register(32)),
            Answer::Looked(Err(LookFault::NoRegister)),
        ),
        (
            Call::Look(Look::Byte(8)),
            Answer::Looked(Err(LookFault::Memory(absent))),
        ),
    ] {
        for (next, told, now) in [
            (Call::Tick, ticked(Phase::T2), decoded),
            (Call::Step, stepped(4, NEXT, 3), retired),
            (Call::Run(1), Answer::Ran(Ok(1)), retired),
            (TOO_LONG, too_many(), open),
            (Call::Back, Answer::Back(Ok(0)), dropped),
            (Call::Look(Look::Tr), Answer::Looked(Ok(4)), open),
        ] {
            plays(
                [NEXT, NEXT],
                [Call::Step, Call::Tick, call, next],
                [stepped(0, NEXT, 3), ticked(Phase::T1), answer, told],
                now,
            )?;
        }
    }
    Ok(())
}

/// The numbers of all refusals.
#[test]
fn refusal_numbers(rt: HostRuntime) {
    assert_eq!(rt; BackFault::NothingToTakeBack.number(), 6);
    assert_eq!(rt; Stop::TooMany.number(), 7);
    assert_eq!(rt; LookFault::NoRegister.number(), 8);
    let absent = memory::Cause::NoWord.at(2);
    assert_eq!(rt; LookFault::Memory(absent).number(), 2);
    for (cause, number) in [
        (Cause::UnalignedPc, 1),
        (absent.into(), 2),
        (Cause::NoInstruction, 3),
        (Cause::UnalignedAddress, 4),
        (memory::Cause::FixedWord.at(2).into(), 5),
    ] {
        assert_eq!(rt; Stop::from(fault(Phase::T0, 0, cause)).number(), number);
    }
}
