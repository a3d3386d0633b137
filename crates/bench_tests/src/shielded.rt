use super::seen::{State, UNTOUCHED, fault, holds, numbers, seen, shown, stepped, ticked};
use anyhow::{Result, ensure};
use arch1::Phase;
use bench::{BackFault, Look, RunFault, Stop};
use memory::Cause;
use session::{Answer, Call, play, play_stacked};
use stack::Settings;
use stores::WordBank;

const LOAD: u32 = 0x0300_2083;

const BRANCH: u32 = 0x0010_8663;

const JUMP: u32 = 0x0080_016f;

const STORE: u32 = 0x0210_0ca3;

/// The program, from 16 on: lw x1, 48(x0), then beq x1, x1, 12 over two words to jal x2, 8 over one more, then sb x1, 57(x0), and
/// sw x1, 52(x0), which the shield refuses.
const PROGRAM: [u32; 8] = [LOAD, BRANCH, 0, 0, JUMP, 0, STORE, 0x0210_2a23];

/// The words from 48 on.
const DATA: [u32; 4] = [0x8000_00c5, 1, 0x1111_1111, 2];

/// The program placed at 16 and joined to the data at 48, the first two words of which are fixed.
const SETTINGS: Settings = Settings {
    base: 4,
    from: 12,
    to: 14,
    at: 12,
};

/// x1, x2 and the word at 56 at the start, and after the load, the jump and the store.
const GIVEN: [u32; 3] = [7, 9, 0x1111_1111];

const LOADED: [u32; 3] = [0x8000_00c5, 9, 0x1111_1111];

const JUMPED: [u32; 3] = [0x8000_00c5, 36, 0x1111_1111];

const STORED: [u32; 3] = [0x8000_00c5, 36, 0x1111_c511];

/// A bank whose words from the twelfth on are the data. The map shows no others.
fn bank() -> [u32; 16] {
    let mut words = [0; 16];
    words[12..].copy_from_slice(&DATA);
    words
}

/// The core between instructions with no other register of the datapath set than PC.
fn cleared(pc: u64) -> [u64; 7] {
    [pc, 0, 0, 0, 0, 0, 0]
}

/// The calls of the table, each with its answer; then the core, the counts, and x1, x2 and the word at 56, as they are after it.
fn table() -> [(Call, Answer, [u64; 7], [u64; 3], [u32; 3]); 22] {
    let refused = fault(Phase::T2, 44, Cause::FixedWord.at(13).into());
    let load = u64::from(LOAD);
    let branch = u64::from(BRANCH);
    let jump = u64::from(JUMP);
    let store = u64::from(STORE);
    [
        (
            Call::Tick,
            ticked(Phase::T1),
            [20, 16, 0, load, 0, 0, 1],
            [1, 0, 0],
            GIVEN,
        ),
        (
            Call::Tick,
            ticked(Phase::T2),
            [20, 16, load, load, 0, 0, 2],
            [2, 0, 0],
            GIVEN,
        ),
        (
            Call::Tick,
            ticked(Phase::T3),
            [20, 16, load, 0x8000_00c5, 48, 0, 3],
            [3, 0, 0],
            GIVEN,
        ),
        (
            Call::Tick,
            ticked(Phase::T0),
            [20, 16, load, 0x8000_00c5, 48, 0, 0],
            [4, 1, 1],
            LOADED,
        ),
        // The branch is taken, and the jump counts from its own address.
        (
            Call::Step,
            stepped(20, BRANCH, 4),
            [32, 20, branch, branch, 48, 1, 0],
            [8, 2, 2],
            LOADED,
        ),
        (
            Call::Tick,
            ticked(Phase::T1),
            [36, 32, branch, jump, 48, 1, 1],
            [9, 2, 2],
            LOADED,
        ),
        // The open jump is dropped, then made, then taken back, and the branch with it.
        (
            Call::Back,
            Answer::Back(Ok(0)),
            cleared(32),
            [8, 2, 2],
            LOADED,
        ),
        (
            Call::Step,
            stepped(32, JUMP, 3),
            [40, 32, jump, jump, 0, 0, 0],
            [11, 3, 3],
            JUMPED,
        ),
        (
            Call::Back,
            Answer::Back(Ok(1)),
            cleared(32),
            [8, 2, 2],
            LOADED,
        ),
        (
            Call::Back,
            Answer::Back(Ok(1)),
            cleared(20),
            [4, 1, 1],
            LOADED,
        ),
        // A step goes on with the open branch.
        (
            Call::Tick,
            ticked(Phase::T1),
            [24, 20, 0, branch, 0, 0, 1],
            [5, 1, 1],
            LOADED,
        ),
        (
            Call::Step,
            stepped(20, BRANCH, 4),
            [32, 20, branch, branch, 0, 1, 0],
            [8, 2, 2],
            LOADED,
        ),
        (
            Call::Run(2),
            Answer::Ran(Ok(2)),
            [44, 40, store, store, 57, 1, 0],
            [14, 4, 4],
            STORED,
        ),
        // A fixed word refuses the next store.
        (
            Call::Step,
            Answer::Stepped(Err(refused)),
            cleared(44),
            [14, 4, 4],
            STORED,
        ),
        (
            Call::Run(3),
            Answer::Ran(Err(RunFault {
                done: 0,
                stop: Stop::Core(refused),
            })),
            cleared(44),
            [14, 4, 4],
            STORED,
        ),
        // All is taken back, one by one.
        (
            Call::Back,
            Answer::Back(Ok(1)),
            cleared(40),
            [11, 3, 3],
            JUMPED,
        ),
        (
            Call::Back,
            Answer::Back(Ok(1)),
            cleared(32),
            [8, 2, 2],
            LOADED,
        ),
        (
            Call::Back,
            Answer::Back(Ok(1)),
            cleared(20),
            [4, 1, 1],
            LOADED,
        ),
        (
            Call::Back,
            Answer::Back(Ok(1)),
            cleared(16),
            [0, 0, 0],
            GIVEN,
        ),
        (
            Call::Back,
            Answer::Back(Err(BackFault::NothingToTakeBack)),
            cleared(16),
            [0, 0, 0],
            GIVEN,
        ),
        // And made again at once.
        (
            Call::Run(9),
            Answer::Ran(Err(RunFault {
                done: 4,
                stop: Stop::Core(refused),
            })),
            cleared(44),
            [14, 4, 4],
            STORED,
        ),
        (
            Call::Look(Look::Byte(57)),
            Answer::Looked(Ok(0xc5)),
            cleared(44),
            [14, 4, 4],
            STORED,
        ),
    ]
}

/// The calls one more at a time, each time on a new bench: every answer, and every state on the way.
#[test]
fn over_a_branch_and_a_jump() -> Result<()> {
    let rows = table();
    let mut calls = [Call::Tick; 22];
    let mut answers = [UNTOUCHED; 22];
    for k in 0..22 {
        let (call, answer, core, counts, [x1, x2, word]) = rows[k];
        calls[k] = call;
        answers[k] = answer;
        let mut program = PROGRAM;
        let mut data = bank();
        let memory = SETTINGS.stack(WordBank::new(&mut program), WordBank::new(&mut data));
        let mut places = [UNTOUCHED; 22];
        let (bench, made) = play(memory, numbers(7, 9), 16, &calls[..k + 1], &mut places);
        ensure!(made == k + 1);
        ensure!(places == answers, "call {k}");
        let now = State {
            core,
            counts,
            registers: shown(x1, x2),
        };
        ensure!(seen(&bench)? == now, "call {k}");
        ensure!(holds(&bench, 16, &PROGRAM), "call {k}");
        ensure!(
            holds(&bench, 48, &[DATA[0], DATA[1], word, DATA[3]]),
            "call {k}"
        );
    }
    Ok(())
}

/// The same calls over the same map, which the function makes itself, with one place too few for the answers.
#[test]
fn as_many_as_there_are_places(rt: HostRuntime) {
    let mut calls = [Call::Tick; 22];
    let mut answers = [UNTOUCHED; 21];
    for (k, (call, answer, _, _, _)) in table().into_iter().enumerate() {
        calls[k] = call;
        if k < 21 {
            answers[k] = answer;
        }
    }
    let mut program = PROGRAM;
    let mut data = bank();
    let mut places = [UNTOUCHED; 21];
    let (_, made) = play_stacked(
        SETTINGS,
        WordBank::new(&mut program),
        WordBank::new(&mut data),
        numbers(7, 9),
        16,
        &calls,
        &mut places,
    );
    assert_eq!(rt; made, 21);
    assert_eq!(rt; places, answers);
}
