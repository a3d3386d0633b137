use super::talk::{GUARDED, PLAIN, WORKED, check};
use anyhow::Result;

/// A word that is absent, and then each call after a refused one.
#[test]
fn absent_words(rt: HostRuntime) -> Result<()> {
    let cases = [
        (
            "run 5",
            "refused 2 phase 0 at 00000014 word 5 after 4 steps",
        ),
        ("tick", "refused 2 phase 0 at 00000014 word 5"),
        ("step", "refused 2 phase 0 at 00000014 word 5"),
        (
            "run 1",
            "refused 2 phase 0 at 00000014 word 5 after 0 steps",
        ),
        ("look byte 20", "refused 2 word 5"),
        ("look byte 0xffffffff", "refused 2 word 1073741823"),
        ("back", "back 1"),
    ];
    check(rt.alloc(), 0, &WORKED, PLAIN, &cases)
}

/// Four does not divide PC.
#[test]
fn unaligned_pc(rt: HostRuntime) -> Result<()> {
    let cases = [
        ("tick", "refused 1 phase 0 at 00000002"),
        ("step", "refused 1 phase 0 at 00000002"),
        ("run 7", "refused 1 phase 0 at 00000002 after 0 steps"),
        ("back", "refused 6"),
    ];
    check(rt.alloc(), 2, &WORKED, PLAIN, &cases)
}

/// The last word is no instruction.
#[test]
fn no_instruction(rt: HostRuntime) -> Result<()> {
    let cases = [
        ("tick", "phase 1"),
        ("tick", "phase 2"),
        ("tick", "refused 3 phase 2 at 00000010"),
        ("step", "refused 3 phase 2 at 00000010"),
        ("run 2", "refused 3 phase 2 at 00000010 after 0 steps"),
        ("look clocks", "0"),
    ];
    check(rt.alloc(), 16, &WORKED, PLAIN, &cases)
}

/// lw x1, 2(x0) is not aligned.
#[test]
fn unaligned_address(rt: HostRuntime) -> Result<()> {
    let cases = [
        ("step", "refused 4 phase 2 at 00000000"),
        ("run 1", "refused 4 phase 2 at 00000000 after 0 steps"),
    ];
    check(rt.alloc(), 0, &[0x0020_2083], PLAIN, &cases)
}

/// lw x1, 64(x0) reads an absent word.
#[test]
fn absent_word_of_a_load(rt: HostRuntime) -> Result<()> {
    let cases = [
        ("step", "refused 2 phase 2 at 00000000 word 16"),
        (
            "run 1",
            "refused 2 phase 2 at 00000000 word 16 after 0 steps",
        ),
    ];
    check(rt.alloc(), 0, &[0x0400_2083], PLAIN, &cases)
}

/// sb x0, 3(x0), sb x0, 4(x0), sb x0, 11(x0) and sb x0, 23(x0): the last byte before the shield, its first and its last, and the
/// last of the bank, which shows from word 4 on.
#[test]
fn shield_and_bank_at_their_ends(rt: HostRuntime) -> Result<()> {
    let cases = [
        ("step", "00000000 000001a3 3"),
        ("step", "refused 5 phase 2 at 00000004 word 1"),
        (
            "run 3",
            "refused 5 phase 2 at 00000004 word 1 after 0 steps",
        ),
    ];
    check(rt.alloc(), 0, &[0x0000_01a3, 0x0000_0223], GUARDED, &cases)?;
    let last = [("step", "refused 5 phase 2 at 00000000 word 2")];
    check(rt.alloc(), 0, &[0x0000_05a3, 0, 0], GUARDED, &last)?;
    let after = [("step", "00000000 00000623 3"), ("look byte 12", "00")];
    check(rt.alloc(), 0, &[0x0000_0623, 0, 0, 0xff], GUARDED, &after)?;
    let bank = [("step", "00000000 00000ba3 3"), ("tick", "phase 1")];
    check(rt.alloc(), 0, &[0x0000_0ba3, 0, 0, 0, 0xff], GUARDED, &bank)
}

/// More steps than a run makes, no register, and nothing to take back.
#[test]
fn numbers_alone(rt: HostRuntime) -> Result<()> {
    let cases = [
        ("run 1000001", "refused 7"),
        ("run 4294967295", "refused 7"),
        ("back", "refused 6"),
        ("look x31", "00000000"),
        ("look x32", "refused 8"),
        ("look x255", "refused 8"),
        ("look x256", "refused 8"),
        ("look x4294967295", "refused 8"),
    ];
    check(rt.alloc(), 0, &WORKED, PLAIN, &cases)
}
