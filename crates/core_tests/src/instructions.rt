use super::seen::core_at;
use arch1::Core;
use memory::WriteMemory;
use stores::WordBank;

// A loop of its own, to try the clocks one by one and not by `instruction`.
/// How many clocks retire the next instruction, up to five; none if they do not.
fn clocks<M: WriteMemory>(core: &mut Core, memory: &mut M) -> Option<u8> {
    for n in 1..6u8 {
        if core.tick(memory).ok()?.retired {
            return Some(n);
        }
    }
    None
}

/// The clocks of a word at address 0, and PC after it.
fn clocks_of(word: u32) -> (Option<u8>, u32) {
    let mut words = [word, 0];
    let mut core = core_at(0, 0x1000);
    let n = clocks(&mut core, &mut WordBank::new(&mut words));
    (n, core.pc)
}

#[test]
fn three_clocks(rt: HostRuntime) {
    // add x4, x1, x2, addi x4, x1, 5, lui x4, 1 and auipc x4, 1
    assert_eq!(rt; clocks_of(0x0020_8233), (Some(3), 4));
    assert_eq!(rt; clocks_of(0x0050_8213), (Some(3), 4));
    assert_eq!(rt; clocks_of(0x0000_1237), (Some(3), 4));
    assert_eq!(rt; clocks_of(0x0000_1217), (Some(3), 4));
    // sb x2, 4(x0) and sw x2, 4(x0)
    assert_eq!(rt; clocks_of(0x0020_0223), (Some(3), 4));
    assert_eq!(rt; clocks_of(0x0020_2223), (Some(3), 4));
    // jal x4, 8 and jalr x4, 0(x2)
    assert_eq!(rt; clocks_of(0x0080_026f), (Some(3), 8));
    assert_eq!(rt; clocks_of(0x0001_0267), (Some(3), 0x1000));
}

#[test]
fn four_clocks(rt: HostRuntime) {
    // lb x4, 4(x0) and lw x3, 0(x0)
    assert_eq!(rt; clocks_of(0x0040_0203), (Some(4), 4));
    assert_eq!(rt; clocks_of(0x0000_2183), (Some(4), 4));
    // beq x0, x0, 8, taken, and bne x0, x0, 8, not taken
    assert_eq!(rt; clocks_of(0x0000_0463), (Some(4), 8));
    assert_eq!(rt; clocks_of(0x0000_1463), (Some(4), 4));
}

/// addi x0, x0, 5, lui x0, 0x12345, lw x0, 0(x0) and jal x0, 4.
#[test]
fn x0_stays_0(rt: HostRuntime) {
    let mut words = [0x0050_0013, 0x1234_5037, 0x0000_2003, 0x0040_006f];
    let mut memory = WordBank::new(&mut words);
    let mut core = core_at(0, 7);
    for n in [3, 3, 4, 3] {
        assert_eq!(rt; clocks(&mut core, &mut memory), Some(n));
        assert_eq!(rt; core.registers.get(0), 0);
        assert_eq!(rt; core.registers.get(2), 7);
    }
    assert_eq!(rt; core.pc, 16);
}

/// What `word`, at address 0, leaves of the word at 4, with 0xaabbccdd in x2.
fn stored(word: u32) -> [u32; 2] {
    let mut words = [word, 0x1122_3344];
    let mut core = core_at(0, 0xaabb_ccdd);
    let _ = clocks(&mut core, &mut WordBank::new(&mut words));
    words
}

/// sb x2, 4(x0) and at 5, 6 and 7.
#[test]
fn one_lane(rt: HostRuntime) {
    assert_eq!(rt; stored(0x0020_0223), [0x0020_0223, 0x1122_33dd]);
    assert_eq!(rt; stored(0x0020_02a3), [0x0020_02a3, 0x1122_dd44]);
    assert_eq!(rt; stored(0x0020_0323), [0x0020_0323, 0x11dd_3344]);
    assert_eq!(rt; stored(0x0020_03a3), [0x0020_03a3, 0xdd22_3344]);
}
