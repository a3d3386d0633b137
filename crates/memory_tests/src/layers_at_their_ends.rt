use layers::{Joined, Placed, Shield};
use memory::{Cause, Kind, MemoryFault, ReadMemory, WriteMemory};
use stores::{ReadOnlyImage, WordBank};

const LAST: u32 = 0x3fff_ffff;

const BEYOND: u32 = 0x4000_0000;

const TOP: u32 = 0xffff_ffff;

/// The word that is written.
const NEW: u32 = 0x1111_1111;

/// What a write is to answer by a mask that is in order, for a word of this kind.
fn answer(kind: Kind, k: u32) -> Result<(), MemoryFault> {
    match kind {
        Kind::Absent => Err(Cause::NoWord.at(k)),
        Kind::Fixed => Err(Cause::FixedWord.at(k)),
        Kind::Open => Ok(()),
    }
}

/// What a word holds after a write of all its lanes, by its kind.
fn written(kind: Kind, old: u32) -> u32 {
    if kind == Kind::Open { NEW } else { old }
}

/// What is seen of word `k`: its kind, and the word if it can be read.
fn seen<M: ReadMemory>(memory: &M, k: u32) -> (Kind, Option<u32>) {
    (memory.kind(k), memory.read(k).ok())
}

/// A bank of two words placed at a base: its first word shows there, if that is below 2^30, and its second after it.
#[test]
fn placed(rt: HostRuntime) {
    for (base, first, second) in [
        (1, Kind::Open, Kind::Open),
        (LAST - 1, Kind::Open, Kind::Open),
        (LAST, Kind::Open, Kind::Absent),
        (BEYOND, Kind::Absent, Kind::Absent),
        (TOP, Kind::Absent, Kind::Absent),
    ] {
        let mut words = [10u32, 20];
        let mut memory = Placed {
            base,
            below: WordBank::new(&mut words),
        };
        let next = base.wrapping_add(1);
        assert_eq!(rt; memory.kind(base), first);
        assert_eq!(rt; memory.kind(next), second);
        assert_eq!(rt; memory.kind(base.wrapping_sub(1)), Kind::Absent);
        assert_eq!(rt; memory.write(base, NEW, 15), answer(first, base));
        assert_eq!(rt; memory.write(base, NEW, 16), Err(Cause::BadMask.at(base)));
        assert_eq!(rt; memory.write(next, NEW, 15), answer(second, next));
        assert_eq!(rt; words, [written(first, 10), written(second, 20)]);
    }
}

#[test]
fn placed_at_the_start(rt: HostRuntime) {
    let mut words = [10u32, 20];
    let memory = Placed {
        base: 0,
        below: WordBank::new(&mut words),
    };
    assert_eq!(rt; seen(&memory, 1), (Kind::Open, Some(20)));
    assert_eq!(rt; seen(&memory, 2), (Kind::Absent, None));
}

/// A shield over three open words: how words 0, 1 and 2 look.
#[test]
fn shield(rt: HostRuntime) {
    let open = [Kind::Open; 3];
    let fixed = [Kind::Fixed; 3];
    for (from, to, kinds) in [
        (1, 2, [Kind::Open, Kind::Fixed, Kind::Open]),
        (0, 0, open),
        (2, 2, open),
        (2, 1, open),
        (TOP, 0, open),
        (0, TOP, fixed),
        (0, LAST, fixed),
        (0, BEYOND, fixed),
        (LAST, BEYOND, open),
        (BEYOND, TOP, open),
    ] {
        let mut words = [1u32, 2, 3];
        let mut memory = Shield {
            from,
            to,
            below: WordBank::new(&mut words),
        };
        for (k, kind) in (0..3).zip(kinds) {
            assert_eq!(rt; memory.kind(k), kind);
            assert_eq!(rt; memory.write(k, NEW, 15), answer(kind, k));
            assert_eq!(rt; memory.write(k, NEW, 16), Err(Cause::BadMask.at(k)));
        }
        assert_eq!(rt; memory.write(3, NEW, 15), Err(Cause::NoWord.at(3)));
    }
}

/// A shield at the last words that there can be: over words LAST - 1 and LAST, which are open below it.
#[test]
fn shield_at_the_end(rt: HostRuntime) {
    for (from, to, last_but_one, last) in [
        (LAST, BEYOND, Kind::Open, Kind::Fixed),
        (0, LAST, Kind::Fixed, Kind::Open),
        (LAST, TOP, Kind::Open, Kind::Fixed),
        (BEYOND, TOP, Kind::Open, Kind::Open),
        (TOP, LAST, Kind::Open, Kind::Open),
    ] {
        let mut words = [1u32, 2, 3];
        let below = Placed {
            base: LAST - 1,
            below: WordBank::new(&mut words),
        };
        let memory = Shield { from, to, below };
        assert_eq!(rt; seen(&memory, LAST - 1), (last_but_one, Some(1)));
        assert_eq!(rt; seen(&memory, LAST), (last, Some(2)));
        assert_eq!(rt; seen(&memory, BEYOND), (Kind::Absent, None));
    }
}

/// A join of two open words and three fixed ones: how words 0 to 2 look, and what a write to each answers.
#[test]
fn joined(rt: HostRuntime) {
    let bytes = [9u8; 12];
    let first = (Kind::Open, Some(1));
    let second = (Kind::Open, Some(2));
    let fixed = (Kind::Fixed, Some(0x0909_0909));
    let absent = (Kind::Absent, None);
    for (at, looks) in [
        (0, [fixed, fixed, fixed]),
        (1, [first, fixed, fixed]),
        (2, [first, second, fixed]),
        (LAST, [first, second, absent]),
        (BEYOND, [first, second, absent]),
        (TOP, [first, second, absent]),
    ] {
        let mut words = [1u32, 2];
        let mut memory = Joined {
            at,
            left: WordBank::new(&mut words),
            right: ReadOnlyImage::new(&bytes),
        };
        for (k, (kind, word)) in (0..3).zip(looks) {
            assert_eq!(rt; seen(&memory, k), (kind, word));
            assert_eq!(rt; memory.write(k, NEW, 15), answer(kind, k));
            assert_eq!(rt; memory.write(k, NEW, 16), Err(Cause::BadMask.at(k)));
        }
        assert_eq!(rt; seen(&memory, LAST), (Kind::Absent, None));
        assert_eq!(rt; seen(&memory, TOP), (Kind::Absent, None));
    }
}
