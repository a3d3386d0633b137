use anyhow::{Context, Result, ensure};
use memory::{Cause, Kind, ReadMemory, WriteMemory};
use stores::{ByteImage, ReadOnlyImage, WordBank};

/// Lane by lane, the byte of `value` where the mask names the lane, and else that of `old`.
fn expected(mask: u8, value: u32, old: u32) -> u32 {
    let mut bytes = old.to_le_bytes();
    let lanes = value.to_le_bytes().into_iter().zip([1, 2, 4, 8]);
    for (byte, (new, bit)) in bytes.iter_mut().zip(lanes) {
        if mask & bit != 0 {
            *byte = new;
        }
    }
    u32::from_le_bytes(bytes)
}

#[test]
fn seven_bytes(rt: HostRuntime) {
    let mut bytes = [1, 2, 3, 4, 5, 6, 7];
    let mut image = ByteImage::new(&mut bytes);
    assert_eq!(rt; image.kind(0), Kind::Open);
    assert_eq!(rt; image.kind(1), Kind::Absent);
    assert_eq!(rt; image.read(0), Ok(0x0403_0201));
    assert_eq!(rt; image.read(1), Err(Cause::NoWord.at(1)));
    assert_eq!(rt; image.write(1, 0xffff_ffff, 15), Err(Cause::NoWord.at(1)));
    assert_eq!(rt; image.write(0, 0xffff_ffff, 15), Ok(()));
    assert_eq!(rt; bytes, [255, 255, 255, 255, 5, 6, 7]);
}

/// Every mask from 0 to 16 on an open word of any memory, and on a word that is absent.
fn open_by_mask<M: WriteMemory>(memory: &mut M, k: u32, absent: u32) -> Result<()> {
    for mask in 0..17 {
        let old = memory.read(k).ok().context("no word")?;
        let (answer, new, at_absent) = if mask > 15 {
            (Err(Cause::BadMask.at(k)), old, Cause::BadMask)
        } else {
            (Ok(()), expected(mask, 0xa1b2_c3d4, old), Cause::NoWord)
        };
        ensure!(memory.write(k, 0xa1b2_c3d4, mask) == answer);
        ensure!(memory.read(k) == Ok(new));
        ensure!(memory.write(k, 0x0102_0304, 15) == Ok(()));
        ensure!(memory.write(absent, 0xa1b2_c3d4, mask) == Err(at_absent.at(absent)));
    }
    Ok(())
}

#[test]
fn masks_on_open_words(rt: HostRuntime) -> Result<()> {
    let mut bytes = [9u8; 11];
    let mut image = ByteImage::new(&mut bytes);
    open_by_mask(&mut image, 1, 2)?;
    let mut words = [7u32; 3];
    let mut bank = WordBank::new(&mut words);
    open_by_mask(&mut bank, 2, 3)?;
    assert_eq!(rt; words, [7, 7, 0x0102_0304]);
    Ok(())
}

#[test]
fn masks_on_fixed_words(rt: HostRuntime) {
    let bytes = [1, 2, 3, 4, 5, 6, 7];
    let mut image = ReadOnlyImage::new(&bytes);
    assert_eq!(rt; image.kind(0), Kind::Fixed);
    assert_eq!(rt; image.kind(1), Kind::Absent);
    for mask in 0..17 {
        let (at_fixed, at_absent) = if mask > 15 {
            (Cause::BadMask, Cause::BadMask)
        } else {
            (Cause::FixedWord, Cause::NoWord)
        };
        assert_eq!(rt; image.write(0, 0xffff_ffff, mask), Err(at_fixed.at(0)));
        assert_eq!(rt; image.write(1, 0xffff_ffff, mask), Err(at_absent.at(1)));
    }
    assert_eq!(rt; image.read(0), Ok(0x0403_0201));
}

/// The numbers of the causes; a fault has the cause and the word that it is made of.
#[test]
fn numbers(rt: HostRuntime) {
    for (cause, number) in [
        (Cause::NoWord, 2),
        (Cause::FixedWord, 5),
        (Cause::BadMask, 9),
    ] {
        let fault = cause.at(7);
        assert_eq!(rt; fault.cause.number(), number);
        assert_eq!(rt; fault.word, 7);
    }
}
