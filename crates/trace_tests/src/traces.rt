use super::files::{Numbers, file, image_of};
use anyhow::{Result, ensure};
use tracer::{Part, output};

/// Start, base and limit of a program, its words, and what is printed.
type Case = ((u32, u32, u32), &'static [u32], &'static [u8]);

/// addi x1, x0, 5, sw x1, 16(x0), lb x2, 16(x0), beq x1, x2, 8, and a word that the branch jumps over.
const FIRST: [u32; 5] = [0x0050_0093, 0x0010_2823, 0x0100_0103, 0x0020_8463, 0];

/// An instruction of each class: lui x1, 1, auipc x2, 0, addi x3, x0, 5, add x4, x3, x3, sw x4, 36(x0), lw x5, 36(x0), bne x5, x4, 8,
/// jal x6, 4 and jalr x0, 36(x0), which goes to the word that was stored. That is no instruction.
const CLASSES: [u32; 10] = [
    0x0000_10b7,
    0x0000_0117,
    0x0050_0193,
    0x0031_8233,
    0x0240_2223,
    0x0240_2283,
    0x0042_9463,
    0x0040_036f,
    0x0240_0067,
    0,
];

/// addi x0, x0, 0.
const NOTHING: u32 = 0x0000_0013;

/// The limit, and then each refusal of an instruction but that of a fixed word, which no bench file has.
const CASES: [Case; 19] = [
    (
        (0, 0, 10),
        &FIRST,
        b"00000000 00500093 3\n00000004 00102823 3\n00000008 01000103 4\n0000000c 00208463 4\nstop 2 at 00000014 after 4 instructions and 14 clocks\n",
    ),
    (
        (0, 0, 4),
        &FIRST,
        b"00000000 00500093 3\n00000004 00102823 3\n00000008 01000103 4\n0000000c 00208463 4\nstop 0 at 00000014 after 4 instructions and 14 clocks\n",
    ),
    (
        (0, 0, 5),
        &FIRST,
        b"00000000 00500093 3\n00000004 00102823 3\n00000008 01000103 4\n0000000c 00208463 4\nstop 2 at 00000014 after 4 instructions and 14 clocks\n",
    ),
    (
        (0, 0, 1),
        &FIRST,
        b"00000000 00500093 3\nstop 0 at 00000004 after 1 instructions and 3 clocks\n",
    ),
    (
        (0, 0, 0),
        &FIRST,
        b"stop 0 at 00000000 after 0 instructions and 0 clocks\n",
    ),
    (
        (3, 0, 0),
        &FIRST,
        b"stop 0 at 00000003 after 0 instructions and 0 clocks\n",
    ),
    (
        (0, 0, 100),
        &CLASSES,
        b"00000000 000010b7 3\n00000004 00000117 3\n00000008 00500193 3\n0000000c 00318233 3\n00000010 02402223 3\n00000014 02402283 4\n00000018 00429463 4\n0000001c 0040036f 3\n00000020 02400067 3\nstop 3 at 00000024 after 9 instructions and 29 clocks\n",
    ),
    // PC that four does not divide, at the start and after jalr x1, 3(x2).
    (
        (1, 0, 10),
        &FIRST,
        b"stop 1 at 00000001 after 0 instructions and 0 clocks\n",
    ),
    (
        (0, 0, 10),
        &[0x0031_00e7],
        b"00000000 003100e7 3\nstop 1 at 00000002 after 1 instructions and 3 clocks\n",
    ),
    // No word: at the start, and that of a load and of a store.
    (
        (0, 4, 10),
        &FIRST,
        b"stop 2 at 00000000 after 0 instructions and 0 clocks\n",
    ),
    (
        (0, 0, 10),
        &[NOTHING, 0x0080_2083],
        b"00000000 00000013 3\nstop 2 at 00000004 after 1 instructions and 3 clocks\n",
    ),
    (
        (0, 0, 10),
        &[NOTHING, 0x0010_2423],
        b"00000000 00000013 3\nstop 2 at 00000004 after 1 instructions and 3 clocks\n",
    ),
    // No instruction: from the start, and after sw x0, 4(x0) has overwritten the next one.
    (
        (0x1000, 0x1000, 10),
        &[0xffff_ffff],
        b"stop 3 at 00001000 after 0 instructions and 0 clocks\n",
    ),
    (
        (0, 0, 10),
        &[0x0000_2223, NOTHING],
        b"00000000 00002223 3\nstop 3 at 00000004 after 1 instructions and 3 clocks\n",
    ),
    // An address that is no multiple: lw x1, 2(x0) and sh x1, 1(x0).
    (
        (0, 0, 10),
        &[0x0020_2083],
        b"stop 4 at 00000000 after 0 instructions and 0 clocks\n",
    ),
    (
        (0, 0, 10),
        &[NOTHING, 0x0010_10a3],
        b"00000000 00000013 3\nstop 4 at 00000004 after 1 instructions and 3 clocks\n",
    ),
    // PC goes past 2^32: from the last word, by jal x0, 8, and back from there by jal x0, -4.
    (
        (0xffff_fff8, 0xffff_fff8, 10),
        &[NOTHING, NOTHING],
        b"fffffff8 00000013 3\nfffffffc 00000013 3\nstop 2 at 00000000 after 2 instructions and 6 clocks\n",
    ),
    (
        (0xffff_fffc, 0xffff_fffc, 10),
        &[0x0080_006f],
        b"fffffffc 0080006f 3\nstop 2 at 00000004 after 1 instructions and 3 clocks\n",
    ),
    (
        (0, 0, 10),
        &[0xffdf_f06f],
        b"00000000 ffdff06f 3\nstop 2 at fffffffc after 1 instructions and 3 clocks\n",
    ),
];

#[test]
fn stops(rt: HostRuntime) -> Result<()> {
    for ((start, base, limit), words, text) in CASES {
        let numbers = Numbers { start, base, limit };
        let image = image_of(rt.alloc(), words)?;
        let length = u32::try_from(image.len()).unwrap_or(u32::MAX);
        let bytes = file(rt.alloc(), numbers, length, &image)?;
        let whole = output(rt.alloc(), &bytes, Part::Whole)?;
        ensure!(whole.as_bytes() == text, "{words:?}");
        let last = output(rt.alloc(), &bytes, Part::LastLine)?;
        ensure!(last.as_bytes().starts_with(b"stop "), "{words:?}");
        ensure!(text.ends_with(last.as_bytes()), "{words:?}");
    }
    Ok(())
}

/// The last word of the longest image, and the first after it.
#[test]
fn longest_image(rt: HostRuntime) -> Result<()> {
    let mut image = vec![in rt.alloc(); 0u8; 32_764]?;
    image.extend_from_slice(&NOTHING.to_le_bytes())?;
    let numbers = Numbers {
        start: 0x8ffc,
        base: 0x1000,
        limit: 2,
    };
    let bytes = file(rt.alloc(), numbers, 32_768, &image)?;
    let printed = output(rt.alloc(), &bytes, Part::Whole)?;
    ensure!(
        printed.as_str()
            == "00008ffc 00000013 3\nstop 2 at 00009000 after 1 instructions and 3 clocks\n"
    );
    Ok(())
}
