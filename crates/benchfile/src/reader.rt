ghost use Rattle.std.specs.Prelude.{◌≡◌};
ghost use Rattle.benchfile.specs.Format.{checked, fields_of, file_of};
ghost use Rattle.benchfile.specs.Laws.{Judges, WholeWords};
ghost use Rattle.benchfile.specs.Views.{fields_in, fields_read, file_read};

use super::file::{BenchFile, LONGEST_IMAGE, VERSION};
use super::refusals::Refusal;

/// How many addresses there are.
const ADDRESSES: u64 = 1 << 32;

/// The highest instruction limit.
const HIGHEST_LIMIT: u32 = 1_000_000;

/// The fields of a file that has the mark, before any is judged.
#[derive(Clone, Copy)]
struct Fields<'a> {
    version: u16,
    reserved: [u8; 3],
    start: u32,
    base: u32,
    length: u32,
    limit: u32,
    image: &'a [u8],
}

/// The fields of the file; refused where it is too short or lacks the mark.
#[tactic(auto, using(std::proofs::lemmas::List::take_rest, std::proofs::lemmas::Bool::Decides::nat_tests))]
fn take_apart<'a>(bytes: &'a [u8]) -> Result<Fields<'a>, Refusal>
    ensures { fields_read result ≡ fields_of bytes.now }
{
    let [
        b'R',
        b'V',
        b'B',
        v0,
        v1,
        z0,
        z1,
        z2,
        s0,
        s1,
        s2,
        s3,
        b0,
        b1,
        b2,
        b3,
        n0,
        n1,
        n2,
        n3,
        l0,
        l1,
        l2,
        l3,
        image @ ..,
    ] = bytes
    else {
        return Err(Refusal::NotBenchFile);
    };
    Ok(Fields {
        version: u16::from_le_bytes([*v0, *v1]),
        reserved: [*z0, *z1, *z2],
        start: u32::from_le_bytes([*s0, *s1, *s2, *s3]),
        base: u32::from_le_bytes([*b0, *b1, *b2, *b3]),
        length: u32::from_le_bytes([*n0, *n1, *n2, *n3]),
        limit: u32::from_le_bytes([*l0, *l1, *l2, *l3]),
        image,
    })
}

/// The file that the fields make; refused at the first check that fails.
// That it is whole words is a clause and no fact of the type: who makes a `BenchFile` by hand need not show it.
fn judge<'a>(fields: Fields<'a>) -> Result<BenchFile<'a>, Refusal>
    ensures value { file_read result ≡ checked (fields_in fields.entry) }
    ensures whole { WholeWords (file_read result) }
{
    let Fields {
        version,
        reserved,
        start,
        base,
        length,
        limit,
        image,
    } = fields;
    if version != VERSION {
        return Err(Refusal::Version);
    }
    if reserved != [0; 3] {
        return Err(Refusal::Header);
    }
    if base % 4 != 0 || length % 4 != 0 {
        return Err(Refusal::Header);
    }
    if length > LONGEST_IMAGE || length as usize != image.len() {
        return Err(Refusal::Header);
    }
    if u64::from(base) + u64::from(length) > ADDRESSES {
        return Err(Refusal::Header);
    }
    if limit > HIGHEST_LIMIT {
        return Err(Refusal::Limit);
    }
    Ok(BenchFile {
        start,
        base,
        limit,
        image,
    })
}

/// What a bench file says: its numbers, and its image as a part of `bytes`.
///
/// Bytes that are no bench file are refused, with the first check that fails: the length and the
/// mark, the version, the rest of the header, the instruction limit.
#[tactic(auto, using(crate::proofs::Readings::judges))]
pub fn read<'a>(bytes: &'a [u8]) -> Result<BenchFile<'a>, Refusal>
    ensures value { file_read result ≡ file_of bytes.now }
    ensures law { Judges bytes.now (file_read result) }
    ensures whole { WholeWords (file_read result) }
{
    judge(take_apart(bytes)?)
}
