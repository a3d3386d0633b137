ghost use Rattle.std.specs.Prelude.{◌≡◌};
ghost use Rattle.benchfile.specs.Header.{header_of};
ghost use Rattle.benchfile.specs.Laws.{GetsTheVerdict, ReadsBack};

use super::file::{HEADER_LENGTH, VERSION};

// The mark, the version, three zeros and the four numbers, the lowest byte of each first. A function of its own: in one with
// `header` a mistake would be refused by the file of its proof, and not by the contract.
fn lay_out(start: u32, base: u32, length: u32, limit: u32) -> [u8; HEADER_LENGTH]
    ensures { result ≡ header_of start base length limit }
{
    let [v0, v1] = VERSION.to_le_bytes();
    let [s0, s1, s2, s3] = start.to_le_bytes();
    let [b0, b1, b2, b3] = base.to_le_bytes();
    let [n0, n1, n2, n3] = length.to_le_bytes();
    let [l0, l1, l2, l3] = limit.to_le_bytes();
    [
        b'R', b'V', b'B', v0, v1, 0, 0, 0, s0, s1, s2, s3, b0, b1, b2, b3, n0, n1, n2, n3, l0, l1,
        l2, l3,
    ]
}

/// The bytes that stand before an image of `length` bytes.
///
/// It refuses nothing: `read` judges the numbers, with the image that follows.
#[tactic(auto, using(crate::proofs::Headers::verdict_of, crate::proofs::Headers::reads_back_lem))]
pub fn header(start: u32, base: u32, length: u32, limit: u32) -> [u8; HEADER_LENGTH]
    ensures bytes { result ≡ header_of start base length limit }
    ensures verdict { GetsTheVerdict result start base length limit }
    ensures reads_back { ReadsBack result start base limit }
{
    lay_out(start, base, length, limit)
}
