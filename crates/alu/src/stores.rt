ghost use Rattle.std.specs.Prelude.{◌≡◌};
ghost use Rattle.alu.specs.Stores.{value_of, mask_of, Placed, ReadBack};

use bits::field;

/// A store of a byte, a half or a word.
#[derive(Clone, Copy, PartialEq, Eq, Debug)]
pub enum Store {
    /// SB: the low byte of the register.
    Byte,
    /// SH: its low half.
    Half,
    /// SW: all of it.
    Word,
}

/// What a store writes to the word of memory that holds its address.
#[derive(Clone, Copy, PartialEq, Eq, Debug)]
pub struct Lanes {
    /// The bytes, each in its lane, with 0 in the lanes that are not written. Lane 0 is the least significant byte.
    pub value: u32,
    /// The lanes that are written: bit i is set for lane i.
    pub mask: u8,
}

/// What `store` writes of the register's `value` to the word that holds `address`.
/// A half at an odd address goes to the half of the word that holds that byte, and a word goes to the whole word.
#[tactic(auto, using(crate::proofs::LaneBytes::stored))]
pub fn store_lanes(store: Store, value: u32, address: u32) -> Lanes
    ensures value { result.value ≡ value_of store value address }
    ensures mask { result.mask ≡ mask_of store address }
    ensures placed { Placed store value address result.value result.mask }
    ensures back { ReadBack store value address result.value }
{
    match store {
        Store::Byte => {
            let lane = address % 4;
            Lanes {
                value: field(value, 0, 8) << (8 * lane),
                mask: 0b0001 << lane,
            }
        }
        Store::Half => {
            let half = address / 2 % 2;
            Lanes {
                value: field(value, 0, 16) << (16 * half),
                mask: 0b0011 << (2 * half),
            }
        }
        Store::Word => Lanes {
            value,
            mask: 0b1111,
        },
    }
}
