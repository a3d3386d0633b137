ghost use Rattle.std.specs.Prelude.{◌≡◌};
ghost use Rattle.alu.specs.Stores.{Placed, ReadBack};
ghost use Rattle.alu.specs.declared.stores.Store.TheVariants.{Byte};
ghost use Rattle.memory.specs.Lanes.{EachLane};

use alu::{Lanes, Store, store_lanes};
use memory::merge;

/// SB puts its byte into the lane of the address: in another lane, or by another mask, it is not placed, and does not come back.
#[tactic(auto, using(crate::proofs::Bytes::byte_placed, crate::proofs::Bytes::byte_back))]
pub fn placed() -> Lanes
    ensures value { result.value ≡ 0x4400 }
    ensures mask { result.mask ≡ 0b0010 }
    ensures placed { Placed Byte 0x11223344 0x80019 0x4400 0b0010 × (Placed Byte 0x11223344 0x80019 0x44 0b0010 → ⊥) × (Placed Byte 0x11223344 0x80019 0x4400 0b0001 → ⊥) }
    ensures back { ReadBack Byte 0x11223344 0x80019 0x4400 × (ReadBack Byte 0x11223344 0x80019 0x44 → ⊥) }
{
    store_lanes(Store::Byte, 0x11223344, 0x80019)
}

/// One lane is taken and the others are kept: neither the old word nor the other one is that.
#[tactic(auto, using(crate::proofs::Bytes::one_lane))]
pub fn each_lane() -> u32
    ensures value { result ≡ 0xAABB33DD }
    ensures shown { EachLane 0b0010 0x11223344 0xAABBCCDD 0xAABB33DD × (EachLane 0b0010 0x11223344 0xAABBCCDD 0xAABBCCDD → ⊥) × (EachLane 0b0010 0x11223344 0xAABBCCDD 0x11223344 → ⊥) }
{
    merge(0b0010, 0x11223344, 0xAABBCCDD)
}
