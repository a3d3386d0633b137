ghost use Rattle.std.specs.Prelude.{◌≡◌, ◌<◌};
ghost use Rattle.memory.specs.Lanes.{taken, merged, EachLane};

use std::array;

/// The word `old` with the lanes that `mask` names taken from `value`; bits of the mask above the fourth name none.
pub fn merge(mask: u8, value: u32, old: u32) -> u32
    ensures value { result ≡ merged mask value old }
    ensures lanes { EachLane mask value old result }
{
    u32::from_le_bytes(array::from_fn(
        |lane: usize| -> u8
            requires { lane < 4 }
            ensures { result ≡ taken mask value old lane }
        {
            let word = if mask >> lane & 1 == 1 { value } else { old };
            (word >> (8 * lane) & 0xff) as u8
        },
    ))
}
