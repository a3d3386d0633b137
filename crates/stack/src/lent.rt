ghost use Rattle.std.specs.Prelude.{◌≡◌, not, nat_lt};
ghost use Rattle.layers.specs.Joined.{joined};
ghost use Rattle.layers.specs.Wrote.{Wrote};
ghost use Rattle.memory.specs.Meaning.{write_of};

use layers::Joined;
use memory::{MemoryFault, ReadMemory, WriteMemory};

/// Writes word `k` through the two memories joined at `at`, and hands both back. The left one is written if `k` is below `at`, the
/// right one otherwise; the other is as it was.
pub fn write_beside<L: WriteMemory, R: WriteMemory>(
    at: u32,
    left: &mut L,
    right: &mut R,
    k: u32,
    value: u32,
    mask: u8,
) -> Result<(), MemoryFault>
    ensures answer { result ≡ write_of k mask (joined at (L.ReadMemory.kinds left.old) (R.ReadMemory.kinds right.old) k) }
    ensures left { Wrote (L.ReadMemory.kinds left.old) (L.ReadMemory.words left.old) (L.WriteMemory.rest left.old) (nat_lt k at) k value mask (L.ReadMemory.kinds left.new) (L.ReadMemory.words left.new) (L.WriteMemory.rest left.new) }
    ensures right { Wrote (R.ReadMemory.kinds right.old) (R.ReadMemory.words right.old) (R.WriteMemory.rest right.old) (not (nat_lt k at)) k value mask (R.ReadMemory.kinds right.new) (R.ReadMemory.words right.new) (R.WriteMemory.rest right.new) }
{
    Joined { at, left, right }.write(k, value, mask)
}
