ghost use Rattle.std.specs.Prelude.{◌≡◌, ◌≤◌, length};
ghost use Rattle.rv32ui_cases.specs.Data.{data_of};

use isa::Mnemonic;

/// The published data that a load reads and a store writes, as words.
pub(super) fn data(mnemonic: Mnemonic) -> &'static [u32]
    ensures value { result.now ≡ data_of mnemonic }
    ensures few { length result.now ≤ 10 }
{
    match mnemonic {
        // Bytes ff, 00, f0 and 0f.
        Mnemonic::Lb | Mnemonic::Lbu => &[0x0ff0_00ff],
        // Halves 00ff, ff00, 0ff0 and f00f.
        Mnemonic::Lh | Mnemonic::Lhu => &[0xff00_00ff, 0xf00f_0ff0],
        Mnemonic::Lw => &[0x00ff_00ff, 0xff00_ff00, 0x0ff0_0ff0, 0xf00f_f00f],
        // Ten bytes ef, ten halves beef, ten words deadbeef.
        Mnemonic::Sb => &[0xefef_efef, 0xefef_efef, 0xefef],
        Mnemonic::Sh => &[0xbeef_beef; 5],
        Mnemonic::Sw => &[0xdead_beef; 10],
        _ => &[],
    }
}
