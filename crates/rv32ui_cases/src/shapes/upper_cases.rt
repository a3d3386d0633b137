ghost use Rattle.std.specs.Prelude.{◌≡◌};
ghost use Rattle.rv32ui_cases.specs.Shapes.{upper_put, raised};

use crate::instructions::{immediate, jal, register, upper};
use crate::program::Program;
use isa::Mnemonic;

/// LUI and AUIPC. They have no macro.
#[derive(Clone, Copy)]
pub enum Upper {
    /// Result, and the upper twenty bits.
    Lui(u32, u32),
    /// Result, the upper twenty bits, and by how many places SRAI then shifts them.
    LuiShifted(u32, u32, u8),
    /// The upper twenty bits; they go to x0.
    LuiZeroDest(u32),
    /// How far an address that AUIPC makes is from one that JAL gives.
    AuipcDistance(i32),
}

// The upper twenty bits, in their place.
fn raised(bits: u32) -> i64
    ensures { result ≡ raised bits }
{
    i64::from(bits.wrapping_mul(4096))
}

impl Upper {
    // Puts the case of an instruction into a program.
    pub(crate) fn put(self, mnemonic: Mnemonic, program: &mut Program)
        ensures { program.new ≡ upper_put mnemonic self program.old }
    {
        match self {
            Upper::Lui(result, bits) => {
                program.put(upper(mnemonic, 1, raised(bits)));
                program.check(1, result);
            }
            Upper::LuiShifted(result, bits, places) => {
                program.put(upper(mnemonic, 1, raised(bits)));
                program.put(immediate(Mnemonic::Srai, 1, 1, i64::from(places)));
                program.check(1, result);
            }
            Upper::LuiZeroDest(bits) => {
                program.put(upper(mnemonic, 0, raised(bits)));
                program.check(0, 0);
            }
            // From the address behind `la` and JAL, which JAL gives.
            Upper::AuipcDistance(distance) => {
                let distance = distance.cast_unsigned();
                let link = program.ahead(3);
                program.la(10, link.wrapping_add(distance));
                program.put(jal(11, 4));
                program.put(register(Mnemonic::Sub, 10, 10, 11));
                program.check(10, distance);
            }
        }
    }
}
