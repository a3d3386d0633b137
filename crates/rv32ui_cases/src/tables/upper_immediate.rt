//! LUI and AUIPC.

use crate::case::Case::{self, Upper};
use crate::shapes::upper_cases::Upper::{AuipcDistance, Lui, LuiShifted, LuiZeroDest};

pub(crate) const LUI: &[Case] = &[
    Upper(2, Lui(0, 0)),
    Upper(3, LuiShifted(0xffff_f800, 0x000f_ffff, 1)),
    Upper(4, LuiShifted(0x7ff, 0x0007_ffff, 20)),
    Upper(5, LuiShifted(0xffff_f800, 0x0008_0000, 20)),
    Upper(6, LuiZeroDest(0x0008_0000)),
];

pub(crate) const AUIPC: &[Case] = &[
    Upper(2, AuipcDistance(10000)),
    Upper(3, AuipcDistance(-10000)),
];
