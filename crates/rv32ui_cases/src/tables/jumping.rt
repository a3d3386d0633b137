//! Jumps, and the simple test.

use crate::case::Case::{self, Jump};
use crate::shapes::jump_cases::Jump::{
    JalDelaySlot, JalLink, JalrDelaySlot, JalrLink, JalrSrc1Bypass, JalrSrc1EqDest, Simple,
};

pub(crate) const JAL: &[Case] = &[Jump(2, JalLink), Jump(3, JalDelaySlot)];

pub(crate) const JALR: &[Case] = &[
    Jump(2, JalrLink),
    Jump(3, JalrSrc1EqDest),
    Jump(4, JalrSrc1Bypass(0)),
    Jump(5, JalrSrc1Bypass(1)),
    Jump(6, JalrSrc1Bypass(2)),
    Jump(7, JalrDelaySlot),
];

pub(crate) const SIMPLE: &[Case] = &[Jump(1, Simple)];
