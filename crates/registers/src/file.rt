ghost use Rattle.std.specs.Prelude.{◌≡◌};
ghost use Rattle.registers.specs.Registers.{made_of, value_of, put_into};

use std::marker::Model;

/// The registers x0 to x31. x0 reads as 0.
#[derive(Clone, Copy, PartialEq, Eq, Debug)]
pub struct RegisterFile {
    numbers: [u32; 32],
}

// Clauses see the list of the numbers, x0 first.
impl Model for RegisterFile {
    ghost use Rattle.std.specs.Prelude.{ℕ, List};

    ghost Value = { List ℕ };

    ghost view = { λ r. r.numbers };

    ghost inverse = { λ xs. record { numbers = xs } };
}

impl RegisterFile {
    /// A register file of 32 numbers, but with x0 equal to 0.
    pub fn new(mut numbers: [u32; 32]) -> RegisterFile
        ensures { result ≡ made_of numbers }
    {
        numbers[0] = 0;
        RegisterFile { numbers }
    }

    /// The number in register `n`: 0 in x0. There is none above 31, for which it gives 0.
    pub fn get(&self, n: u8) -> u32
        ensures { result ≡ value_of self.now n }
    {
        if 0 < n && n < 32 {
            self.numbers[usize::from(n)]
        } else {
            0
        }
    }

    /// Puts `value` into register `n`. A write to x0, or above 31, does nothing.
    pub fn put(&mut self, n: u8, value: u32)
        ensures { self.new ≡ put_into self.old n value }
    {
        if 0 < n && n < 32 {
            self.numbers[usize::from(n)] = value;
        }
    }
}
