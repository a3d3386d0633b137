ghost use Rattle.std.specs.Prelude.{◌≡◌, ◌≤◌};
ghost use Rattle.commands.specs.Numbers.{number_in, number_of};
ghost use Rattle.commands.specs.Table.{Finds, Number};

// The number that a text writes in a base. By a loop: the text need not be UTF-8, and `from_str_radix` would take a plus sign.
#[tactic(auto, using(crate::proofs::Digits::reading))]
pub(super) fn digits(base: u32, text: &[u8]) -> Option<u32>
    requires least { 2 ≤ base }
    requires most { base ≤ 36 }
    ensures { result ≡ number_in base text.now }
{
    if text.is_empty() {
        return None;
    }
    let mut number: u32 = 0;
    for character in text {
        let digit = char::from(*character).to_digit(base)?;
        number = number.checked_mul(base)?.checked_add(digit)?;
    }
    Some(number)
}

/// The number that a text writes: decimal digits, or hexadecimal digits of either case after a lower-case `0x`. Leading zeros are
/// allowed. None if the text is anything else, or if the number has more than 32 bits.
#[tactic(auto, using(crate::proofs::Numerals::number_found))]
pub fn number(text: &[u8]) -> Option<u32>
    ensures value { result ≡ number_of text.now }
    ensures law { Finds (Number text.now) result }
{
    match text.strip_prefix(b"0x") {
        Some(hexadecimal) => digits(16, hexadecimal),
        None => digits(10, text),
    }
}
