//! Numbers, and registers and constants by their numbers. 2^32 stands for each number that is greater.

ghost use Rattle.std.specs.Prelude.{◌≡◌, ◌+◌, ◌*◌, ◌^◌, ◌<◌, ◌≤◌, if◌then◌else◌, Some, None};
ghost use Rattle.std.specs.Char.{digit_value, is_ascii_hexdigit};
ghost use Rattle.asmword.specs.Numbers.{whole, hex_in, number_in, numbered};

use textline::{Decimal, read_decimal};

const BEYOND: u64 = 0x1_0000_0000;

fn whole(number: Decimal) -> u64
    ensures { result ≡ whole number }
{
    match number.at_most(u32::MAX) {
        Some(n) => u64::from(n),
        None => BEYOND,
    }
}

fn hex_digit(byte: u8) -> Option<u64>
    ensures { result ≡ (if is_ascii_hexdigit byte then Some (digit_value byte) else None) }
{
    match byte {
        b'0'..=b'9' => Some(u64::from(byte - b'0')),
        b'A'..=b'F' => Some(u64::from(byte - b'A') + 10),
        b'a'..=b'f' => Some(u64::from(byte - b'a') + 10),
        _ => None,
    }
}

#[tactic(auto, unfolding(crate::specs::Numbers::hex_in))]
fn read_hex(digits: &[u8]) -> Option<u64>
    ensures { result ≡ hex_in digits.now }
{
    if digits.is_empty() {
        return None;
    }
    let mut value = 0;
    for digit in digits {
        value = capped(value, hex_digit(*digit)?);
    }
    Some(value)
}

fn capped(value: u64, digit: u64) -> u64
    requires value { value ≤ 2 ^ 32 }
    requires digit { digit < 36 }
    ensures { result ≡ whole (value * 16 + digit) }
{
    let more = value * 16 + digit;
    if more < BEYOND { more } else { BEYOND }
}

/// A number in decimal digits, or in hexadecimal ones of either case behind `0x`.
#[tactic(auto, unfolding(crate::specs::Numbers::number_in))]
pub fn read_number(word: &[u8]) -> Option<u64>
    ensures { result ≡ number_in word.now }
{
    if word.len() > 1 && word[0] == b'0' && word[1] == b'x' {
        read_hex(&word[2..])
    } else {
        Some(whole(read_decimal(word)?))
    }
}

/// The number behind a letter, which may be of either case.
#[tactic(auto, unfolding(crate::specs::Numbers::numbered))]
pub fn read_numbered(letter: u8, word: &[u8]) -> Option<u64>
    ensures { result ≡ numbered letter word.now }
{
    let (first, digits) = word.split_first()?;
    if first.to_ascii_uppercase() == letter {
        Some(whole(read_decimal(digits)?))
    } else {
        None
    }
}
