ghost use Rattle.std.specs.Prelude.{◌≡◌, ℕ, ◌<◌, ◌≤◌, ◌-◌, ◌^◌, min, Some, None, IfSome, if◌then◌else◌};
ghost use Rattle.std.specs.Option.{SomeIff};
ghost use Rattle.std.specs.List.{list_all};
ghost use Rattle.std.specs.Str.Parse.{digits_value};
ghost use Rattle.std.specs.Char.{digit_value, is_ascii_digit};
ghost use Rattle.std.specs.Fmt.{decimal};
ghost use Rattle.textline.specs.Numbers.{hex4, hex8, decimal_in, hex_in, is_hex_digit};

use std::marker::Model;

/// A number as its decimal digits tell it: of any size, so that its reader names the range.
#[derive(Clone, Copy, Debug)]
pub struct Decimal {
    value: u64,
}

/// Seen as the number, or as 2^64 - 1 where it is larger.
impl Model for Decimal {
    ghost Value = { ℕ };

    ghost view = { λ d. d.value };

    ghost inverse = { λ n. record { value = n } };
}

impl Decimal {
    /// The number, where it is at most this.
    pub fn at_most(self, most: u32) -> Option<u32>
        ensures { SomeIff result (self ≤ most) self }
    {
        if self.value <= u64::from(most) {
            Some(self.value as u32)
        } else {
            None
        }
    }
}

/// Reads a word of decimal digits, with no sign and no zero before another digit.
#[tactic(auto, using(crate::proofs::DecimalLaws::decimal_reads, crate::proofs::DecimalLaws::decimal_only))]
pub fn read_decimal(word: &[u8]) -> Option<Decimal>
    ensures exact { result ≡ decimal_in word.now }
    ensures printed { (n : ℕ) → n < 2 ^ 64 → word.now ≡ decimal n → result ≡ Some n }
    ensures nothing_else { IfSome result (λ n. n < 2 ^ 64 - 1 → word.now ≡ decimal n) }
{
    Some(Decimal {
        value: decimal_value(word)?,
    })
}

fn decimal_value(word: &[u8]) -> Option<u64>
    ensures { result ≡ decimal_in word.now }
{
    match word {
        [] => None,
        [b'0', _, ..] => None,
        digits => value_of_digits(digits),
    }
}

fn value_of_digits(digits: &[u8]) -> Option<u64>
    ensures { result ≡ (if list_all is_ascii_digit digits.now then Some (min (digits_value 10 digits.now) (2 ^ 64 - 1)) else None) }
{
    let mut value = 0u64;
    for digit in digits {
        if !digit.is_ascii_digit() {
            return None;
        }
        value = value
            .saturating_mul(10)
            .saturating_add(u64::from(*digit - b'0'));
    }
    Some(value)
}

/// Reads a word of eight hexadecimal digits in lower case.
#[tactic(auto, using(crate::proofs::HexLaws::hex_reads, crate::proofs::HexLaws::hex_only))]
pub fn read_hex8(word: &[u8]) -> Option<u32>
    ensures exact { result ≡ hex_in 8 word.now }
    ensures printed { (n : ℕ) → n < 2 ^ 32 → word.now ≡ hex8 n → result ≡ Some n }
    ensures nothing_else { IfSome result (λ n. word.now ≡ hex8 n) }
{
    hex_value(word, 8)
}

/// Reads a word of four hexadecimal digits in lower case.
#[tactic(auto, using(crate::proofs::HexLaws::hex_reads, crate::proofs::HexLaws::hex_only))]
pub fn read_hex4(word: &[u8]) -> Option<u16>
    ensures exact { result ≡ hex_in 4 word.now }
    ensures printed { (n : ℕ) → n < 2 ^ 16 → word.now ≡ hex4 n → result ≡ Some n }
    ensures nothing_else { IfSome result (λ n. word.now ≡ hex4 n) }
{
    let value = hex_value(word, 4)?;
    Some(value as u16)
}

fn hex_value(word: &[u8], count: usize) -> Option<u32>
    requires { count ≤ 8 }
    ensures value { result ≡ hex_in count word.now }
    ensures small { IfSome result (λ n. n < 16 ^ count) }
{
    if word.len() != count {
        return None;
    }
    let mut value = 0u32;
    for byte in word {
        value = value * 16 + hex_digit(*byte)?;
    }
    Some(value)
}

fn hex_digit(byte: u8) -> Option<u32>
    ensures { result ≡ (if is_hex_digit byte then Some (digit_value byte) else None) }
{
    match byte {
        b'0'..=b'9' => Some(u32::from(byte - b'0')),
        b'a'..=b'f' => Some(u32::from(byte - b'a') + 10),
        _ => None,
    }
}
