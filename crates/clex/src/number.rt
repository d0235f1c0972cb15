//! Integer constants.
ghost use Rattle.std.specs.Prelude.{◌≡◌, ◌+◌, ◌*◌, ◌<◌, ◌≤◌, length, nat_le, if◌then◌else◌, Some, None};
ghost use Rattle.std.specs.List.{prefix_len};
ghost use Rattle.std.specs.Char.{is_digit};
ghost use Rattle.std.specs.Str.Parse.{digits_value};
ghost use Rattle.clex.specs.Numbers as numbers;
ghost use Rattle.clex.specs.Reading as reading;

use crate::bytes::digit_value;

fn is_u(b: u8) -> bool
    ensures { result ≡ numbers.is_u b }
{
    b == b'u' || b == b'U'
}

fn is_l(b: u8) -> bool
    ensures { result ≡ numbers.is_l b }
{
    b == b'l' || b == b'L'
}

/// Whether a suffix says that the number is unsigned.
fn suffix(text: &[u8]) -> Option<bool>
    ensures { result ≡ numbers.suffix_of text.now }
{
    match text {
        [] => Some(false),
        [a] if is_u(*a) => Some(true),
        [a] if is_l(*a) => Some(false),
        [a, b] if is_u(*a) && is_l(*b) || is_l(*a) && is_u(*b) => Some(true),
        _ => None,
    }
}

/// The radix, and where its digits begin.
fn radix_of(spelling: &[u8]) -> (u32, &[u8])
    ensures { (result.0, result.1.now) ≡ numbers.radix_of spelling.now }
{
    match spelling {
        [b'0', b'x' | b'X', digits @ ..] => (16, digits),
        [b'0', ..] => (8, spelling),
        _ => (10, spelling),
    }
}

/// How many digits of the radix stand at the front.
fn digits_length(radix: u32, text: &[u8]) -> usize
    ensures value { result ≡ prefix_len (λ b. is_digit b radix) text.now }
    ensures within { result ≤ length text.now }
{
    text.iter().take_while(|b| digit_value(**b) < radix).count()
}

/// The value with one digit more, if it has 32 bits at most.
fn with_digit(value: u32, radix: u32, digit: u32) -> Option<u32>
    ensures { result ≡ (if nat_le (value * radix + digit) numbers.most then Some (value * radix + digit) else None) }
{
    value.checked_mul(radix)?.checked_add(digit)
}

/// The number that the digits write, if it has 32 bits at most.
fn value(radix: u32, digits: &[u8]) -> Option<u32>
    requires { 0 < radix }
    ensures { result ≡ (if nat_le (digits_value radix digits.now) numbers.most then Some (digits_value radix digits.now) else None) }
{
    let mut value = 0;
    let mut rest = digits;
    while let [digit, behind @ ..] = rest {
        value = with_digit(value, radix, digit_value(*digit))?;
        rest = behind;
    }
    Some(value)
}

#[tactic(auto, unfolding(crate::specs::Reading::integer_of))]
fn integer(radix: u32, text: &[u8]) -> Option<(u32, bool)>
    requires { 0 < radix }
    ensures { result ≡ reading.integer_of radix text.now }
{
    let length = digits_length(radix, text);
    if length == 0 {
        return None;
    }
    let (digits, rest) = text.split_at(length);
    let is_unsigned = suffix(rest)?;
    Some((value(radix, digits)?, is_unsigned))
}

/// The value of a number and whether it is unsigned; none where it is malformed or above 32 bits.
#[tactic(auto, unfolding(crate::specs::Reading::number_of))]
pub fn number(spelling: &[u8]) -> Option<(u32, bool)>
    ensures { result ≡ reading.number_of spelling.now }
{
    let (radix, text) = radix_of(spelling);
    integer(radix, text)
}
