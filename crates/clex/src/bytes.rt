ghost use Rattle.std.specs.Prelude.{◌≡◌};
ghost use Rattle.std.specs.Char.{digit_value};
ghost use Rattle.clex.specs.Bytes as classes;

pub fn is_word_byte(b: u8) -> bool
    ensures { result ≡ classes.is_word_byte b }
{
    b.is_ascii_alphanumeric() || b == b'_'
}

pub fn is_blank(b: u8) -> bool
    ensures { result ≡ classes.is_blank b }
{
    b == b' ' || b == b'\t' || b == b'\n' || b == b'\x0c' || b == b'\r'
}

pub fn is_within_line(b: u8) -> bool
    ensures { result ≡ classes.is_within_line b }
{
    b != b'\n'
}

pub fn is_literal_byte(b: u8) -> bool
    ensures { result ≡ classes.is_literal_byte b }
{
    (b' '..=b'~').contains(&b) && b != b'"'
}

pub fn is_plain_character(b: u8) -> bool
    ensures { result ≡ classes.is_plain_character b }
{
    (b' '..=b'~').contains(&b) && b != b'\'' && b != b'\\'
}

/// The value of a digit of a radix up to 36, else 36.
pub fn digit_value(b: u8) -> u32
    ensures { result ≡ digit_value b }
{
    let value = match b {
        b'0'..=b'9' => b - b'0',
        b'A'..=b'Z' => b - b'A' + 10,
        b'a'..=b'z' => b - b'a' + 10,
        _ => 36,
    };
    value as u32
}
