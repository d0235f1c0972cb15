//! Character constants and string literals, behind their opening quote.
ghost use Rattle.std.specs.Prelude.{◌≡◌, ◌≤◌, length, IfSome, ◌<◌, ◌*◌, ◌+◌};
ghost use Rattle.std.specs.List.{prefix_len};
ghost use Rattle.std.specs.Option.{option_map};
ghost use Rattle.clex.specs.Bytes as classes;
ghost use Rattle.clex.specs.Spelling as spelling;
ghost use Rattle.clex.specs.Reading as reading;

use crate::bytes::{digit_value, is_literal_byte, is_plain_character};

fn escape(e: u8) -> Option<u8>
    ensures { result ≡ spelling.escape e }
{
    match e {
        b'n' => Some(b'\n'),
        b't' => Some(b'\t'),
        b'r' => Some(b'\r'),
        b'0' => Some(0),
        b'\\' => Some(b'\\'),
        b'\'' => Some(b'\''),
        b'"' => Some(b'"'),
        _ => None,
    }
}

/// The value, where its closing quote stands next.
fn closed(value: u8, text: &[u8]) -> Option<(u8, &[u8])>
    ensures value { option_map (λ c. (c.0, c.1.now)) result ≡ reading.closed_at value text.now }
    ensures within { IfSome result (λ c. length c.1.now ≤ length text.now) }
{
    match text {
        [b'\'', left @ ..] => Some((value, left)),
        _ => None,
    }
}

fn hexadecimal(text: &[u8]) -> Option<(u8, &[u8])>
    ensures value { option_map (λ c. (c.0, c.1.now)) result ≡ reading.hexadecimal_at text.now }
    ensures within { IfSome result (λ c. length c.1.now ≤ length text.now) }
{
    let [high, low, behind @ ..] = text else {
        return None;
    };
    let high = digit_value(*high);
    let low = digit_value(*low);
    if high < 16 && low < 16 {
        closed((16 * high + low) as u8, behind)
    } else {
        None
    }
}

fn escaped(text: &[u8]) -> Option<(u8, &[u8])>
    ensures value { option_map (λ c. (c.0, c.1.now)) result ≡ reading.escape_at text.now }
    ensures within { IfSome result (λ c. length c.1.now ≤ length text.now) }
{
    match text {
        [] => None,
        [b'x', behind @ ..] => hexadecimal(behind),
        [e, behind @ ..] => closed(escape(*e)?, behind),
    }
}

/// The value of a character constant, and what is left behind its closing quote.
#[tactic(auto, unfolding(crate::specs::Reading::character_at))]
pub fn character(text: &[u8]) -> Option<(u8, &[u8])>
    ensures value { option_map (λ c. (c.0, c.1.now)) result ≡ reading.character_at text.now }
    ensures within { IfSome result (λ c. length c.1.now ≤ length text.now) }
{
    match text {
        [b'\\', behind @ ..] => escaped(behind),
        [b, behind @ ..] if is_plain_character(*b) => closed(*b, behind),
        _ => None,
    }
}

/// How many bytes of a string literal stand at the front.
pub fn literal_length(text: &[u8]) -> usize
    ensures value { result ≡ prefix_len classes.is_literal_byte text.now }
    ensures within { result ≤ length text.now }
{
    text.iter().take_while(|b| is_literal_byte(**b)).count()
}
