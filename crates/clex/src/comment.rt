//! Comments, behind their opening.
ghost use Rattle.std.specs.Prelude.{◌≡◌, ◌≤◌, length};
ghost use Rattle.std.specs.Option.{option_copied};
ghost use Rattle.std.specs.List.{prefix_len};
ghost use Rattle.clex.specs.Bytes as classes;
ghost use Rattle.clex.specs.Reading as reading;

use crate::bytes::is_within_line;

/// What is left behind the first `*/`.
pub fn after_comment(text: &[u8]) -> Option<&[u8]>
    ensures { option_copied result ≡ reading.after_comment text.now }
{
    let mut rest = text;
    while let [a, behind @ ..] = rest {
        if let (b'*', [b'/', left @ ..]) = (a, behind) {
            return Some(left);
        }
        rest = behind;
    }
    None
}

/// How many bytes the line still has.
pub fn line_length(text: &[u8]) -> usize
    ensures value { result ≡ prefix_len classes.is_within_line text.now }
    ensures within { result ≤ length text.now }
{
    text.iter().take_while(|b| is_within_line(**b)).count()
}
