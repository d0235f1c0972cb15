//! Looking up keywords and punctuators in their tables.
ghost use Rattle.std.specs.Prelude.{◌≡◌, ◌≤◌, length, map, IfSome};
ghost use Rattle.std.specs.Option.{option_map};
ghost use Rattle.csyn.specs.Table.{spelled};
ghost use Rattle.csyn.specs.Keyword as keyword;
ghost use Rattle.csyn.specs.Punctuator as punctuator;
ghost use Rattle.clex.specs.Reading as reading;

use csyn::{KEYWORDS, Keyword, PUNCTUATORS, Punctuator};

fn exact(table: &[(&[u8], Keyword)], word: &[u8]) -> Option<Keyword>
    ensures { result ≡ spelled (map (λ e. (e.0.now, e.1)) table.now) word.now }
{
    let mut rest = table;
    while let [entry, others @ ..] = rest {
        if entry.0 == word {
            return Some(entry.1);
        }
        rest = others;
    }
    None
}

/// The keyword that is written so.
#[tactic(auto, unfolding(csyn::specs::Keyword::keyword_of))]
pub fn keyword_of(word: &[u8]) -> Option<Keyword>
    ensures { result ≡ keyword.keyword_of word.now }
{
    exact(&KEYWORDS, word)
}

fn front(table: &[(&[u8], Punctuator)], text: &[u8]) -> Option<(usize, Punctuator)>
    ensures found { result ≡ option_map (λ e. (length e.0, e.1)) (reading.front_in (map (λ e. (e.0.now, e.1)) table.now) text.now) }
    ensures within { IfSome result (λ e. e.0 ≤ length text.now) }
{
    let mut rest = table;
    while let [entry, others @ ..] = rest {
        if text.starts_with(entry.0) {
            return Some((entry.0.len(), entry.1));
        }
        rest = others;
    }
    None
}

/// The longest punctuator at the front of a text, and its length.
pub fn operator(text: &[u8]) -> Option<(usize, Punctuator)>
    ensures found { result ≡ option_map (λ e. (length e.0, e.1)) (reading.front_in punctuator.punctuators text.now) }
    ensures within { IfSome result (λ e. e.0 ≤ length text.now) }
{
    front(&PUNCTUATORS, text)
}
