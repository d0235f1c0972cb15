//! Operands as texts.

ghost use Rattle.std.specs.Prelude.{◌≡◌, ◌&&◌, option_map};
ghost use Rattle.std.specs.List.{list_all};
ghost use Rattle.asmword.specs.Numbers.{numbered};
ghost use Rattle.asmword.specs.Words.{is_name_byte, begins_name, is_below, is_name, part_in, field_in, first_of, behind_ampersand};
ghost use Rattle.asmword.specs.Words.{else_, number_word, word_in};

use crate::blank::behind_blanks;
use crate::form::Word;
use crate::kinds::Kind;
use crate::number::{read_number, read_numbered};
use crate::parts::Parts;
use isa::Part;

fn is_name_byte(byte: u8) -> bool
    ensures { result ≡ is_name_byte byte }
{
    byte.is_ascii_alphanumeric() || byte == b'_'
}

fn begins_name(word: &[u8]) -> bool
    ensures { result ≡ begins_name word.now }
{
    match word.split_first() {
        Some((first, _)) => !first.is_ascii_digit(),
        None => false,
    }
}

fn is_register(word: &[u8]) -> bool
    ensures { result ≡ is_below 32 (numbered 82 word.now) }
{
    match read_numbered(b'R', word) {
        Some(n) => n < 32,
        None => false,
    }
}

fn is_spelled(word: &[u8]) -> bool
    ensures { result ≡ (list_all is_name_byte word.now && begins_name word.now) }
{
    has_name_bytes(word) && begins_name(word)
}

fn has_name_bytes(word: &[u8]) -> bool
    ensures { result ≡ list_all is_name_byte word.now }
{
    word.iter().all(|b| is_name_byte(*b))
}

/// Whether a label may have this name: letters, digits and `_`, with no digit first, and none of R0 to R31 in either case.
#[tactic(auto, unfolding(crate::specs::Words::is_name))]
pub fn is_name(word: &[u8]) -> bool
    ensures { result ≡ is_name word.now }
{
    is_spelled(word) && !is_register(word)
}

#[tactic(auto, unfolding(crate::specs::Words::part_in))]
fn read_part(word: &[u8]) -> Option<Part>
    ensures { result ≡ part_in word.now }
{
    if word == b"b0".as_slice() {
        Some(Part::B0)
    } else if word == b"b1".as_slice() {
        Some(Part::B1)
    } else if word == b"b2".as_slice() {
        Some(Part::B2)
    } else if word == b"b3".as_slice() {
        Some(Part::B3)
    } else if word == b"w0".as_slice() {
        Some(Part::W0)
    } else if word == b"w1".as_slice() {
        Some(Part::W1)
    } else if word == b"w2".as_slice() {
        Some(Part::W2)
    } else {
        None
    }
}

#[tactic(auto, unfolding(crate::specs::Words::field_in))]
fn read_field(text: &[u8]) -> Option<Word>
    ensures { result ≡ field_in text.now }
{
    let mut parts = Parts::of(text, b'.');
    let register = parts.part()?;
    let Some(part) = parts.part() else {
        return whole_register(register);
    };
    if !parts.is_end() {
        return None;
    }
    let register = read_numbered(b'R', register)?;
    let part = read_part(part)?;
    Some(Word::Field { register, part })
}

fn whole_register(text: &[u8]) -> Option<Word>
    ensures { result ≡ option_map (λ n. Word.Field n Part.All) (numbered 82 text.now) }
{
    let register = read_numbered(b'R', text)?;
    Some(Word::Field {
        register,
        part: Part::All,
    })
}

#[tactic(auto, unfolding(crate::specs::Words::first_of))]
fn first_of(word: Word) -> Option<Word>
    ensures { result ≡ first_of word }
{
    let Word::Field { register, part } = word else {
        return None;
    };
    let part = match part {
        Part::All | Part::B0 => Part::All,
        Part::B1 => Part::B1,
        Part::B2 => Part::B2,
        Part::B3 => Part::B3,
        _ => return None,
    };
    Some(Word::Field { register, part })
}

#[tactic(auto, unfolding(crate::specs::Words::behind_ampersand))]
fn behind_ampersand(text: &[u8]) -> &[u8]
    ensures { result.now ≡ behind_ampersand text.now }
{
    match text.split_first() {
        Some((first, behind)) if *first == b'&' => behind_blanks(behind),
        _ => text,
    }
}

fn read_value(text: &[u8]) -> Option<Word>
    ensures { result ≡ else_ (field_in text.now) (number_word text.now) }
{
    match read_field(text) {
        Some(field) => Some(field),
        None => number_word(text),
    }
}

fn number_word(text: &[u8]) -> Option<Word>
    ensures { result ≡ number_word text.now }
{
    Some(Word::Number(read_number(text)?))
}

fn constant_word(text: &[u8]) -> Option<Word>
    ensures { result ≡ option_map (λ n. Word.Constant n) (numbered 67 text.now) }
{
    Some(Word::Constant(read_numbered(b'C', text)?))
}

/// The operand that a text without blanks around it is, where it is of this kind.
#[tactic(auto, unfolding(crate::specs::Words::word_in))]
pub fn read_word(kind: Kind, text: &[u8]) -> Option<Word>
    ensures { result ≡ word_in kind text.now }
{
    match kind {
        Kind::Field => read_field(text),
        Kind::Value => read_value(text),
        Kind::Number => number_word(text),
        Kind::Register => whole_register(text),
        Kind::First => first_of(read_field(behind_ampersand(text))?),
        Kind::Constant => constant_word(text),
        Kind::Label => {
            if is_name(text) {
                Some(Word::Label)
            } else {
                None
            }
        }
        Kind::Jump => {
            if is_name(text) {
                Some(Word::Label)
            } else {
                read_field(text)
            }
        }
    }
}
