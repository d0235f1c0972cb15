//! The next piece of a text: a token, or white space, and what is left.
ghost use Rattle.std.specs.Prelude.{◌≡◌, ◌≤◌, ◌∷◌, length, Some, Ok};
ghost use Rattle.std.specs.List.{prefix_len};
ghost use Rattle.clex.specs.Bytes as classes;
ghost use Rattle.clex.specs.Reading as reading;
ghost use Rattle.clex.specs.Given.{Gives};

use crate::bytes::{is_blank, is_word_byte};
use crate::comment::{after_comment, line_length};
use crate::fault::PieceFault;
use crate::number::number;
use crate::quoted::{character, literal_length};
use crate::table::{keyword_of, operator};
use csyn::{Cause, Character, Number, Text, TokenKind};
use std::alloc::Global;

/// A token, or none at white space, and what is left.
type Front<'a> = Result<(Option<TokenKind>, &'a [u8]), PieceFault>;

fn text_of(alloc: Global, bytes: &[u8]) -> Result<Text, PieceFault>
    ensures { Gives (λ text. text) result (Ok bytes.now) }
{
    Ok(Text::new(Vec::from_slice(alloc, bytes)?))
}

fn word_length(text: &[u8]) -> usize
    ensures value { result ≡ prefix_len classes.is_word_byte text.now }
    ensures within { result ≤ length text.now }
{
    text.iter().take_while(|b| is_word_byte(**b)).count()
}

fn number_token<'a>(alloc: Global, word: &[u8], left: &'a [u8]) -> Front<'a>
    ensures { Gives (λ x. (x.0, x.1.now)) result (reading.number_token word.now left.now (reading.number_of word.now)) }
{
    let Some((value, is_unsigned)) = number(word) else {
        return Err(PieceFault::Broken(Cause::L4));
    };
    let spelling = text_of(alloc, word)?;
    let number = Number {
        spelling,
        value,
        is_unsigned,
    };
    Ok((Some(TokenKind::Number(number)), left))
}

fn name_token<'a>(alloc: Global, word: &[u8], left: &'a [u8]) -> Front<'a>
    ensures { Gives (λ x. (x.0, x.1.now)) result (reading.name_token word.now left.now (reading.keyword_of word.now)) }
{
    let kind = match keyword_of(word) {
        Some(keyword) => TokenKind::Keyword(keyword),
        None => TokenKind::Identifier(text_of(alloc, word)?),
    };
    Ok((Some(kind), left))
}

/// A run of letters, digits and `_`.
#[tactic(auto, unfolding(crate::specs::Reading::word_at))]
fn word(alloc: Global, first: u8, text: &[u8]) -> Front<'_>
    ensures { Gives (λ x. (x.0, x.1.now)) result (reading.word_at first text.now) }
{
    let (word, left) = text.split_at(word_length(text));
    if first.is_ascii_digit() {
        number_token(alloc, word, left)
    } else {
        name_token(alloc, word, left)
    }
}

/// A character constant; its opening quote is the text's first byte.
fn character_token<'a>(alloc: Global, text: &'a [u8], behind: &'a [u8]) -> Front<'a>
    requires { length behind.now ≤ length text.now }
    ensures { Gives (λ x. (x.0, x.1.now)) result (reading.character_token text.now (reading.character_at behind.now)) }
{
    let Some((value, left)) = character(behind) else {
        return Err(PieceFault::Broken(Cause::L3));
    };
    let spelling = text_of(alloc, &text[..text.len() - left.len()])?;
    Ok((
        Some(TokenKind::Character(Character { spelling, value })),
        left,
    ))
}

/// A string literal, behind its opening quote.
#[tactic(auto, unfolding(crate::specs::Reading::literal_at))]
fn literal(alloc: Global, behind: &[u8]) -> Front<'_>
    ensures { Gives (λ x. (x.0, x.1.now)) result (reading.literal_at behind.now) }
{
    let (bytes, rest) = behind.split_at(literal_length(behind));
    match rest {
        [b'"', left @ ..] => {
            let text = text_of(alloc, bytes)?;
            Ok((Some(TokenKind::Literal(text)), left))
        }
        _ => Err(PieceFault::Broken(Cause::L3)),
    }
}

#[tactic(auto, unfolding(crate::specs::Reading::operator_at))]
fn operator_token(text: &[u8]) -> Front<'_>
    ensures { Gives (λ x. (x.0, x.1.now)) result (reading.operator_at text.now) }
{
    match operator(text) {
        Some((length, punctuator)) => {
            let (_, left) = text.split_at(length);
            Ok((Some(TokenKind::Punctuator(punctuator)), left))
        }
        None => Err(PieceFault::Broken(Cause::L1)),
    }
}

fn block_comment(behind: &[u8]) -> Front<'_>
    ensures { Gives (λ x. (x.0, x.1.now)) result (reading.comment_end (reading.after_comment behind.now)) }
{
    match after_comment(behind) {
        Some(left) => Ok((None, left)),
        None => Err(PieceFault::Broken(Cause::L2)),
    }
}

/// A comment or a punctuator that begins with `/`; what is behind that.
#[tactic(auto, unfolding(crate::specs::Reading::slash_at))]
fn slash<'a>(text: &'a [u8], behind: &'a [u8]) -> Front<'a>
    requires { text.now ≡ 47 ∷ behind.now }
    ensures { Gives (λ x. (x.0, x.1.now)) result (reading.slash_at behind.now) }
{
    match behind {
        [b'/', line @ ..] => Ok((None, &line[line_length(line)..])),
        [b'*', behind @ ..] => block_comment(behind),
        _ => operator_token(text),
    }
}

/// A backslash is white space before a line end.
fn backslash(behind: &[u8]) -> Front<'_>
    ensures { Gives (λ x. (x.0, x.1.now)) result (reading.backslash_at behind.now) }
{
    match behind {
        [b'\n', left @ ..] => Ok((None, left)),
        _ => Err(PieceFault::Broken(Cause::L1)),
    }
}

/// The piece at the front of a text that isn't empty.
#[tactic(auto, unfolding(crate::specs::Reading::piece_at))]
pub fn piece(alloc: Global, text: &[u8]) -> Front<'_>
    ensures { Gives (λ x. (x.0, x.1.now)) result (reading.piece_at text.now) }
{
    let [first, behind @ ..] = text else {
        return Err(PieceFault::Broken(Cause::L1));
    };
    let first = *first;
    if is_word_byte(first) {
        return word(alloc, first, text);
    }
    if is_blank(first) {
        return Ok((None, behind));
    }
    match first {
        b'\'' => character_token(alloc, text, behind),
        b'"' => literal(alloc, behind),
        b'/' => slash(text, behind),
        b'\\' => backslash(behind),
        _ => operator_token(text),
    }
}
