//! Copies of tokens.
ghost use Rattle.std.specs.Prelude.{◌≡◌, IfOk, if◌then◌else◌};
ghost use Rattle.cpre.specs.Replacement.{at};
ghost use Rattle.cpre.specs.Standard as standard;

use crate::table::standard_named;
use csyn::{Character, Number, Span, Text, Token, TokenKind};
use std::alloc::{AllocError, Global};

fn copy_text(alloc: Global, text: &Text) -> Result<Text, AllocError>
    ensures { IfOk result (λ copy. copy ≡ text.now) }
{
    Ok(Text::new(Vec::from_slice(alloc, text.as_bytes())?))
}

fn copy_name(alloc: Global, name: &Text, is_included: bool) -> Result<TokenKind, AllocError>
    ensures { IfOk result (λ copy. copy ≡ standard.typed_name is_included name.now) }
{
    if is_included && let Some(integer) = standard_named(name.as_bytes()) {
        return Ok(TokenKind::Standard(integer));
    }
    Ok(TokenKind::Identifier(copy_text(alloc, name)?))
}

fn copy_kind(alloc: Global, kind: &TokenKind, is_included: bool) -> Result<TokenKind, AllocError>
    ensures { IfOk result (λ copy. copy ≡ standard.typed_kind is_included kind.now) }
{
    Ok(match kind {
        TokenKind::Identifier(name) => return copy_name(alloc, name, is_included),
        TokenKind::Number(number) => TokenKind::Number(Number {
            spelling: copy_text(alloc, &number.spelling)?,
            value: number.value,
            is_unsigned: number.is_unsigned,
        }),
        TokenKind::Character(character) => TokenKind::Character(Character {
            spelling: copy_text(alloc, &character.spelling)?,
            value: character.value,
        }),
        TokenKind::Literal(text) => TokenKind::Literal(copy_text(alloc, text)?),
        TokenKind::Keyword(keyword) => TokenKind::Keyword(*keyword),
        TokenKind::Punctuator(punctuator) => TokenKind::Punctuator(*punctuator),
        TokenKind::Standard(integer) => TokenKind::Standard(*integer),
        TokenKind::End => TokenKind::End,
    })
}

/// A copy that stands at the place, behind the include of `<stdint.h>` or elsewhere.
pub fn copy(
    alloc: Global,
    token: &Token,
    span: Span,
    is_included: bool,
) -> Result<Token, AllocError>
    ensures { IfOk result (λ copy. copy ≡ standard.typed is_included (at span token.now)) }
{
    Ok(Token {
        kind: copy_kind(alloc, &token.kind, is_included)?,
        span,
        is_first_of_line: token.is_first_of_line,
    })
}
