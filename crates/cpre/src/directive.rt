//! Directives: their words, and the form of their lines.
ghost use Rattle.std.specs.Prelude.{◌≡◌};
ghost use Rattle.std.specs.Option.{option_map};
ghost use Rattle.cpre.specs.Directive as directive;

use crate::table::directive_named;
use csyn::{Keyword, Punctuator, Span, Token, TokenKind};

/// The directives (C99 6.10).
#[derive(Clone, Copy)]
pub enum Directive {
    Define,
    Include,
    Ifdef,
    Ifndef,
    Else,
    Endif,
}

/// The bytes of an identifier.
pub fn name_of(kind: &TokenKind) -> Option<&[u8]>
    ensures { option_map (λ name. name.now) result ≡ directive.name_of kind.now }
{
    match kind {
        TokenKind::Identifier(name) => Some(name.as_bytes()),
        _ => None,
    }
}

/// Which directive a line is, by the token behind its `#`.
pub fn directive_of(line: &[Token]) -> Option<Directive>
    ensures { result ≡ directive.directive_of line.now }
{
    let [word, ..] = line else {
        return None;
    };
    match &word.kind {
        TokenKind::Identifier(name) => directive_named(name.as_bytes()),
        TokenKind::Keyword(Keyword::Else) => Some(Directive::Else),
        _ => None,
    }
}

/// The name that stands alone.
pub fn name_alone(line: &[Token]) -> Option<&[u8]>
    ensures { option_map (λ name. name.now) result ≡ directive.name_alone line.now }
{
    match line {
        [token] => name_of(&token.kind),
        _ => None,
    }
}

/// Whether the token is a `(` that touches a name which begins at the place.
fn opens_parameters(place: Span, name: &[u8], token: &Token) -> bool
    ensures { result ≡ directive.opens_parameters place name.now token.now }
{
    matches!(
        &token.kind,
        TokenKind::Punctuator(Punctuator::LeftParenthesis)
    ) && token.span.line == place.line
        && place.column <= token.span.column
        && (token.span.column - place.column) as usize == name.len()
}

/// The name that is defined, and what it is replaced by. A `(` directly behind the name makes a macro with parameters.
pub fn definition(line: &[Token]) -> Option<(&[u8], &[Token])>
    ensures { option_map (λ m. (m.0.now, m.1.now)) result ≡ directive.definition line.now }
{
    let [token, tokens @ ..] = line else {
        return None;
    };
    let name = name_of(&token.kind)?;
    match tokens {
        [first, ..] if opens_parameters(token.span, name, first) => None,
        _ => Some((name, tokens)),
    }
}

fn is_less(kind: &TokenKind) -> bool
    ensures { result ≡ directive.is_less kind.now }
{
    matches!(kind, TokenKind::Punctuator(Punctuator::Less))
}

fn is_dot(kind: &TokenKind) -> bool
    ensures { result ≡ directive.is_dot kind.now }
{
    matches!(kind, TokenKind::Punctuator(Punctuator::Dot))
}

fn is_greater(kind: &TokenKind) -> bool
    ensures { result ≡ directive.is_greater kind.now }
{
    matches!(kind, TokenKind::Punctuator(Punctuator::Greater))
}

fn is_name(kind: &TokenKind, name: &[u8]) -> bool
    ensures { result ≡ directive.is_name name.now kind.now }
{
    match kind {
        TokenKind::Identifier(text) => text.as_bytes() == name,
        _ => false,
    }
}

/// Whether the header `<stdint.h>` is named.
pub fn is_stdint(line: &[Token]) -> bool
    ensures { result ≡ directive.is_stdint line.now }
{
    match line {
        [less, stdint, dot, h, greater] => {
            is_less(&less.kind)
                && is_name(&stdint.kind, b"stdint")
                && is_dot(&dot.kind)
                && is_name(&h.kind, b"h")
                && is_greater(&greater.kind)
        }
        _ => false,
    }
}

fn is_spelled_alike(kind: &TokenKind, other: &TokenKind) -> bool
    ensures { result ≡ directive.is_spelled_alike kind.now other.now }
{
    match (kind, other) {
        (TokenKind::Identifier(a), TokenKind::Identifier(b)) => a.as_bytes() == b.as_bytes(),
        (TokenKind::Number(a), TokenKind::Number(b)) => {
            a.spelling.as_bytes() == b.spelling.as_bytes()
        }
        (TokenKind::Character(a), TokenKind::Character(b)) => {
            a.spelling.as_bytes() == b.spelling.as_bytes()
        }
        (TokenKind::Literal(a), TokenKind::Literal(b)) => a.as_bytes() == b.as_bytes(),
        (TokenKind::Keyword(a), TokenKind::Keyword(b)) => a == b,
        (TokenKind::Punctuator(a), TokenKind::Punctuator(b)) => a == b,
        (TokenKind::Standard(a), TokenKind::Standard(b)) => a == b,
        (TokenKind::End, TokenKind::End) => true,
        _ => false,
    }
}

/// Whether both are the same tokens, by their spelling.
pub fn are_same(tokens: &[Token], others: &[Token]) -> bool
    ensures { result ≡ directive.are_same tokens.now others.now }
{
    let mut left = tokens;
    let mut right = others;
    while let ([a, behind @ ..], [b, behind_other @ ..]) = (left, right) {
        if !is_spelled_alike(&a.kind, &b.kind) {
            return false;
        }
        left = behind;
        right = behind_other;
    }
    left.is_empty() && right.is_empty()
}
