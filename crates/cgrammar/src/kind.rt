//! What a token is for the grammar.
ghost use Rattle.std.specs.Prelude.{◌≡◌};
ghost use Rattle.cgrammar.specs.Kind as specs;

use csyn::{Keyword, Punctuator, StandardInteger, Token, TokenKind};

/// What a token is for the grammar (C99 6.4): spellings and values aside, but for three names.
#[derive(Clone, Copy, Debug, PartialEq, Eq)]
pub enum Kind {
    /// An identifier of any other spelling.
    Name,
    /// `__R30` or `__R31`.
    RegisterName,
    /// `location`.
    LocationName,
    /// An integer constant.
    Number,
    /// A character constant.
    Character,
    /// A string literal.
    Literal,
    /// A type name of `<stdint.h>` but `uint32_t`.
    Standard,
    /// The type name `uint32_t`.
    Uint32,
    Keyword(Keyword),
    Punctuator(Punctuator),
    /// The end token of a source.
    End,
}

#[tactic(auto, unfolding(crate::specs::Kind::name_kind))]
fn name_kind(name: &[u8]) -> Kind
    ensures { result ≡ specs.name_kind name.now }
{
    if name == b"__R30".as_slice() || name == b"__R31".as_slice() {
        Kind::RegisterName
    } else if name == b"location".as_slice() {
        Kind::LocationName
    } else {
        Kind::Name
    }
}

impl Kind {
    /// The kind of a token.
    pub fn of(token: &Token) -> Kind
        ensures { result ≡ specs.kind_of token.now }
    {
        match &token.kind {
            TokenKind::Identifier(name) => name_kind(name.as_bytes()),
            TokenKind::Number(_) => Kind::Number,
            TokenKind::Character(_) => Kind::Character,
            TokenKind::Literal(_) => Kind::Literal,
            TokenKind::Standard(StandardInteger::Uint32) => Kind::Uint32,
            TokenKind::Standard(_) => Kind::Standard,
            TokenKind::Keyword(keyword) => Kind::Keyword(*keyword),
            TokenKind::Punctuator(punctuator) => Kind::Punctuator(*punctuator),
            TokenKind::End => Kind::End,
        }
    }
}
