use crate::keyword::Keyword;
use crate::punctuator::Punctuator;
use crate::span::Span;
use crate::specifiers::StandardInteger;
use crate::text::Text;

/// A token of a source.
#[derive(Debug, Drop)]
pub struct Token {
    pub kind: TokenKind,
    /// The place of its first byte; of the end token the place behind the last byte.
    pub span: Span,
    /// Whether no token stands before it on its line. Lines are counted as directives count them: a backslash
    /// before a line end and a line end inside a comment end no line.
    pub is_first_of_line: bool,
}

/// What a token is.
#[derive(Debug, Drop)]
pub enum TokenKind {
    Identifier(Text),
    Number(Number),
    Character(Character),
    /// A string literal: the bytes between its quotes, in which nothing is escaped.
    Literal(Text),
    Keyword(Keyword),
    Punctuator(Punctuator),
    /// A type name of `<stdint.h>`, behind its include.
    Standard(StandardInteger),
    /// The end of the source. It has no spelling.
    End,
}

/// An integer constant (C99 6.4.4.1).
#[derive(Debug, Drop)]
pub struct Number {
    /// How it is written, by which two definitions of a macro are compared.
    pub spelling: Text,
    pub value: u32,
    /// Whether it has the suffix `u`.
    pub is_unsigned: bool,
}

/// A character constant of one byte (C99 6.4.4.4).
#[derive(Debug, Drop)]
pub struct Character {
    /// How it is written, quotes included.
    pub spelling: Text,
    pub value: u8,
}
