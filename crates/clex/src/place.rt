ghost use Rattle.std.specs.Prelude.{◌≡◌, ◌+◌, ◌<◌, ◌≤◌, ◌^◌, length};

use crate::span::after_bytes;
use csyn::{Span, Token, TokenKind};

/// Where the next piece begins.
#[derive(Clone, Copy, Debug, PartialEq, Eq)]
pub struct Place {
    pub span: Span,
    /// Whether no token stands before it on its line, as directives count lines.
    pub is_first: bool,
}

impl Place {
    ghost use Rattle.clex.specs.Text as text;

    /// The first byte of a text.
    pub fn start() -> Self
        ensures { result ≡ text.start }
    {
        Place {
            span: Span { line: 1, column: 1 },
            is_first: true,
        }
    }

    /// Behind a token of these bytes, or behind white space where it is none.
    pub fn after(self, kind: &Option<TokenKind>, bytes: &[u8]) -> Self
        requires line { self.span.line + length bytes.now < 2 ^ 32 }
        requires column { self.span.column + length bytes.now < 2 ^ 32 }
        ensures place { result ≡ text.after_piece self (record { kind = kind.now; bytes = bytes.now }) }
        ensures line { result.span.line ≤ self.span.line + length bytes.now }
        ensures column { result.span.column ≤ self.span.column + length bytes.now }
    {
        let is_first = match kind {
            Some(_) => false,
            None => self.is_first || bytes == b"\n".as_slice(),
        };
        Place {
            span: after_bytes(self.span, bytes),
            is_first,
        }
    }

    pub fn token(self, kind: TokenKind) -> Token
        ensures { result ≡ text.token_of self kind }
    {
        Token {
            kind,
            span: self.span,
            is_first_of_line: self.is_first,
        }
    }
}
