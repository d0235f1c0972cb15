//! Lines of directives.
ghost use Rattle.std.specs.Prelude.{◌≡◌, ◌≤◌, length};
ghost use Rattle.std.specs.List.{prefix_len};
ghost use Rattle.cpre.specs.Line as line;

use csyn::{Punctuator, Token, TokenKind};

fn is_hash(kind: &TokenKind) -> bool
    ensures { result ≡ line.is_hash kind.now }
{
    matches!(kind, TokenKind::Punctuator(Punctuator::Hash))
}

pub fn is_end(kind: &TokenKind) -> bool
    ensures { result ≡ line.is_end kind.now }
{
    matches!(kind, TokenKind::End)
}

/// Whether a directive begins with the token.
pub fn begins(token: &Token) -> bool
    ensures { result ≡ line.begins token.now }
{
    token.is_first_of_line && is_hash(&token.kind)
}

fn goes_on(token: &Token) -> bool
    ensures { result ≡ line.goes_on token.now }
{
    !token.is_first_of_line && !is_end(&token.kind)
}

/// How many tokens stand on the line of the token before them.
pub fn line_length(tokens: &[Token]) -> usize
    ensures value { result ≡ prefix_len line.goes_on tokens.now }
    ensures within { result ≤ length tokens.now }
{
    tokens.iter().take_while(|token| goes_on(token)).count()
}
