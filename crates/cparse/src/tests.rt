ghost use Rattle.std.specs.Prelude.{◌≢◌, ◌+◌, ◌≤◌, length, IfOk};
ghost use Rattle.cgrammar.specs.declared.kind.Kind.TheVariants as kind;
ghost use Rattle.cgrammar.specs.Kind.{token_kind};
ghost use Rattle.creader.specs.Source.{EndsOnce};

use crate::parse;
use csyn::{Keyword, Punctuator, Span, Text, Token, TokenKind};
use std::alloc::{AllocError, Global};
use std::test::Fail;

fn name(alloc: Global, word: &str) -> Result<TokenKind, AllocError>
    ensures { IfOk result (λ it. token_kind it ≢ kind.End) }
{
    let bytes = Vec::from_slice(alloc, word.as_bytes())?;
    Ok(TokenKind::Identifier(Text::new(bytes)))
}

fn spelled(alloc: Global, word: &str) -> Result<TokenKind, AllocError>
    ensures { IfOk result (λ it. token_kind it ≢ kind.End) }
{
    Ok(match word {
        "goto" => TokenKind::Keyword(Keyword::Goto),
        "void" => TokenKind::Keyword(Keyword::Void),
        "(" => TokenKind::Punctuator(Punctuator::LeftParenthesis),
        ")" => TokenKind::Punctuator(Punctuator::RightParenthesis),
        "{" => TokenKind::Punctuator(Punctuator::LeftBrace),
        "}" => TokenKind::Punctuator(Punctuator::RightBrace),
        "+" => TokenKind::Punctuator(Punctuator::Plus),
        "-" => TokenKind::Punctuator(Punctuator::Minus),
        ";" => TokenKind::Punctuator(Punctuator::Semicolon),
        _ => name(alloc, word)?,
    })
}

/// A token for each word, at the column that is its number, and the end token.
fn source(alloc: Global, words: &[&str]) -> Result<Vec<Token>, AllocError>
    requires { length words.now ≤ 100000 }
    ensures short { IfOk result (λ tokens. length tokens.items ≤ length words.now + 1) }
    ensures ends { IfOk result (λ tokens. EndsOnce tokens.items) }
{
    let mut tokens = Vec::new(alloc);
    let mut span = Span { line: 1, column: 1 };
    for word in words {
        let kind = spelled(alloc, word)?;
        tokens.push(Token {
            kind,
            span,
            is_first_of_line: false,
        })?;
        span.column += 1;
    }
    tokens.push(Token {
        kind: TokenKind::End,
        span,
        is_first_of_line: false,
    })?;
    Ok(tokens)
}

/// Words that stand so many times.
type Repeated = (&'static [&'static str], usize);

/// The body of a function, behind the six tokens of its head, and what is answered.
type Row = (&'static [Repeated], &'static str);

fn verdict(alloc: Global, body: &[Repeated]) -> Result<String, AllocError> {
    let mut words = Vec::from_slice(alloc, &["void", "f", "(", "void", ")", "{"])?;
    for (pieces, times) in body {
        for _ in 0..*times {
            for piece in *pieces {
                words.push(*piece)?;
            }
        }
    }
    if words.len() > 100_000 {
        return format!(in alloc; "long");
    }
    let tokens = source(alloc, &words)?;
    match parse(alloc, &tokens) {
        Ok(tree) => {
            let tokens = tree.tokens();
            format!(in alloc; "{tokens} tokens")
        }
        Err(fault) => format!(in alloc; "{fault}"),
    }
}

const ROWS: [Row; 14] = [
    (&[(&["("], 99_000)], "1:99007 G1"),
    (&[(&["("], 99_000), (&["goto"], 1)], "1:99007 G2"),
    (
        &[
            (&["("], 49_990),
            (&["a"], 1),
            (&[")"], 49_990),
            (&[";", "}"], 1),
        ],
        "99989 tokens",
    ),
    (
        &[
            (&["("], 49_990),
            (&["a"], 1),
            (&[")"], 49_989),
            (&[";", "}"], 1),
        ],
        "1:99987 G1",
    ),
    (&[(&["{"], 99_000)], "1:99007 G1"),
    // the innermost of 256 blocks stands at level 257
    (&[(&["{"], 49_990), (&["}"], 49_991)], "1:262 G3"),
    (&[(&["{"], 49_990), (&["}"], 49_992)], "1:99988 G1"),
    (&[(&["-"], 99_000)], "1:99007 G1"),
    // behind 254 operators the next one stands at level 257
    (&[(&["-"], 99_000), (&["a", ";", "}"], 1)], "1:261 G3"),
    // the longest chain of sums that 100,000 tokens hold, and the same without its end
    (
        &[(&["a"], 1), (&["+", "a"], 49_995), (&[";", "}"], 1)],
        "1:7 G3",
    ),
    (&[(&["a"], 1), (&["+", "a"], 49_995)], "1:99998 G1"),
    (&[(&["a", ";"], 30_000), (&["}"], 1)], "60007 tokens"),
    (&[(&[";"], 99_000), (&["}"], 1)], "99007 tokens"),
    (&[(&["a", ";"], 30_000), (&["}", "}"], 1)], "1:60008 G1"),
];

#[test]
fn many_tokens(rt: HostRuntime) -> Result<(), Fail> {
    for (body, want) in &ROWS {
        let got = verdict(rt.alloc(), body)?;
        assert_eq!(rt; got.as_str(), *want);
    }
    Ok(())
}
