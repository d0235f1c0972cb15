ghost use Rattle.std.specs.Prelude.{◌≢◌, ◌+◌, ◌≤◌, ◌<◌, ◌^◌, length, IfOk};
ghost use Rattle.cgrammar.specs.declared.kind.Kind.TheVariants as kind;
ghost use Rattle.cgrammar.specs.Kind.{token_kind};
ghost use Rattle.creader.specs.Source.{EndsOnce};

use super::*;
use csyn::{Keyword, Punctuator, Span, Text, Token, TokenKind};
use std::alloc::{AllocError, Global};
use std::test::Fail;

fn name(alloc: Global, word: &str) -> Result<TokenKind, AllocError>
    ensures { IfOk result (λ it. token_kind it ≢ kind.End) }
{
    let bytes = Vec::from_slice(alloc, word.as_bytes())?;
    Ok(TokenKind::Identifier(Text::new(bytes)))
}

fn spelled(alloc: Global, word: &str) -> Result<TokenKind, AllocError>
    ensures { IfOk result (λ it. token_kind it ≢ kind.End) }
{
    Ok(match word {
        "int" => TokenKind::Keyword(Keyword::Int),
        "sizeof" => TokenKind::Keyword(Keyword::Sizeof),
        "void" => TokenKind::Keyword(Keyword::Void),
        "(" => TokenKind::Punctuator(Punctuator::LeftParenthesis),
        ")" => TokenKind::Punctuator(Punctuator::RightParenthesis),
        "[" => TokenKind::Punctuator(Punctuator::LeftBracket),
        "]" => TokenKind::Punctuator(Punctuator::RightBracket),
        "{" => TokenKind::Punctuator(Punctuator::LeftBrace),
        "}" => TokenKind::Punctuator(Punctuator::RightBrace),
        "+" => TokenKind::Punctuator(Punctuator::Plus),
        "=" => TokenKind::Punctuator(Punctuator::Assign),
        ";" => TokenKind::Punctuator(Punctuator::Semicolon),
        _ => name(alloc, word)?,
    })
}

/// A token for each word, and the end token.
fn source(alloc: Global, words: &[&str]) -> Result<Vec<Token>, AllocError>
    requires { length words.now < 2 ^ 30 }
    ensures short { IfOk result (λ tokens. length tokens.items ≤ length words.now + 1) }
    ensures ends { IfOk result (λ tokens. EndsOnce tokens.items) }
{
    let span = Span { line: 1, column: 1 };
    let mut tokens = Vec::new(alloc);
    for word in words {
        let kind = spelled(alloc, word)?;
        tokens.push(Token {
            kind,
            span,
            is_first_of_line: false,
        })?;
    }
    tokens.push(Token {
        kind: TokenKind::End,
        span,
        is_first_of_line: false,
    })?;
    Ok(tokens)
}

/// The productions with their places, or the place of the fault.
fn outcome(alloc: Global, words: &[&str]) -> Result<String, AllocError> {
    let mut shown = String::new(alloc);
    if words.len() > 70000 {
        return Ok(shown);
    }
    let tokens = source(alloc, words)?;
    match read_entries(alloc, &tokens) {
        Ok(entries) => {
            for entry in &entries {
                let production = entry.production;
                let first = entry.first;
                let end = entry.end;
                write!(shown, "{production:?} {first} {end}\n")?;
            }
        }
        Err(ReadFault::Token(place)) => write!(shown, "fault at {place}")?,
        Err(ReadFault::Memory) => shown.push_str("no memory")?,
    }
    Ok(shown)
}

#[test]
fn whole_sources(rt: HostRuntime) -> Result<(), Fail> {
    let shown = outcome(rt.alloc(), &["void", "main", "(", "void", ")", "{", "}"])?;
    let want = "VoidBase 0 1\nNoQualifiers 1 1\nBased 0 1\nNoPointers 1 1\nIdentifier 1 2\n\
        VoidParameters 3 4\nEndItems 6 6\nFunctionBody 5 7\nFunctionRest 2 7\nExternal 0 7\n\
        EndUnits 7 7\nNextUnit 0 7\nSource 0 8\n";
    assert_eq!(rt; shown.as_str(), want);
    Ok(())
}

#[test]
fn first_faults(rt: HostRuntime) -> Result<(), Fail> {
    for (body, want) in [
        (["a", "+", "b", "=", "c", ";", "}"].as_slice(), "fault at 9"),
        (["}", "}"].as_slice(), "fault at 7"),
        (
            ["sizeof", "(", "int", ")", "[", "a", "]"].as_slice(),
            "fault at 10",
        ),
        ([";"].as_slice(), "fault at 7"),
    ] {
        let mut words = Vec::from_slice(rt.alloc(), &["void", "f", "(", "void", ")", "{"])?;
        for word in body {
            words.push(*word)?;
        }
        let shown = outcome(rt.alloc(), &words)?;
        assert_eq!(rt; shown.as_str(), want, "{body:?}");
    }
    Ok(())
}

#[test]
fn deep_parentheses(rt: HostRuntime) -> Result<(), Fail> {
    let mut words = Vec::from_slice(rt.alloc(), &["void", "f", "(", "void", ")", "{"])?;
    for _ in 0..2000 {
        words.push("(")?;
    }
    let shown = outcome(rt.alloc(), &words)?;
    assert_eq!(rt; shown.as_str(), "fault at 2006");
    Ok(())
}
