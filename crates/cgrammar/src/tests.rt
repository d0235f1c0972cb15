use super::*;
use csyn::{Keyword, Punctuator, Span, Text, Token, TokenKind};
use std::test::Fail;

#[test]
fn kinds(rt: HostRuntime) -> Result<(), Fail> {
    for (spelling, want) in [
        ("__R30", Kind::RegisterName),
        ("__R31", Kind::RegisterName),
        ("__R32", Kind::Name),
        ("location", Kind::LocationName),
        ("locations", Kind::Name),
    ] {
        let name = Text::new(Vec::from_slice(rt.alloc(), spelling.as_bytes())?);
        let token = Token {
            kind: TokenKind::Identifier(name),
            span: Span { line: 1, column: 1 },
            is_first_of_line: false,
        };
        assert_eq!(rt; Kind::of(&token), want, "{spelling}");
    }
    let token = Token {
        kind: TokenKind::Keyword(Keyword::Void),
        span: Span { line: 1, column: 1 },
        is_first_of_line: true,
    };
    assert_eq!(rt; Kind::of(&token), Kind::Keyword(Keyword::Void));
    Ok(())
}

#[test]
fn terminals(rt: HostRuntime) {
    for (terminal, kind, want) in [
        (Terminal::Name, Kind::LocationName, true),
        (Terminal::RegisterName, Kind::Name, false),
        (Terminal::LocationName, Kind::Name, false),
        (Terminal::Number, Kind::Character, false),
        (Terminal::Literal, Kind::Literal, true),
        (Terminal::Standard, Kind::Uint32, true),
        (Terminal::Uint32, Kind::Standard, false),
        (Terminal::Sign, Kind::Keyword(Keyword::Unsigned), true),
        (Terminal::Length, Kind::Keyword(Keyword::Unsigned), false),
        (Terminal::Specifier, Kind::Keyword(Keyword::Const), true),
        (Terminal::Qualifier, Kind::Keyword(Keyword::Static), false),
        (Terminal::Prefix, Kind::Punctuator(Punctuator::Tilde), true),
        (
            Terminal::Prefix,
            Kind::Punctuator(Punctuator::Increment),
            false,
        ),
        (
            Terminal::Keyword(Keyword::If),
            Kind::Keyword(Keyword::Else),
            false,
        ),
        (
            Terminal::Punctuator(Punctuator::Comma),
            Kind::Punctuator(Punctuator::Comma),
            true,
        ),
        (Terminal::End, Kind::Number, false),
        (Terminal::Any, Kind::End, true),
    ] {
        assert_eq!(rt; terminal.accepts(kind), want, "{terminal:?} at {kind:?}");
    }
}

#[test]
fn productions(rt: HostRuntime) {
    for (production, parts, children, is_node) in [
        (Production::EndItems, 0, 0, false),
        (Production::Parenthesised, 3, 1, false),
        (Production::If, 6, 3, true),
        (Production::For, 8, 4, true),
        (Production::Switch, 7, 2, true),
        (Production::CaseLabel, 3, 1, true),
    ] {
        assert_eq!(rt; production.parts(), parts, "{production:?}");
        assert_eq!(rt; production.children(), children, "{production:?}");
        assert_eq!(rt; production.is_node(), is_node, "{production:?}");
    }
}
