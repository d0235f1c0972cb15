use super::*;
use csyn::{Keyword, Number, Punctuator, Span, Text, Token, TokenKind};
use std::alloc::{AllocError, Global};
use std::process::Abort;
use std::test::Fail;

fn text(alloc: Global, word: &[u8]) -> Result<Text, AllocError> {
    Ok(Text::new(Vec::from_slice(alloc, word)?))
}

fn kind(alloc: Global, word: &[u8]) -> Result<TokenKind, AllocError> {
    Ok(match word {
        b"else" => TokenKind::Keyword(Keyword::Else),
        b"int" => TokenKind::Keyword(Keyword::Int),
        b"#" => TokenKind::Punctuator(Punctuator::Hash),
        b"(" => TokenKind::Punctuator(Punctuator::LeftParenthesis),
        b"<" => TokenKind::Punctuator(Punctuator::Less),
        b">" => TokenKind::Punctuator(Punctuator::Greater),
        b"." => TokenKind::Punctuator(Punctuator::Dot),
        b"1" | b"0x1" => TokenKind::Number(Number {
            spelling: text(alloc, word)?,
            value: 1,
            is_unsigned: false,
        }),
        _ => TokenKind::Identifier(text(alloc, word)?),
    })
}

/// The tokens of lines of words. A word goes as far as the next space; a `'` parts two words that touch.
fn tokens_of(alloc: Global, lines: &[&str]) -> Result<Vec<Token>, AllocError> {
    let mut tokens = Vec::new(alloc);
    let mut line = 1u32;
    for words in lines {
        let mut column = 1u32;
        let mut is_first_of_line = true;
        for part in words.split(' ') {
            for word in part.split('\'') {
                let bytes = word.as_bytes();
                if !bytes.is_empty() {
                    tokens.push(Token {
                        kind: kind(alloc, bytes)?,
                        span: Span { line, column },
                        is_first_of_line,
                    })?;
                    is_first_of_line = false;
                }
                column = column.wrapping_add((bytes.len() & 0xffff) as u32);
            }
            column = column.wrapping_add(1);
        }
        line = line.wrapping_add(1);
    }
    tokens.push(Token {
        kind: TokenKind::End,
        span: Span { line, column: 1 },
        is_first_of_line: true,
    })?;
    Ok(tokens)
}

fn push(shown: &mut String, text: &Text) -> Result<(), AllocError> {
    for b in text.as_bytes() {
        shown.push(char::from(*b))?;
    }
    Ok(())
}

fn show(shown: &mut String, token: &Token) -> Result<(), AllocError> {
    let span = token.span;
    write!(shown, "{span} ")?;
    match &token.kind {
        TokenKind::Identifier(name) => push(shown, name)?,
        TokenKind::Number(number) => push(shown, &number.spelling)?,
        TokenKind::Character(character) => push(shown, &character.spelling)?,
        TokenKind::Literal(text) => push(shown, text)?,
        TokenKind::Keyword(keyword) => write!(shown, "{keyword:?}")?,
        TokenKind::Punctuator(punctuator) => write!(shown, "{punctuator:?}")?,
        TokenKind::Standard(integer) => write!(shown, "{integer:?}")?,
        TokenKind::End => shown.push_str("end")?,
    }
    Ok(())
}

fn outcome(alloc: Global, lines: &[&str]) -> Result<String, AllocError> {
    let mut shown = String::new(alloc);
    match expand(alloc, &tokens_of(alloc, lines)?) {
        Ok(tokens) => {
            for token in &tokens {
                if !shown.is_empty() {
                    shown.push_str(", ")?;
                }
                show(&mut shown, token)?;
            }
        }
        Err(fault) => write!(shown, "{fault}")?,
    }
    Ok(shown)
}

fn check<R: AllocGlobal + Abort>(rt: &R, table: &[(&[&str], &str)]) -> Result<(), Fail> {
    for (lines, want) in table {
        let shown = outcome(rt.alloc(), lines)?;
        assert_eq!(rt; shown.as_str(), *want, "{want}");
    }
    Ok(())
}

#[test]
fn macros(rt: HostRuntime) -> Result<(), Fail> {
    check(
        &rt,
        &[
            (&["# define V 1", "a V b"], "2:1 a, 2:3 1, 2:5 b, 3:1 end"),
            // One that is defined behind its use, with a space behind its `#`.
            (&["V", "#  define V 1", "V"], "1:1 V, 3:1 1, 4:1 end"),
            // Replaced tokens stand at the name, also those of inner names.
            (
                &["# define A x B", "# define B y z", "q A"],
                "3:1 q, 3:3 x, 3:3 y, 3:3 z, 4:1 end",
            ),
            // A macro that names itself, and two that name each other.
            (&["# define A A b", "A"], "2:1 A, 2:1 b, 3:1 end"),
            (
                &["# define A B 1", "# define B A", "A B"],
                "3:1 A, 3:1 1, 3:3 B, 3:3 1, 4:1 end",
            ),
            (&["# define E", "E a E", "E"], "2:3 a, 4:1 end"),
            (&["# define A b", "# define A b", "A"], "3:1 b, 4:1 end"),
            (&["# define A b", "# define A c"], "2:1 P3"),
            (&["# define A b", "# define A"], "2:1 P3"),
            // Spellings are compared, not values.
            (&["# define A 1", "# define A 0x1"], "2:1 P3"),
            (&["# define A'( b"], "1:1 P2"),
            (
                &["# define A ( b", "A"],
                "2:1 LeftParenthesis, 2:1 b, 3:1 end",
            ),
            (&["# define"], "1:1 P2"),
            (&["# define int a"], "1:1 P2"),
            (&["# define 1"], "1:1 P2"),
            (&["# define A int", "A"], "2:1 Int, 3:1 end"),
            (
                &["a # define B"],
                "1:1 a, 1:3 Hash, 1:5 define, 1:12 B, 2:1 end",
            ),
        ],
    )
}

#[test]
fn includes(rt: HostRuntime) -> Result<(), Fail> {
    check(
        &rt,
        &[
            (
                &[
                    "uint8_t",
                    "# include < stdint . h >",
                    "uint8_t int32_t uint64_t",
                ],
                "1:1 uint8_t, 3:1 Uint8, 3:9 Int32, 3:17 uint64_t, 4:1 end",
            ),
            // A name in a macro's tokens is what it is where the macro's name stands.
            (
                &["# define B int16_t", "B", "# include < stdint . h >", "B"],
                "2:1 int16_t, 4:1 Int16, 5:1 end",
            ),
            (
                &[
                    "# include < stdint . h >",
                    "# define uint8_t int",
                    "uint8_t",
                ],
                "3:1 Int, 4:1 end",
            ),
            (
                &[
                    "# define uint8_t int",
                    "# include < stdint . h >",
                    "uint8_t",
                ],
                "3:1 Int, 4:1 end",
            ),
            (
                &["# ifdef X", "# include < stdint . h >", "# endif", "int8_t"],
                "4:1 int8_t, 5:1 end",
            ),
            (&["# include"], "1:1 P2"),
            (&["# include stdint"], "1:1 P4"),
            (&["# include < stdio . h >"], "1:1 P4"),
            (&["# include < stdint . h > a"], "1:1 P4"),
        ],
    )
}

#[test]
fn groups(rt: HostRuntime) -> Result<(), Fail> {
    check(
        &rt,
        &[
            (
                &[
                    "# define X",
                    "# ifdef X",
                    "a",
                    "# else",
                    "b",
                    "# endif",
                    "c",
                ],
                "3:1 a, 7:1 c, 8:1 end",
            ),
            (
                &["# ifdef X", "a", "# else", "b", "# endif", "c"],
                "4:1 b, 6:1 c, 7:1 end",
            ),
            (&["# ifndef X", "a", "# endif"], "2:1 a, 4:1 end"),
            // The names that are defined at the opening count.
            (
                &["# ifndef X", "# define X", "a", "# else", "b", "# endif"],
                "3:1 a, 7:1 end",
            ),
            // In a skipped group lines are read for nesting alone.
            (
                &[
                    "# ifdef X",
                    "# odd",
                    "#",
                    "# define int",
                    "# ifdef 1",
                    "# else a",
                    "# endif b",
                    "a",
                    "# endif",
                ],
                "10:1 end",
            ),
            (
                &[
                    "# ifdef X",
                    "# define Y",
                    "# endif",
                    "# ifdef Y",
                    "a",
                    "# endif",
                ],
                "7:1 end",
            ),
            (
                &[
                    "# ifdef X",
                    "# ifndef Y",
                    "a",
                    "# else",
                    "b",
                    "# endif",
                    "# else",
                    "c",
                    "# endif",
                ],
                "8:1 c, 10:1 end",
            ),
            (&["#"], "1:1 P1"),
            (&["# odd"], "1:1 P1"),
            (&["# 1"], "1:1 P1"),
            (&["# ifdef int", "# endif"], "1:1 P2"),
            (&["# ifdef", "# endif"], "1:1 P2"),
            (&["# ifdef X Y", "# endif"], "1:1 P2"),
            (&["# ifdef X", "# else a", "# endif"], "2:1 P2"),
            (&["# ifdef X", "# endif a"], "2:1 P2"),
            (&["# else"], "1:1 P5"),
            (&["# endif"], "1:1 P5"),
            (&["# else a"], "1:1 P2"),
            (&["# ifdef X", "# else", "# else", "# endif"], "3:1 P5"),
            (
                &[
                    "# ifdef X",
                    "# ifdef Y",
                    "# else",
                    "# else a",
                    "# endif",
                    "# endif",
                ],
                "4:1 P5",
            ),
            (&["# ifdef X"], "1:1 P6"),
            // A malformed `#ifdef` is an opening, and its first fault is the least number.
            (&["# ifdef int"], "1:1 P2"),
            // The least place of the unclosed openings, before another fault behind it.
            (
                &["# ifdef X", "# endif", "# ifdef X", "# ifndef Y"],
                "3:1 P6",
            ),
            (&["# ifndef X", "# odd"], "1:1 P6"),
            (&["# odd", "# ifndef X"], "1:1 P1"),
            (&["# ifdef X", "# ifdef Y", "# endif"], "1:1 P6"),
        ],
    )
}

/// Tokens of one line after the other.
#[derive(Drop)]
struct Source {
    tokens: Vec<Token>,
    line: u32,
}

impl Source {
    fn new(alloc: Global) -> Self {
        Source {
            tokens: Vec::new(alloc),
            line: 1,
        }
    }

    fn push(&mut self, kind: TokenKind, is_first_of_line: bool) -> Result<(), AllocError> {
        self.tokens.push(Token {
            kind,
            span: Span {
                line: self.line,
                column: 1,
            },
            is_first_of_line,
        })?;
        Ok(())
    }

    fn end_line(&mut self) {
        self.line = self.line.wrapping_add(1);
    }

    fn directive(&mut self, alloc: Global, word: &[u8]) -> Result<(), AllocError> {
        self.push(TokenKind::Punctuator(Punctuator::Hash), true)?;
        self.push(TokenKind::Identifier(text(alloc, word)?), false)
    }

    /// The name with this number.
    fn name(&mut self, alloc: Global, number: u16, is_first: bool) -> Result<(), AllocError> {
        let bytes = [b'm', (number & 0xff) as u8, (number / 256) as u8];
        self.push(TokenKind::Identifier(text(alloc, &bytes)?), is_first)
    }

    /// Macros, of which each has `count` times the name of the one before; the first has `first` tokens.
    fn chain(
        &mut self,
        alloc: Global,
        length: u16,
        count: u8,
        first: u8,
    ) -> Result<(), AllocError> {
        for number in 0..length {
            self.directive(alloc, b"define")?;
            self.name(alloc, number, false)?;
            let tokens = if number == 0 { first } else { count };
            for _ in 0..tokens {
                if number == 0 {
                    self.push(TokenKind::Punctuator(Punctuator::Plus), false)?;
                } else {
                    self.name(alloc, number - 1, false)?;
                }
            }
            self.end_line();
        }
        self.name(alloc, length.saturating_sub(1), true)
    }

    fn expanded(mut self, alloc: Global) -> Result<String, AllocError> {
        self.end_line();
        self.push(TokenKind::End, true)?;
        match expand(alloc, &self.tokens) {
            Ok(tokens) => {
                let count = tokens.len();
                format!(in alloc; "{count}")
            }
            Err(fault) => format!(in alloc; "{fault}"),
        }
    }
}

fn chained(alloc: Global, length: u16, count: u8, first: u8) -> Result<String, AllocError> {
    let mut source = Source::new(alloc);
    source.chain(alloc, length, count, first)?;
    source.expanded(alloc)
}

#[test]
fn deep(rt: HostRuntime) -> Result<(), Fail> {
    let alloc = rt.alloc();
    let mut source = Source::new(alloc);
    for _ in 0..30000u16 {
        source.directive(alloc, b"ifdef")?;
        source.name(alloc, 0, false)?;
        source.end_line();
    }
    for _ in 0..30000u16 {
        source.directive(alloc, b"endif")?;
        source.end_line();
    }
    assert_eq!(rt; source.expanded(alloc)?.as_str(), "1");
    // Each names the next, and the last is two tokens.
    assert_eq!(rt; chained(alloc, 3000, 1, 2)?.as_str(), "3");
    // 65,536 tokens, and twice as many.
    assert_eq!(rt; chained(alloc, 17, 2, 1)?.as_str(), "65537");
    assert_eq!(rt; chained(alloc, 18, 2, 1)?.as_str(), "19:1 P7");
    // Forty, of which nothing comes.
    assert_eq!(rt; chained(alloc, 40, 2, 0)?.as_str(), "1");
    Ok(())
}

/// As many tokens as may be, and one more.
#[test]
fn many(rt: HostRuntime) -> Result<(), Fail> {
    let alloc = rt.alloc();
    for (more, want) in [(0u8, "100001"), (1, "2:1 P7")] {
        let mut source = Source::new(alloc);
        for _ in 0..100_000u32 {
            source.push(TokenKind::Punctuator(Punctuator::Plus), false)?;
        }
        source.end_line();
        for _ in 0..more {
            source.push(TokenKind::Punctuator(Punctuator::Plus), true)?;
        }
        assert_eq!(rt; source.expanded(alloc)?.as_str(), want);
    }
    Ok(())
}
