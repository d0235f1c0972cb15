use super::*;
use csyn::{Text, Token, TokenKind};
use std::alloc::{AllocError, Global};
use std::process::Abort;
use std::test::Fail;

fn push(shown: &mut String, text: &Text) -> Result<(), AllocError> {
    for b in text.as_bytes() {
        shown.push(char::from(*b))?;
    }
    Ok(())
}

/// A token with its place, behind a caret where it is the first of its line.
fn show(shown: &mut String, token: &Token) -> Result<(), AllocError> {
    let caret = if token.is_first_of_line { "^" } else { "" };
    let span = token.span;
    write!(shown, "{caret}{span} ")?;
    match &token.kind {
        TokenKind::Identifier(name) => push(shown, name)?,
        TokenKind::Number(number) => {
            let value = number.value;
            let suffix = if number.is_unsigned { "u" } else { "" };
            write!(shown, "{value}{suffix}")?;
        }
        TokenKind::Character(character) => {
            let value = character.value;
            write!(shown, "'{value}'")?;
        }
        TokenKind::Literal(text) => {
            shown.push('"')?;
            push(shown, text)?;
            shown.push('"')?;
        }
        TokenKind::Keyword(keyword) => write!(shown, "{keyword:?}")?,
        TokenKind::Punctuator(punctuator) => write!(shown, "{punctuator:?}")?,
        TokenKind::Standard(integer) => write!(shown, "{integer:?}")?,
        TokenKind::End => shown.push_str("end")?,
    }
    Ok(())
}

fn outcome(alloc: Global, source: &[u8]) -> Result<String, AllocError> {
    let mut shown = String::new(alloc);
    if source.len() > 70000 {
        return Ok(shown);
    }
    match tokens(alloc, source) {
        Ok(tokens) => {
            for token in &tokens {
                if !shown.is_empty() {
                    shown.push(' ')?;
                }
                show(&mut shown, token)?;
            }
        }
        Err(fault) => write!(shown, "{fault}")?,
    }
    Ok(shown)
}

fn check<R: AllocGlobal + Abort>(rt: &R, table: &[(&str, &str)]) -> Result<(), Fail> {
    for (source, want) in table {
        let shown = outcome(rt.alloc(), source.as_bytes())?;
        assert_eq!(rt; shown.as_str(), *want, "{source:?}");
    }
    Ok(())
}

#[test]
fn longest(rt: HostRuntime) -> Result<(), Fail> {
    check(
        &rt,
        &[
            ("a+++b", "^1:1 a 1:2 Increment 1:4 Plus 1:5 b 1:6 end"),
            ("x>>=y", "^1:1 x 1:2 ShiftRightAssign 1:5 y 1:6 end"),
            (
                "<<=< <=<<",
                "^1:1 ShiftLeftAssign 1:4 Less 1:6 LessEqual 1:8 ShiftLeft 1:10 end",
            ),
            (
                "p->q--- -r",
                "^1:1 p 1:2 Arrow 1:4 q 1:5 Decrement 1:7 Minus 1:9 Minus 1:10 r 1:11 end",
            ),
            (
                "a&&&b|||c",
                "^1:1 a 1:2 LogicalAnd 1:4 Ampersand 1:5 b 1:6 LogicalOr 1:8 Bar 1:9 c 1:10 end",
            ),
            (
                "[](){}.",
                "^1:1 LeftBracket 1:2 RightBracket 1:3 LeftParenthesis 1:4 RightParenthesis 1:5 LeftBrace 1:6 RightBrace 1:7 Dot 1:8 end",
            ),
            (
                "~!/%^",
                "^1:1 Tilde 1:2 Exclamation 1:3 Slash 1:4 Percent 1:5 Caret 1:6 end",
            ),
            (
                "?:;,#",
                "^1:1 Question 1:2 Colon 1:3 Semicolon 1:4 Comma 1:5 Hash 1:6 end",
            ),
            (
                "== != >= >>",
                "^1:1 Equal 1:4 NotEqual 1:7 GreaterEqual 1:10 ShiftRight 1:12 end",
            ),
            (
                "*=/=%=+=-=",
                "^1:1 MultiplyAssign 1:3 DivideAssign 1:5 RemainderAssign 1:7 AddAssign 1:9 SubtractAssign 1:11 end",
            ),
            (
                "&=^=|==",
                "^1:1 AndAssign 1:3 XorAssign 1:5 OrAssign 1:7 Assign 1:8 end",
            ),
            ("*>", "^1:1 Star 1:2 Greater 1:3 end"),
            (
                "int inty _Bool __region __attribute__",
                "^1:1 Int 1:5 inty 1:10 Boolean 1:16 Region 1:25 Attribute 1:38 end",
            ),
            (
                "auto break case char const continue default do double else enum extern float for goto if",
                "^1:1 Auto 1:6 Break 1:12 Case 1:17 Char 1:22 Const 1:28 Continue 1:37 Default 1:45 Do \
                1:48 Double 1:55 Else 1:60 Enum 1:65 Extern 1:72 Float 1:78 For 1:82 Goto 1:87 If 1:89 end",
            ),
            (
                "inline long register restrict return short signed sizeof static struct switch typedef union \
                unsigned void volatile while _Complex _Imaginary",
                "^1:1 Inline 1:8 Long 1:13 Register 1:22 Restrict 1:31 Return 1:38 Short 1:44 Signed 1:51 Sizeof \
                1:58 Static 1:65 Struct 1:72 Switch 1:79 Typedef 1:87 Union 1:93 Unsigned 1:102 Void \
                1:107 Volatile 1:116 While 1:122 Complex 1:131 Imaginary 1:141 end",
            ),
            ("a1_B goto_", "^1:1 a1_B 1:6 goto_ 1:11 end"),
        ],
    )
}

#[test]
fn numbers(rt: HostRuntime) -> Result<(), Fail> {
    check(
        &rt,
        &[
            ("0 00 017 42", "^1:1 0 1:3 0 1:6 15 1:10 42 1:12 end"),
            ("0x1f 0XAb", "^1:1 31 1:6 171 1:10 end"),
            (
                "1u 1UL 1LU 1l 0x1L",
                "^1:1 1u 1:4 1u 1:8 1u 1:12 1 1:15 1 1:19 end",
            ),
            ("1.5", "^1:1 1 1:2 Dot 1:3 5 1:4 end"),
            ("4294967295", "^1:1 4294967295 1:11 end"),
            ("037777777777u", "^1:1 4294967295u 1:14 end"),
            ("4294967296", "1:1 L4"),
            ("040000000000", "1:1 L4"),
            ("0x100000000", "1:1 L4"),
            ("99999999999999999999", "1:1 L4"),
            ("0x1G", "1:1 L4"),
            ("08", "1:1 L4"),
            ("1uu", "1:1 L4"),
            ("1ll", "1:1 L4"),
            ("1ulu", "1:1 L4"),
            ("0x", "1:1 L4"),
            ("1_", "1:1 L4"),
            ("a 0b1", "1:3 L4"),
        ],
    )
}

#[test]
fn quotes(rt: HostRuntime) -> Result<(), Fail> {
    check(
        &rt,
        &[
            (
                "'\\n' '\\t' '\\r' '\\0'",
                "^1:1 '10' 1:6 '9' 1:11 '13' 1:16 '0' 1:20 end",
            ),
            (
                "'\\\\' '\\'' '\\\"' '\\x4f'",
                "^1:1 '92' 1:6 '39' 1:11 '34' 1:16 '79' 1:22 end",
            ),
            ("'a''\"'", "^1:1 '97' 1:4 '34' 1:7 end"),
            ("\"a\\n'\"b", "^1:1 \"a\\n'\" 1:7 b 1:8 end"),
            ("\"\"", "^1:1 \"\" 1:3 end"),
            ("'", "1:1 L3"),
            ("''", "1:1 L3"),
            ("'ab'", "1:1 L3"),
            ("'\\x4", "1:1 L3"),
            ("'\\x4'", "1:1 L3"),
            ("'\\xg0'", "1:1 L3"),
            ("'\\a'", "1:1 L3"),
            ("'\n'", "1:1 L3"),
            ("\"a", "1:1 L3"),
            ("\"a\n\"", "1:1 L3"),
            ("\"a\x7f\"", "1:1 L3"),
            ("\"é\"", "1:1 L3"),
        ],
    )
}

#[test]
fn white_space(rt: HostRuntime) -> Result<(), Fail> {
    check(
        &rt,
        &[
            ("", "^1:1 end"),
            ("\ta\r\n\x0cb", "^1:2 a ^2:2 b 2:3 end"),
            ("a/*b*/c//d", "^1:1 a 1:7 c 1:11 end"),
            ("/**/a/***/b/*/*/c", "^1:5 a 1:11 b 1:17 c 1:18 end"),
            ("a /*\n*/ b\nc", "^1:1 a 2:4 b ^3:1 c 3:2 end"),
            ("/*\n*/a", "^2:3 a 2:4 end"),
            ("a//b\\\nc", "^1:1 a ^2:1 c 2:2 end"),
            ("a\\\nb", "^1:1 a 2:1 b 2:2 end"),
            ("a \\\n b\n", "^1:1 a 2:2 b ^3:1 end"),
            (
                "#define A \\\n 1\nB",
                "^1:1 Hash 1:2 define 1:9 A 2:2 1 ^3:1 B 3:2 end",
            ),
            ("@", "1:1 L1"),
            ("a\\ \n", "1:2 L1"),
            ("\\\r\n", "1:1 L1"),
            ("\\", "1:1 L1"),
            ("`", "1:1 L1"),
            ("a$", "1:2 L1"),
            ("/*", "1:1 L2"),
            ("/*/", "1:1 L2"),
            ("a\n /* b *", "2:2 L2"),
            ("a @ '", "1:3 L1"),
            ("' @", "1:1 L3"),
        ],
    )
}
