//! Values that depend on a token.
#![tactic(auto, unfolding(crate::specs::Make::table))]

ghost use Rattle.std.specs.Prelude.{◌≡◌, Err, IfOk};
ghost use Rattle.std.specs.Option.{option_copied, option_map};
ghost use Rattle.csyn.specs.declared.mark.Mark.{Mark};
ghost use Rattle.cgrammar.specs.declared.production.Production.TheVariants as production;
ghost use Rattle.cgrammar.specs.declared.production.Words.{Words};
ghost use Rattle.cgrammar.specs.declared.production.Word.{Word};
ghost use Rattle.cparts.specs.declared.value.Value.TheVariants as value;
ghost use Rattle.caction.specs.Make.{IsMade, Makes};
ghost use Rattle.caction.specs.Make as specs;
ghost use Rattle.std.specs.Prelude.{IfErr};
ghost use Rattle.cparts.specs.declared.fault.MakeFault.TheVariants as fault;

use cparts::{MakeFault, Value, none, one};
use csyn::{
    Base, Character, Expr, ExprKind, IntegerWords, Keyword, Length, Mark, Number, Pointer,
    PrefixOperator, Punctuator, Sign, Specifiers, Text, Token, TokenKind,
};
use std::alloc::{AllocError, Global};
use std::collections::LinkedList;

fn first(tokens: &[Token]) -> Option<&TokenKind>
    ensures { option_copied result ≡ specs.first tokens.now }
{
    match tokens.first() {
        Some(token) => Some(&token.kind),
        None => None,
    }
}

fn last(tokens: &[Token]) -> Option<&TokenKind>
    ensures { option_copied result ≡ specs.last tokens.now }
{
    match tokens.last() {
        Some(token) => Some(&token.kind),
        None => None,
    }
}

fn copied(alloc: Global, text: &Text) -> Result<Text, AllocError>
    ensures { IfOk result (λ copy. copy ≡ text.now) }
{
    Ok(Text::new(text.as_bytes().to_vec(alloc)?))
}

pub fn identifier(
    alloc: Global,
    tokens: &[Token],
    values: LinkedList<Value>,
) -> Result<Value, MakeFault>
    ensures { (mark : Mark) → Makes production.Identifier mark tokens.now values result }
{
    none(values)?;
    match first(tokens) {
        Some(TokenKind::Identifier(name)) => Ok(Value::Text(copied(alloc, name)?)),
        _ => Err(MakeFault::Parts),
    }
}

pub fn region_name(
    alloc: Global,
    tokens: &[Token],
    values: LinkedList<Value>,
) -> Result<Value, MakeFault>
    ensures { (mark : Mark) → Makes production.RegionName mark tokens.now values result }
{
    none(values)?;
    match first(tokens) {
        Some(TokenKind::Literal(bytes)) => Ok(Value::Text(copied(alloc, bytes)?)),
        _ => Err(MakeFault::Parts),
    }
}

pub fn number(
    alloc: Global,
    mark: Mark,
    tokens: &[Token],
    values: LinkedList<Value>,
) -> Result<Value, MakeFault>
    ensures { Makes production.Number mark tokens.now values result }
{
    none(values)?;
    match first(tokens) {
        Some(TokenKind::Number(number)) => {
            let spelling = copied(alloc, &number.spelling)?;
            let kind = ExprKind::Number(Number {
                spelling,
                value: number.value,
                is_unsigned: number.is_unsigned,
            });
            Ok(Value::Expr(Expr { mark, kind }))
        }
        _ => Err(MakeFault::Parts),
    }
}

pub fn character(
    alloc: Global,
    mark: Mark,
    tokens: &[Token],
    values: LinkedList<Value>,
) -> Result<Value, MakeFault>
    ensures { Makes production.Character mark tokens.now values result }
{
    none(values)?;
    match first(tokens) {
        Some(TokenKind::Character(character)) => {
            let spelling = copied(alloc, &character.spelling)?;
            let kind = ExprKind::Character(Character {
                spelling,
                value: character.value,
            });
            Ok(Value::Expr(Expr { mark, kind }))
        }
        _ => Err(MakeFault::Parts),
    }
}

/// The first token as a prefix operator.
pub fn prefix_operator(tokens: &[Token]) -> Option<PrefixOperator>
    ensures { result ≡ specs.prefix_of (specs.first tokens.now) }
{
    match first(tokens) {
        Some(TokenKind::Punctuator(Punctuator::Plus)) => Some(PrefixOperator::Plus),
        Some(TokenKind::Punctuator(Punctuator::Minus)) => Some(PrefixOperator::Minus),
        Some(TokenKind::Punctuator(Punctuator::Exclamation)) => Some(PrefixOperator::Not),
        Some(TokenKind::Punctuator(Punctuator::Tilde)) => Some(PrefixOperator::Complement),
        Some(TokenKind::Punctuator(Punctuator::Star)) => Some(PrefixOperator::Dereference),
        Some(TokenKind::Punctuator(Punctuator::Ampersand)) => Some(PrefixOperator::Address),
        _ => None,
    }
}

pub fn standard_base(tokens: &[Token], values: LinkedList<Value>) -> Result<Value, MakeFault>
    ensures made { (mark : Mark) → Makes production.StandardBase mark tokens.now values result }
    ensures sure { IfErr result (λ e. e ≡ fault.Parts) }
{
    none(values)?;
    match first(tokens) {
        Some(TokenKind::Standard(name)) => Ok(Value::Base(Base::Standard(*name))),
        _ => Err(MakeFault::Parts),
    }
}

/// A type behind one more specifier.
pub fn specified(
    alloc: Global,
    tokens: &[Token],
    values: LinkedList<Value>,
) -> Result<Value, MakeFault>
    ensures { (mark : Mark) → Makes production.Specified mark tokens.now values result }
{
    let mut specifiers: Specifiers = one(alloc, values)?;
    match first(tokens) {
        Some(TokenKind::Keyword(Keyword::Static)) => specifiers.is_static = true,
        Some(TokenKind::Keyword(Keyword::Inline)) => specifiers.is_inline = true,
        Some(TokenKind::Keyword(Keyword::Const)) => specifiers.is_const = true,
        Some(TokenKind::Keyword(Keyword::Volatile)) => specifiers.is_volatile = true,
        _ => return Err(MakeFault::Parts),
    }
    Ok(Value::Specifiers(specifiers))
}

pub fn qualified(
    alloc: Global,
    tokens: &[Token],
    values: LinkedList<Value>,
) -> Result<Value, MakeFault>
    ensures { (mark : Mark) → Makes production.Qualified mark tokens.now values result }
{
    let qualifiers: Pointer = one(alloc, values)?;
    match first(tokens) {
        Some(TokenKind::Keyword(Keyword::Const)) => Ok(Value::Qualifiers(Pointer {
            is_const: true,
            is_volatile: qualifiers.is_volatile,
        })),
        Some(TokenKind::Keyword(Keyword::Volatile)) => Ok(Value::Qualifiers(Pointer {
            is_const: qualifiers.is_const,
            is_volatile: true,
        })),
        _ => Err(MakeFault::Parts),
    }
}

/// One more word of an integer type. The word `int` adds nothing.
fn worded(words: IntegerWords, kind: Option<&TokenKind>) -> Result<Value, MakeFault>
    ensures made { IsMade (option_map (λ w. value.Words w) (specs.worded words (option_copied kind.entry))) result }
    ensures sure { IfErr result (λ e. e ≡ fault.Parts) }
{
    let IntegerWords { sign, length } = words;
    let (sign, length) = match kind {
        Some(TokenKind::Keyword(Keyword::Signed)) => (Some(Sign::Signed), length),
        Some(TokenKind::Keyword(Keyword::Unsigned)) => (Some(Sign::Unsigned), length),
        Some(TokenKind::Keyword(Keyword::Char)) => (sign, Some(Length::Char)),
        Some(TokenKind::Keyword(Keyword::Short)) => (sign, Some(Length::Short)),
        Some(TokenKind::Keyword(Keyword::Long)) => (sign, Some(Length::Long)),
        Some(TokenKind::Keyword(Keyword::Int)) => (sign, length),
        _ => return Err(MakeFault::Parts),
    };
    Ok(Value::Words(IntegerWords { sign, length }))
}

pub fn first_word(tokens: &[Token], values: LinkedList<Value>) -> Result<Value, MakeFault>
    ensures { (word : Word) (mark : Mark) → Makes (production.FirstWord word) mark tokens.now values result }
{
    let none_yet = IntegerWords {
        sign: None,
        length: None,
    };
    none(values)?;
    worded(none_yet, first(tokens))
}

pub fn next_word(
    alloc: Global,
    tokens: &[Token],
    values: LinkedList<Value>,
) -> Result<Value, MakeFault>
    ensures { (all : Words) (word : Word) (mark : Mark) → Makes (production.NextWord all word) mark tokens.now values result }
{
    let words = one(alloc, values)?;
    worded(words, last(tokens))
}

/// Drops an operand without an operator.
fn refuse(operand: Box<Expr>) -> Result<Value, MakeFault>
    ensures { result ≡ Err fault.Parts }
{
    drop(operand);
    Err(MakeFault::Parts)
}

pub fn prefix(
    alloc: Global,
    mark: Mark,
    tokens: &[Token],
    values: LinkedList<Value>,
) -> Result<Value, MakeFault>
    ensures { Makes production.Prefix mark tokens.now values result }
{
    let operand = one(alloc, values)?;
    match prefix_operator(tokens) {
        Some(operator) => Ok(Value::Expr(Expr {
            mark,
            kind: ExprKind::Prefix(operator, operand),
        })),
        None => refuse(operand),
    }
}
