//! What the operations of C give on numbers (C99 6.3.1 and 6.5).

ghost use Rattle.std.specs.Prelude.{◌≡◌};
ghost use Rattle.cprogram.specs.Arithmetic.{widened, number_converted, unary, binary, meant, compared};

use crate::scalar::Integer;
use crate::value::UnaryOperator;
use csyn::{BinaryOperator, ComparisonOperator, Sign};
use prunum::{Width, quot_s, quot_u, rem_s, rem_u, sext, shl, shr_s, shr_u, wrap};

/// A number of a width, with a sign or none, widened to four bytes.
pub fn widened(sign: Sign, width: Width, number: u32) -> u32
    ensures { result ≡ widened sign width number }
{
    match sign {
        Sign::Unsigned => number,
        Sign::Signed => sext(width, number).rem_euclid(1 << 32) as u32,
    }
}

/// A number of the type `from` as a number of the width `to`.
pub fn convert(from: Integer, to: Width, number: u32) -> u32
    ensures { result ≡ number_converted from to number }
{
    wrap(to, u64::from(widened(from.sign, from.width, number)))
}

/// The operator on a number of four bytes.
pub fn unary(operator: UnaryOperator, a: u32) -> u32
    ensures { result ≡ unary operator a }
{
    match operator {
        UnaryOperator::Plus => a,
        UnaryOperator::Minus => wrap(Width::B4, (1 << 32) - u64::from(a)),
        UnaryOperator::Complement => u32::MAX - a,
    }
}

/// The operator on two numbers of four bytes of this sign.
pub fn binary(operator: BinaryOperator, sign: Sign, a: u32, b: u32) -> u32
    ensures { result ≡ binary operator sign a b }
{
    match (operator, sign) {
        (BinaryOperator::Multiply, _) => wrap(Width::B4, u64::from(a) * u64::from(b)),
        (BinaryOperator::Divide, Sign::Signed) => quot_s(a, b),
        (BinaryOperator::Divide, Sign::Unsigned) => quot_u(a, b),
        (BinaryOperator::Remainder, Sign::Signed) => rem_s(a, b),
        (BinaryOperator::Remainder, Sign::Unsigned) => rem_u(a, b),
        (BinaryOperator::Add, _) => wrap(Width::B4, u64::from(a) + u64::from(b)),
        (BinaryOperator::Subtract, _) => wrap(Width::B4, u64::from(a) + ((1 << 32) - u64::from(b))),
        (BinaryOperator::ShiftLeft, _) => shl(a, b),
        (BinaryOperator::ShiftRight, Sign::Signed) => shr_s(a, b),
        (BinaryOperator::ShiftRight, Sign::Unsigned) => shr_u(a, b),
        (BinaryOperator::BitAnd, _) => a & b,
        (BinaryOperator::BitXor, _) => a ^ b,
        (BinaryOperator::BitOr, _) => a | b,
    }
}

/// The whole number that a number of four bytes stands for.
pub fn meant(sign: Sign, a: u32) -> i64
    ensures { result ≡ meant sign a }
{
    match sign {
        Sign::Unsigned => i64::from(a),
        Sign::Signed => sext(Width::B4, a),
    }
}

/// Whether two numbers of four bytes of this sign compare so.
pub fn compare(operator: ComparisonOperator, sign: Sign, a: u32, b: u32) -> bool
    ensures { result ≡ compared operator sign a b }
{
    match operator {
        ComparisonOperator::Less => meant(sign, a) < meant(sign, b),
        ComparisonOperator::Greater => meant(sign, b) < meant(sign, a),
        ComparisonOperator::LessEqual => meant(sign, a) <= meant(sign, b),
        ComparisonOperator::GreaterEqual => meant(sign, b) <= meant(sign, a),
        ComparisonOperator::Equal => a == b,
        ComparisonOperator::NotEqual => a != b,
    }
}
