//! What operations give on numbers that are known before the run.

ghost use Rattle.std.specs.Prelude.{◌≡◌, ◌<◌, ◌/◌, ◌%◌, ◌^◌};
ghost use Rattle.prunum.specs.Number.{wrap_signed, sext};
ghost use Rattle.prunum.specs.declared.width.Width.TheVariants.{B4};
ghost use Rattle.midcode.specs.Value.{truth, shifted, unary_value, binary_value};
ghost use Rattle.midopt.specs.Search.{below};

use midcode::{BinaryOp, UnaryOp};
use prunum::{Width, quot_s, quot_u, rem_s, rem_u, sext, shl, shr_s, shr_u, wrap};

fn truth(holds: bool) -> u32
    ensures { result ≡ truth holds }
{
    if holds { 1 } else { 0 }
}

/// A number whose order without sign is that of `a` as two's complement.
fn shifted(a: u32) -> u32
    ensures { result ≡ shifted a }
{
    wrap(Width::B4, u64::from(a) + (1 << 31))
}

fn bit(a: u32, number: u32) -> u32
    requires { number < 32 }
    ensures { result ≡ a / 2 ^ number % 2 }
{
    (a >> number) % 2
}

/// The number of the highest bit of `a` that is the given one, or 32.
fn leftmost(a: u32, wanted: u32) -> u32
    ensures { result ≡ below 32 a wanted }
{
    let mut n = 32;
    while n > 0 {
        n -= 1;
        if bit(a, n) == wanted {
            return n;
        }
    }
    32
}

/// What the operation gives on a number.
#[tactic(auto, unfolding(midcode::specs::Value::unary_value))]
pub fn unary_number(op: UnaryOp, a: u32) -> u32
    ensures { result ≡ unary_value op a }
{
    match op {
        UnaryOp::Negate => wrap(Width::B4, (1 << 32) - u64::from(a)),
        UnaryOp::Complement => u32::MAX - a,
        UnaryOp::Not => truth(a == 0),
    }
}

/// What the operation gives on two numbers.
#[tactic(auto, unfolding(midcode::specs::Value::binary_value, crate::specs::Search::below))]
pub fn binary_number(op: BinaryOp, a: u32, b: u32) -> u32
    ensures { result ≡ binary_value op a b }
{
    match op {
        BinaryOp::Add => wrap(Width::B4, u64::from(a) + u64::from(b)),
        BinaryOp::Subtract => wrap(Width::B4, u64::from(a) + ((1 << 32) - u64::from(b))),
        BinaryOp::And => a & b,
        BinaryOp::Or => a | b,
        BinaryOp::Xor => a ^ b,
        BinaryOp::ShiftLeft => shl(a, b),
        BinaryOp::ShiftRight => shr_u(a, b),
        BinaryOp::ShiftRightSigned => shr_s(a, b),
        BinaryOp::Multiply => wrap(Width::B4, u64::from(a) * u64::from(b)),
        BinaryOp::Quotient => quot_u(a, b),
        BinaryOp::QuotientSigned => quot_s(a, b),
        BinaryOp::Remainder => rem_u(a, b),
        BinaryOp::RemainderSigned => rem_s(a, b),
        BinaryOp::Equal => truth(a == b),
        BinaryOp::NotEqual => truth(a != b),
        BinaryOp::Less => truth(a < b),
        BinaryOp::LessSigned => truth(shifted(a) < shifted(b)),
        BinaryOp::LessOrEqual => truth(a <= b),
        BinaryOp::LessOrEqualSigned => truth(shifted(a) <= shifted(b)),
        BinaryOp::LeftmostBit => leftmost(a, b % 2),
    }
}

/// A number of two's complement of this width in four bytes.
pub fn widened_number(from: Width, a: u32) -> u32
    ensures { result ≡ wrap_signed B4 (sext from a) }
{
    sext(from, a).rem_euclid(1 << 32) as u32
}
