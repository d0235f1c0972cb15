//! What instructions compute, and when branches are taken.

ghost use Rattle.std.specs.Prelude.{◌≡◌, ◌<◌};
ghost use Rattle.std.specs.Int.{bit_at};
ghost use Rattle.corestep.specs.Compute as spec;

use isa::{AluOp, Condition};
use prunum::{shl, shr_u};

pub fn computed(op: AluOp, a: u32, b: u32) -> u32
    ensures { result ≡ spec.computed op a b }
{
    match op {
        AluOp::Add => a.wrapping_add(b),
        AluOp::Sub => a.wrapping_sub(b),
        AluOp::Lsl => shl(a, b),
        AluOp::Lsr => shr_u(a, b),
        AluOp::Rsb => b.wrapping_sub(a),
        AluOp::And => a & b,
        AluOp::Or => a | b,
        AluOp::Xor => a ^ b,
        AluOp::Min => a.min(b),
        AluOp::Max => a.max(b),
        AluOp::Clr => a & !(1 << (b % 32)),
        AluOp::Set => a | 1 << (b % 32),
    }
}

/// A bit of a number, by its number modulo 32.
fn bit(a: u32, k: u32) -> u32
    requires { k < 32 }
    ensures value { result ≡ bit_at a k }
    ensures small { result < 2 }
{
    (a >> k) % 2
}

/// The greatest number of a bit of `a` that is bit 0 of `b`, or 32.
#[tactic(auto, unfolding(crate::specs::Compute::leftmost_below))]
pub fn leftmost(a: u32, b: u32) -> u32
    ensures { result ≡ spec.leftmost a b }
{
    let mut n = 32;
    while n > 0 {
        n -= 1;
        if bit(a, n) == b % 2 {
            return n;
        }
    }
    32
}

pub fn is_taken(condition: Condition, a: u32, b: u32) -> bool
    ensures { result ≡ spec.is_taken condition a b }
{
    match condition {
        Condition::Lt => b < a,
        Condition::Eq => b == a,
        Condition::Le => b <= a,
        Condition::Gt => a < b,
        Condition::Ne => b != a,
        Condition::Ge => a <= b,
        Condition::BitClear => bit(a, b % 32) == 0,
        Condition::BitSet => bit(a, b % 32) == 1,
    }
}
