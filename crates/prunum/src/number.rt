//! What numbers of 32 bits and less mean, and what the operations of C on them give.

ghost use Rattle.std.specs.Prelude.{◌≡◌, ◌≢◌, ◌^◌};
ghost use Rattle.prunum.specs.declared.width.Width.TheVariants.{B4};
ghost use Rattle.prunum.specs.Number.{bit_count, wrap, wrap_signed, sext, IsSignedOf, quot_u, rem_u, quot_s};
ghost use Rattle.prunum.specs.Number.{rem_s, IsCutDivisionOfBits, shl, shr_u, shr_s};

use crate::width::Width;

/// `v` modulo 2 to the number of bits.
pub fn wrap(w: Width, v: u64) -> u32
    ensures { result ≡ wrap w v }
{
    match w {
        Width::B1 => (v % (1 << 8)) as u32,
        Width::B2 => (v % (1 << 16)) as u32,
        Width::B4 => (v % (1 << 32)) as u32,
    }
}

/// The low bits of `v` as two's complement.
#[tactic(auto, unfolding(crate::specs::Number::sext))]
pub fn sext(w: Width, v: u32) -> i64
    ensures value { result ≡ sext w v }
    ensures meaning { IsSignedOf (bit_count w) v result }
{
    match w {
        Width::B1 => i64::from(((v % (1 << 8)) as u8).cast_signed()),
        Width::B2 => i64::from(((v % (1 << 16)) as u16).cast_signed()),
        Width::B4 => i64::from(v.cast_signed()),
    }
}

/// `z` modulo 2 to the power 32.
fn wrap_signed(z: i64) -> u32
    ensures { result ≡ wrap_signed B4 z }
{
    z.rem_euclid(1 << 32) as u32
}

/// The quotient without sign, and `u32::MAX` where `b` is 0.
pub fn quot_u(a: u32, b: u32) -> u32
    ensures { result ≡ quot_u a b }
{
    if b == 0 { u32::MAX } else { a / b }
}

/// What the quotient without sign leaves over, and `a` where `b` is 0.
pub fn rem_u(a: u32, b: u32) -> u32
    ensures { result ≡ rem_u a b }
{
    if b == 0 { a } else { a % b }
}

/// The quotient of two's complement, cut towards 0, and `u32::MAX` where `b` is 0.
/// 0x80000000 by -1 gives 0x80000000.
#[tactic(auto, unfolding(crate::specs::Number::quot_s))]
pub fn quot_s(a: u32, b: u32) -> u32
    ensures value { result ≡ quot_s a b }
    ensures cut { b ≢ 0 → IsCutDivisionOfBits a b result (rem_s a b) }
{
    if b == 0 {
        return u32::MAX;
    }
    wrap_signed(sext(Width::B4, a) / sext(Width::B4, b))
}

/// What the quotient of two's complement leaves over, and `a` where `b` is 0.
#[tactic(auto, unfolding(crate::specs::Number::rem_s))]
pub fn rem_s(a: u32, b: u32) -> u32
    ensures value { result ≡ rem_s a b }
    ensures cut { b ≢ 0 → IsCutDivisionOfBits a b (quot_s a b) result }
{
    if b == 0 {
        return a;
    }
    wrap_signed(sext(Width::B4, a) % sext(Width::B4, b))
}

/// Shifted to the left by `n` modulo 32.
pub fn shl(a: u32, n: u32) -> u32
    ensures { result ≡ shl a n }
{
    a << (n % 32)
}

/// Shifted to the right by `n` modulo 32, with zeros from the left.
pub fn shr_u(a: u32, n: u32) -> u32
    ensures { result ≡ shr_u a n }
{
    a >> (n % 32)
}

/// Shifted to the right by `n` modulo 32, with copies of the sign from the left.
#[tactic(auto, unfolding(crate::specs::Number::shr_s))]
pub fn shr_s(a: u32, n: u32) -> u32
    ensures { result ≡ shr_s a n }
{
    wrap_signed(sext(Width::B4, a) >> (n % 32))
}

#[cfg(test)]
mod tests {
    use super::*;

    // two, four and eight hexadecimal digits, worked out by hand
    #[test]
    fn widths(rt: HostRuntime) {
        for (w, v, left, signed) in [
            (Width::B1, 0x17f, 0x7f, 127),
            (Width::B1, 0x80, 0x80, -128),
            (Width::B2, 0xffff_7fff, 0x7fff, 32_767),
            (Width::B2, 0x8000, 0x8000, -32_768),
            (Width::B4, 0x7fff_ffff, 0x7fff_ffff, 2_147_483_647),
            (Width::B4, 0x8000_0000, 0x8000_0000, -2_147_483_648),
            (Width::B4, 0xffff_ffff, 0xffff_ffff, -1),
        ] {
            assert_eq!(rt; wrap(w, u64::from(v)), left, "{v:x}");
            assert_eq!(rt; sext(w, v), signed, "{v:x}");
        }
        assert_eq!(rt; wrap(Width::B4, 1 << 32), 0);
    }

    #[test]
    fn quotients(rt: HostRuntime) {
        for (a, b, quotient, rest) in [
            (7, 2, 3, 1),
            (u32::MAX, 2, 0x7fff_ffff, 1),
            (7, 0, u32::MAX, 7),
        ] {
            assert_eq!(rt; quot_u(a, b), quotient, "{a} by {b}");
            assert_eq!(rt; rem_u(a, b), rest, "{a} by {b}");
        }
        for (a, b, quotient, rest) in [
            (7, 2, 3, 1),
            (0xffff_fff9, 2, 0xffff_fffd, 0xffff_ffff),
            (7, 0xffff_fffe, 0xffff_fffd, 1),
            (0xffff_fff9, 0xffff_fffe, 3, 0xffff_ffff),
            (0x8000_0000, 0xffff_ffff, 0x8000_0000, 0),
            (0x8000_0000, 0, u32::MAX, 0x8000_0000),
        ] {
            assert_eq!(rt; quot_s(a, b), quotient, "{a:x} by {b:x}");
            assert_eq!(rt; rem_s(a, b), rest, "{a:x} by {b:x}");
        }
    }

    #[test]
    fn shifts(rt: HostRuntime) {
        for (n, left, right, signed) in [
            (0, 0x8000_0003, 0x8000_0003, 0x8000_0003),
            (31, 0x8000_0000, 1, 0xffff_ffff),
            (32, 0x8000_0003, 0x8000_0003, 0x8000_0003),
            (33, 6, 0x4000_0001, 0xc000_0001),
        ] {
            assert_eq!(rt; shl(0x8000_0003, n), left, "{n}");
            assert_eq!(rt; shr_u(0x8000_0003, n), right, "{n}");
            assert_eq!(rt; shr_s(0x8000_0003, n), signed, "{n}");
        }
    }
}
