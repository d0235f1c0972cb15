//! Single fields. Of a file of `end` bytes each function gets the last ones, from its field on.

ghost use Rattle.std.specs.Prelude.{◌≡◌, ◌==◌, ◌<◌, ◌≤◌, ◌^◌, length, drop, IfOk};
ghost use Rattle.std.specs.Int.{w8, w16, w32};
ghost use Rattle.pruelf.specs.Fields.{Gives, bytes_in, fixed_in, judged_in, kind_of, number_in, place, within_in, wrong};

use crate::fault::{LoadCause, LoadFault};
use crate::span::Span;
use prunum::Width;

/// Where the bytes begin.
pub fn place(end: usize, bytes: &[u8]) -> u32
    requires { end < 2 ^ 31 }
    ensures { result ≡ place end bytes.now }
{
    end.saturating_sub(bytes.len()) as u32
}

/// The first field of the bytes is at fault.
pub fn wrong(cause: LoadCause, end: usize, bytes: &[u8]) -> LoadFault
    requires { end < 2 ^ 31 }
    ensures { result ≡ wrong cause end bytes.now }
{
    LoadFault::At {
        offset: place(end, bytes),
        cause,
    }
}

/// What stands behind the first `count`.
#[tactic(auto, using(crate::proofs::Loop::behind_all))]
pub fn behind<T>(items: &[T], count: usize) -> &[T]
    ensures { result.now ≡ drop count items.now }
{
    &items[count.min(items.len())..]
}

/// The file ends within the field.
pub fn truncated(end: usize) -> LoadFault
    requires { end < 2 ^ 31 }
    ensures { result ≡ LoadFault.At end LoadCause.Truncated }
{
    LoadFault::At {
        offset: end as u32,
        cause: LoadCause::Truncated,
    }
}

/// So many bytes.
pub fn bytes(count: usize, end: usize, bytes: &[u8]) -> Result<(&[u8], &[u8]), LoadFault>
    requires { end < 2 ^ 31 }
    ensures { Gives (λ x. (x.0.now, x.1.now)) result (bytes_in count end bytes.now) }
{
    if bytes.len() < count {
        return Err(truncated(end));
    }
    Ok(bytes.split_at(count))
}

/// A byte.
pub fn byte(end: usize, bytes: &[u8]) -> Result<(u8, &[u8]), LoadFault>
    requires { end < 2 ^ 31 }
    ensures { Gives (λ x. (x.0, x.1.now)) result (number_in w8 end bytes.now) }
{
    if bytes.is_empty() {
        return Err(truncated(end));
    }
    let (front, rest) = bytes.split_at(1);
    Ok((front[0], rest))
}

/// A number of two bytes.
pub fn half(end: usize, bytes: &[u8]) -> Result<(u16, &[u8]), LoadFault>
    requires { end < 2 ^ 31 }
    ensures { Gives (λ x. (x.0, x.1.now)) result (number_in w16 end bytes.now) }
{
    if bytes.len() < 2 {
        return Err(truncated(end));
    }
    let (front, rest) = bytes.split_at(2);
    Ok((u16::from_le_bytes([front[0], front[1]]), rest))
}

/// A number of four bytes.
pub fn word(end: usize, bytes: &[u8]) -> Result<(u32, &[u8]), LoadFault>
    requires { end < 2 ^ 31 }
    ensures { Gives (λ x. (x.0, x.1.now)) result (number_in w32 end bytes.now) }
{
    if bytes.len() < 4 {
        return Err(truncated(end));
    }
    let (front, rest) = bytes.split_at(4);
    let number = u32::from_le_bytes([front[0], front[1], front[2], front[3]]);
    Ok((number, rest))
}

/// A number of this width.
fn number(width: Width, end: usize, bytes: &[u8]) -> Result<(u32, &[u8]), LoadFault>
    requires { end < 2 ^ 31 }
    ensures { Gives (λ x. (x.0, x.1.now)) result (number_in (kind_of width) end bytes.now) }
{
    match width {
        Width::B1 => {
            let (number, rest) = byte(end, bytes)?;
            Ok((u32::from(number), rest))
        }
        Width::B2 => {
            let (number, rest) = half(end, bytes)?;
            Ok((u32::from(number), rest))
        }
        Width::B4 => word(end, bytes),
    }
}

/// A number of four bytes within the span.
#[tactic(auto, unfolding(crate::specs::Fields::judged_in))]
pub fn within(
    cause: LoadCause,
    span: Span,
    end: usize,
    bytes: &[u8],
) -> Result<(u32, &[u8]), LoadFault>
    requires end { end < 2 ^ 31 }
    requires unit { 0 < span.unit }
    ensures value { Gives (λ x. (x.0, x.1.now)) result (within_in cause span end bytes.now) }
    ensures within { IfOk result (λ x. (span.least ≤ x.0) × (x.0 ≤ span.most)) }
{
    let (number, rest) = word(end, bytes)?;
    if !span.allows(u64::from(number)) {
        return Err(wrong(cause, end, bytes));
    }
    Ok((number, rest))
}

/// A number of which there is one.
#[tactic(auto, unfolding(crate::specs::Fields::judged_in))]
fn one(
    cause: LoadCause,
    width: Width,
    value: u64,
    end: usize,
    bytes: &[u8],
) -> Result<&[u8], LoadFault>
    requires { end < 2 ^ 31 }
    ensures { Gives (λ x. (value, x.now)) result (judged_in cause (kind_of width) (λ n. n == value) end bytes.now) }
{
    let (number, rest) = number(width, end, bytes)?;
    if u64::from(number) != value {
        return Err(wrong(cause, end, bytes));
    }
    Ok(rest)
}

/// Fields of this width, each of which has one value.
pub fn fixed<'a>(
    cause: LoadCause,
    width: Width,
    values: &[u64],
    end: usize,
    bytes: &'a [u8],
) -> Result<&'a [u8], LoadFault>
    requires { end < 2 ^ 31 }
    ensures { Gives (λ x. x.now) result (fixed_in cause (kind_of width) values.now end bytes.now) }
{
    let mut rest = bytes;
    for value in values {
        rest = one(cause, width, *value, end, rest)?;
    }
    Ok(rest)
}

/// Bytes, each of which has one value.
pub fn fixed_bytes<'a>(
    cause: LoadCause,
    values: &[u8],
    end: usize,
    bytes: &'a [u8],
) -> Result<&'a [u8], LoadFault>
    requires { end < 2 ^ 31 }
    ensures { Gives (λ x. x.now) result (fixed_in cause w8 values.now end bytes.now) }
{
    let mut rest = bytes;
    for value in values {
        rest = one(cause, Width::B1, *value as u64, end, rest)?;
    }
    Ok(rest)
}
