//! Numbers of four bytes.

ghost use Rattle.std.specs.Prelude.{◌≡◌};
ghost use Rattle.cexpr.specs.Number.{arithmetic_part, arithmetic_type, as_word, folded_one, unqualified, void_type, widened};

use crate::item::{IntegerItem, Marked, OperandItem, ValueItem};
use cprogram::{Integer, convert};
use csyn::{Mark, Sign};
use ctypes::{Base, BaseKind, CType, Qualifiers};
use prunum::Width;
use std::alloc::Global;

// A type of this kind without qualifiers.
fn unqualified(alloc: Global, kind: BaseKind) -> CType
    ensures { result ≡ unqualified kind }
{
    let qualifiers = Qualifiers::NONE;
    CType::new(Base { kind, qualifiers }, Vec::new(alloc))
}

/// `int` or `unsigned int`.
pub fn arithmetic_type(alloc: Global, sign: Sign) -> CType
    ensures { result ≡ arithmetic_type sign }
{
    match sign {
        Sign::Signed => unqualified(alloc, BaseKind::Int),
        Sign::Unsigned => unqualified(alloc, BaseKind::UnsignedInt),
    }
}

/// `void`
pub fn void_type(alloc: Global) -> CType
    ensures { result ≡ void_type }
{
    unqualified(alloc, BaseKind::Void)
}

/// A value of type `int` or `unsigned int`, with its number where it is a constant.
pub fn arithmetic_part<N>(
    alloc: Global,
    sign: Sign,
    number: Option<u32>,
    mark: Mark,
    kind: N,
) -> ValueItem<N>
    ensures { result ≡ arithmetic_part sign number mark kind }
{
    ValueItem {
        ctype: arithmetic_type(alloc, sign),
        number,
        own: None,
        value: Marked { mark, kind },
    }
}

/// A number as one of four bytes.
pub fn widened<V>(a: IntegerItem<V>) -> OperandItem<V>
    ensures { result ≡ widened a }
{
    OperandItem {
        conversion: a.integer.converted(Width::B4),
        value: a.value,
    }
}

/// A number of a type, widened to four bytes.
pub fn as_word(integer: Integer, number: u32) -> u32
    ensures { result ≡ as_word integer number }
{
    convert(integer, Width::B4, number)
}

/// The same of a number that may be there.
pub fn word_of(integer: Integer, number: Option<u32>) -> Option<u32>
    ensures { result ≡ folded_one (as_word integer) number }
{
    match number {
        Some(n) => Some(as_word(integer, n)),
        None => None,
    }
}
