//! Two operands of one type.

ghost use Rattle.std.specs.Prelude.{◌≡◌};
ghost use Rattle.cexpr.specs.Ask.{value_scalar};
ghost use Rattle.cexpr.specs.Pair.{integer_part, operand_part, pair_by, paired, unified, unify};

use crate::assignment::implied_from;
use crate::item::{IntegerItem, OperandItem, ValueItem};
use cfault::Asked;
use cprogram::{Conversion, Integer, Scalar};
use ctypes::CType;

/// Two operands of one type.
#[derive(Drop)]
pub enum Pair<V> {
    Integers(IntegerItem<V>, IntegerItem<V>),
    /// Two pointers of this type, of which one may be the constant 0.
    Pointers(CType, OperandItem<V>, OperandItem<V>),
    /// Two of no value.
    Voids(ValueItem<V>, ValueItem<V>),
}

/// A value as one of this integer type, which is its own.
pub fn integer_part<V: Drop>(item: ValueItem<V>, integer: Integer) -> IntegerItem<V>
    ensures { result ≡ integer_part item integer }
{
    IntegerItem {
        integer,
        number: item.number,
        value: item.value,
    }
}

/// A value, and what it becomes.
pub fn operand_part<V: Drop>(item: ValueItem<V>, conversion: Conversion) -> OperandItem<V>
    ensures { result ≡ operand_part item conversion }
{
    OperandItem {
        conversion,
        value: item.value,
    }
}

// By what converts the left one to the right one's type, and the other way round.
fn unified<V: Drop>(
    a: ValueItem<V>,
    b: ValueItem<V>,
    left: Option<Conversion>,
    right: Option<Conversion>,
) -> Asked<Pair<V>>
    ensures { result ≡ unified a b left right }
{
    match (left, right) {
        (Some(conversion), _) => {
            let left = operand_part(a, conversion);
            let right = OperandItem {
                conversion: Conversion::Same,
                value: b.value,
            };
            Asked::Yes(Pair::Pointers(b.ctype, left, right))
        }
        (None, Some(conversion)) => {
            let left = OperandItem {
                conversion: Conversion::Same,
                value: a.value,
            };
            Asked::Yes(Pair::Pointers(a.ctype, left, operand_part(b, conversion)))
        }
        (None, None) => Asked::No,
    }
}

// Two values of which one converts to the other's type.
#[tactic(auto, unfolding(crate::specs::Pair::unify))]
fn unify<V: Drop>(a: ValueItem<V>, b: ValueItem<V>) -> Asked<Pair<V>>
    ensures { result ≡ unify a b }
{
    let left = implied_from(&a, &b.ctype);
    let right = implied_from(&b, &a.ctype);
    unified(a, b, left, right)
}

fn pair_by<V: Drop>(a: ValueItem<V>, b: ValueItem<V>) -> Asked<Pair<V>>
    ensures { result ≡ pair_by a b (value_scalar a) (value_scalar b) }
{
    match (a.ctype.scalar(), b.ctype.scalar()) {
        (Some(Scalar::Integer(i)), Some(Scalar::Integer(j))) => {
            Asked::Yes(Pair::Integers(integer_part(a, i), integer_part(b, j)))
        }
        (Some(Scalar::Integer(_)), Some(Scalar::Pointer(_))) => unify(a, b),
        (Some(Scalar::Pointer(_)), Some(_)) => unify(a, b),
        (None, None) => Asked::Yes(Pair::Voids(a, b)),
        _ => Asked::No,
    }
}

/// Two values of one type, or of none.
#[tactic(auto, unfolding(crate::specs::Pair::paired))]
pub fn paired<V: Drop>(a: Option<ValueItem<V>>, b: Option<ValueItem<V>>) -> Asked<Pair<V>>
    ensures { result ≡ paired a b }
{
    let Some(a) = a else {
        return Asked::Unsaid;
    };
    let Some(b) = b else {
        return Asked::Unsaid;
    };
    pair_by(a, b)
}
