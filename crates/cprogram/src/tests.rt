ghost use Rattle.std.specs.Prelude.{◌≡◌};
ghost use Rattle.cprogram.specs.Scalar.{scalar_width};

use super::*;
use csyn::{BinaryOperator, ComparisonOperator, Mark, Sign, Span};
use prunum::Width;
use std::alloc::{AllocError, Global};
use std::test::Fail;

fn integer(width: Width, sign: Sign) -> Integer {
    Integer { width, sign }
}

#[test]
fn numbers_convert(rt: HostRuntime) {
    let table = [
        (Width::B1, Sign::Signed, 0x80, Width::B4, 0xffff_ff80),
        (Width::B1, Sign::Unsigned, 0x80, Width::B4, 0x80),
        (Width::B2, Sign::Signed, 0xfffe, Width::B4, 0xffff_fffe),
        (Width::B4, Sign::Signed, 0x1_00ff, Width::B1, 0xff),
        (Width::B2, Sign::Signed, 0x8001, Width::B1, 0x01),
    ];
    for (width, sign, number, to, wanted) in table {
        assert_eq!(rt; convert(integer(width, sign), to, number), wanted);
    }
}

#[test]
fn numbers_compute(rt: HostRuntime) {
    let table = [
        (BinaryOperator::Add, Sign::Unsigned, 0xffff_ffff, 1, 0),
        (BinaryOperator::Subtract, Sign::Signed, 0, 1, 0xffff_ffff),
        (
            BinaryOperator::Multiply,
            Sign::Signed,
            0x1_0000,
            0x1_0001,
            0x1_0000,
        ),
        (
            BinaryOperator::Divide,
            Sign::Signed,
            0x8000_0000,
            0xffff_ffff,
            0x8000_0000,
        ),
        (
            BinaryOperator::Divide,
            Sign::Unsigned,
            0x8000_0000,
            0xffff_ffff,
            0,
        ),
        (
            BinaryOperator::Remainder,
            Sign::Signed,
            0xffff_fff9,
            2,
            0xffff_ffff,
        ),
        (
            BinaryOperator::ShiftRight,
            Sign::Signed,
            0x8000_0000,
            31,
            0xffff_ffff,
        ),
        (
            BinaryOperator::ShiftRight,
            Sign::Unsigned,
            0x8000_0000,
            31,
            1,
        ),
        (BinaryOperator::ShiftLeft, Sign::Signed, 1, 33, 2),
        (BinaryOperator::BitXor, Sign::Signed, 0b1100, 0b1010, 0b0110),
    ];
    for (operator, sign, a, b, wanted) in table {
        assert_eq!(rt; binary(operator, sign, a, b), wanted);
    }
    assert_eq!(rt; unary(UnaryOperator::Minus, 1), 0xffff_ffff);
    assert_eq!(rt; unary(UnaryOperator::Minus, 0), 0);
    assert_eq!(rt; unary(UnaryOperator::Complement, 1), 0xffff_fffe);
}

#[test]
fn numbers_compare(rt: HostRuntime) {
    let table = [
        (ComparisonOperator::Less, Sign::Signed, 0xffff_ffff, 0, true),
        (
            ComparisonOperator::Less,
            Sign::Unsigned,
            0xffff_ffff,
            0,
            false,
        ),
        (ComparisonOperator::GreaterEqual, Sign::Signed, 5, 5, true),
        (ComparisonOperator::NotEqual, Sign::Signed, 5, 5, false),
    ];
    for (operator, sign, a, b, wanted) in table {
        assert_eq!(rt; compare(operator, sign, a, b), wanted);
    }
}

fn leaf(width: Width, offset: u32) -> Leaf
    ensures scalar { scalar_width result.scalar ≡ width }
    ensures offset { result.offset ≡ offset }
{
    Leaf {
        scalar: Scalar::Integer(Integer {
            width,
            sign: Sign::Signed,
        }),
        offset,
    }
}

// `struct { char c; int i; short s; } a[3]`
fn array_of_structs(alloc: Global) -> Result<Layout, AllocError> {
    let leaves = [leaf(Width::B1, 0), leaf(Width::B4, 4), leaf(Width::B2, 8)];
    let leaves = Vec::from_slice(alloc, &leaves)?;
    Ok(Layout::new(Table::new(leaves), 12, 3))
}

#[test]
fn leaves_of_objects(rt: HostRuntime) -> Result<(), Fail> {
    let array = array_of_structs(rt.alloc())?;
    assert_eq!(rt; array.size(), 36);
    assert_eq!(rt; array.leaf_count(), 9);
    assert_eq!(rt; array.alignment(), 4);
    assert_eq!(rt; array.element_leaves().len(), 3);
    let table = [
        (0u32, 0u32, Width::B1),
        (4, 16, Width::B4),
        (8, 32, Width::B2),
    ];
    for (number, offset, width) in table {
        assert!(rt; number < array.leaf_count());
        let leaf = array.leaf(number);
        assert_eq!(rt; leaf.offset, offset);
        assert_eq!(rt; leaf.scalar.width(), width);
    }
    let pointer = Layout::of_scalar(rt.alloc(), Scalar::Pointer(PointerKind::Plain))?;
    assert_eq!(rt; (pointer.size(), pointer.count()), (4, 1));
    Ok(())
}

// The result of a call as it is where nothing takes the value.
fn result_where_unused(value: Value) -> Option<CallResult> {
    let (_, kind) = value.into_parts();
    match &kind.unused() {
        ValueKind::Call(_, result, _) => Some(*result),
        _ => None,
    }
}

fn mark(number: u32) -> Mark {
    Mark {
        number,
        span: Span { line: 1, column: 1 },
        tokens: 1,
    }
}

fn value(kind: ValueKind) -> Value {
    let mark = mark(0);
    Value { mark, kind }
}

fn mark_of(place: Place) -> Mark {
    let (mark, _) = place.into_parts();
    mark
}

#[test]
fn marks_of_places(rt: HostRuntime) {
    let place = Place {
        mark: mark(5),
        kind: PlaceKind::Local(LocalId(2)),
    };
    assert_eq!(rt; mark_of(place).number, 5);
}

#[test]
fn results_that_nothing_takes(rt: HostRuntime) {
    let scalar = Scalar::arithmetic(Sign::Signed);
    let table = [
        (CallResult::Void, CallResult::Void),
        (CallResult::Unused(scalar), CallResult::Unused(scalar)),
        (CallResult::Used(scalar), CallResult::Unused(scalar)),
    ];
    for (result, unused) in table {
        let call = value(ValueKind::Call(FunctionId(3), result, Operands::End));
        assert_eq!(rt; result_where_unused(call), Some(unused));
    }
    assert!(rt; result_where_unused(value(ValueKind::Halt)).is_none());
}
