use super::*;
use cfault::{Asked, Faults};
use cprogram::{AccessKind, Direction, LocalId, Offset, Register, StepValue, UnaryOperator};
use cscope::NameId;
use csize::{Member, Structure};
use csyn::{BinaryOperator, Cause, ComparisonOperator, LogicalOperator, Mark, Sign, Span};
use ctypes::{Base, BaseKind, CType, Qualifiers, Step, StructId};
use std::alloc::{AllocError, Global};
use std::test::Fail;

const CONST: Qualifiers = Qualifiers {
    is_const: true,
    is_volatile: false,
};

const VOLATILE: Qualifiers = Qualifiers {
    is_const: false,
    is_volatile: true,
};

const POINTER: Step = Step::Pointer(Qualifiers::NONE);

// An expression of this type. `Broken` breaks a rule itself.
#[derive(Clone, Copy, Debug)]
enum Part {
    Broken,
    Number(u32),
    Int,
    Const,
    Short,
    Pointer,
    ConstPointer,
    VolatilePointer,
    StructPointer,
    Row,
    Struct,
    Void,
    Register,
}

fn kind_of(part: Part) -> BaseKind {
    match part {
        Part::Short => BaseKind::Short,
        Part::Struct | Part::StructPointer => BaseKind::Struct(StructId(0)),
        Part::Void => BaseKind::Void,
        _ => BaseKind::Int,
    }
}

fn qualifiers_of(part: Part) -> Qualifiers {
    match part {
        Part::Const | Part::ConstPointer => CONST,
        Part::VolatilePointer | Part::Register => VOLATILE,
        _ => Qualifiers::NONE,
    }
}

fn type_of(alloc: Global, part: Part) -> Result<CType, AllocError> {
    let steps = match part {
        Part::Pointer | Part::ConstPointer | Part::VolatilePointer | Part::StructPointer => {
            Vec::from_slice(alloc, &[POINTER])?
        }
        Part::Row => Vec::from_slice(alloc, &[Step::Array(3)])?,
        _ => Vec::new(alloc),
    };
    let base = Base {
        kind: kind_of(part),
        qualifiers: qualifiers_of(part),
    };
    Ok(CType::new(base, steps))
}

fn mark(column: u32) -> Mark {
    Mark {
        number: 0,
        span: Span { line: 1, column },
        tokens: 1,
    }
}

fn marked() -> Marked<u8> {
    Marked {
        mark: mark(2),
        kind: 0,
    }
}

// As a value, whose node stands in column 2.
fn value(alloc: Global, part: Part) -> Result<Option<ValueItem<u8>>, AllocError> {
    let ctype = type_of(alloc, part)?;
    let number = match part {
        Part::Broken => return Ok(None),
        Part::Number(n) => Some(n),
        _ => None,
    };
    Ok(Some(ValueItem {
        ctype,
        number,
        own: None,
        value: marked(),
    }))
}

// As a variable, or as a value where it is a number or has none.
fn item(alloc: Global, part: Part) -> Result<Option<Item<u8, u8>>, AllocError> {
    let ctype = type_of(alloc, part)?;
    let (reach, is_variable) = match part {
        Part::Broken => return Ok(None),
        Part::Number(_) | Part::Void => {
            return Ok(Some(Item::Value(ValueItem {
                ctype,
                number: None,
                own: None,
                value: marked(),
            })));
        }
        Part::Register => (AccessKind::Register, false),
        _ => (AccessKind::Plain, true),
    };
    Ok(Some(Item::Place(PlaceItem {
        ctype,
        reach,
        is_variable,
        place: marked(),
    })))
}

// The least rule that is broken at column 9, or in it.
fn cause(faults: &Faults) -> Option<Cause> {
    Some(faults.least()?.cause)
}

// What stands between two operands, or before two arguments.
#[derive(Clone, Copy, Debug)]
enum Two {
    Multiply,
    Add,
    Subtract,
    Less,
    And,
    Choose,
    Assign,
    AddAssign,
    MultiplyAssign,
    Index,
    Leftmost,
}

fn judge_targets(two: Two, a: Option<Item<u8, u8>>, b: Option<ValueItem<u8>>, faults: &mut Faults) {
    match two {
        Two::AddAssign => {
            let _ = assign_with(&[], mark(9), BinaryOperator::Add, a, b, faults);
        }
        Two::MultiplyAssign => {
            let _ = assign_with(&[], mark(9), BinaryOperator::Multiply, a, b, faults);
        }
        _ => {
            let _ = assign(mark(9), a, b, faults);
        }
    }
}

fn judge_sums(
    alloc: Global,
    two: Two,
    a: Option<ValueItem<u8>>,
    b: Option<ValueItem<u8>>,
    faults: &mut Faults,
) -> Result<(), AllocError> {
    let direction = match two {
        Two::Add => Direction::Up,
        _ => Direction::Down,
    };
    let _ = add(alloc, &[], mark(9), direction, a, b, faults)?;
    Ok(())
}

fn judge_values(
    alloc: Global,
    two: Two,
    a: Option<ValueItem<u8>>,
    b: Option<ValueItem<u8>>,
    faults: &mut Faults,
) {
    match two {
        Two::Less => {
            let _ = comparison(alloc, mark(9), ComparisonOperator::Less, a, b, faults);
        }
        Two::And => {
            let _ = logical(alloc, mark(9), LogicalOperator::And, a, b, faults);
        }
        Two::Index => {
            let _ = indexed(&[], mark(9), a, b, faults);
        }
        Two::Leftmost => {
            let _ = leftmost(alloc, mark(9), a, b, faults);
        }
        _ => {
            let _ = binary(alloc, mark(9), BinaryOperator::Multiply, a, b, faults);
        }
    }
}

fn broken_by_two(alloc: Global, two: Two, a: Part, b: Part) -> Result<Option<Cause>, AllocError> {
    let mut faults = Faults::new();
    let right = value(alloc, b)?;
    match two {
        Two::Assign | Two::AddAssign | Two::MultiplyAssign => {
            judge_targets(two, item(alloc, a)?, right, &mut faults);
        }
        Two::Add | Two::Subtract => {
            judge_sums(alloc, two, value(alloc, a)?, right, &mut faults)?;
        }
        Two::Choose => {
            let condition = value(alloc, Part::Int)?;
            let left = value(alloc, a)?;
            let _ = conditional(alloc, mark(9), condition, left, right, &mut faults);
        }
        _ => judge_values(alloc, two, value(alloc, a)?, right, &mut faults),
    }
    Ok(cause(&faults))
}

#[test]
fn operands_fit(rt: HostRuntime) -> Result<(), Fail> {
    let table = [
        (Two::Multiply, Part::Int, Part::Number(2), None),
        (Two::Multiply, Part::Pointer, Part::Int, Some(Cause::S4)),
        (Two::Multiply, Part::Int, Part::Void, Some(Cause::S4)),
        (Two::Multiply, Part::Broken, Part::Pointer, None),
        (Two::Add, Part::Pointer, Part::Int, None),
        (Two::Add, Part::Int, Part::Pointer, None),
        (Two::Add, Part::Pointer, Part::Pointer, Some(Cause::S4)),
        (Two::Subtract, Part::Pointer, Part::ConstPointer, None),
        (Two::Subtract, Part::Int, Part::Pointer, Some(Cause::S4)),
        (
            Two::Subtract,
            Part::Pointer,
            Part::VolatilePointer,
            Some(Cause::S4),
        ),
        (Two::Less, Part::Pointer, Part::ConstPointer, None),
        (Two::Less, Part::Pointer, Part::Number(0), None),
        (Two::Less, Part::Pointer, Part::Number(1), Some(Cause::S4)),
        (Two::Less, Part::Void, Part::Void, Some(Cause::S4)),
        (Two::And, Part::Pointer, Part::Int, None),
        (Two::And, Part::Int, Part::Void, Some(Cause::S4)),
        (Two::Choose, Part::ConstPointer, Part::Pointer, None),
        (Two::Choose, Part::Void, Part::Void, None),
        (Two::Choose, Part::Void, Part::Int, Some(Cause::S4)),
        (Two::Index, Part::Pointer, Part::Short, None),
        (Two::Index, Part::Int, Part::Pointer, Some(Cause::S4)),
        (Two::Leftmost, Part::Int, Part::Short, None),
        (Two::Leftmost, Part::Pointer, Part::Int, Some(Cause::S6)),
    ];
    for (two, a, b, wanted) in table {
        assert_eq!(rt; broken_by_two(rt.alloc(), two, a, b)?, wanted);
    }
    Ok(())
}

#[test]
fn targets_fit(rt: HostRuntime) -> Result<(), Fail> {
    let table = [
        (Two::Assign, Part::Int, Part::Short, None),
        (Two::Assign, Part::Pointer, Part::Number(0), None),
        (Two::Assign, Part::ConstPointer, Part::Pointer, None),
        (Two::Assign, Part::Pointer, Part::Number(1), Some(Cause::S4)),
        (
            Two::Assign,
            Part::Pointer,
            Part::ConstPointer,
            Some(Cause::S4),
        ),
        (Two::Assign, Part::Const, Part::Broken, Some(Cause::S5)),
        (Two::Assign, Part::Row, Part::Int, Some(Cause::S5)),
        (Two::Assign, Part::Struct, Part::Int, Some(Cause::S5)),
        (Two::Assign, Part::Number(3), Part::Int, Some(Cause::S5)),
        (Two::Assign, Part::Broken, Part::Int, None),
        (Two::AddAssign, Part::Pointer, Part::Int, None),
        (
            Two::AddAssign,
            Part::Pointer,
            Part::Pointer,
            Some(Cause::S4),
        ),
        (Two::AddAssign, Part::Const, Part::Int, Some(Cause::S5)),
        (Two::MultiplyAssign, Part::Int, Part::Int, None),
        (
            Two::MultiplyAssign,
            Part::Pointer,
            Part::Int,
            Some(Cause::S4),
        ),
    ];
    for (two, a, b, wanted) in table {
        assert_eq!(rt; broken_by_two(rt.alloc(), two, a, b)?, wanted);
    }
    Ok(())
}

// What stands at one operand.
#[derive(Clone, Copy, Debug)]
enum One {
    Minus,
    Not,
    Dereference,
    Delay,
    Length,
    Case,
    Address,
    Increment,
    Size,
    In,
    InFar,
    Out,
}

fn judge_value(alloc: Global, one: One, a: Option<ValueItem<u8>>, faults: &mut Faults) {
    match one {
        One::Minus => {
            let _ = unary(alloc, mark(9), UnaryOperator::Minus, a, faults);
        }
        One::Not => {
            let _ = negated(alloc, mark(9), a, faults);
        }
        One::Dereference => {
            let _ = dereferenced(mark(9), a, faults);
        }
        One::Delay => {
            let _ = delayed(alloc, mark(9), &a, faults);
        }
        One::Length => {
            let _ = array_length(mark(9), &a, faults);
        }
        _ => {
            let _ = case_number(mark(9), &a, faults);
        }
    }
}

fn judge_item(
    alloc: Global,
    one: One,
    a: Option<Item<u8, u8>>,
    faults: &mut Faults,
) -> Result<(), AllocError> {
    match one {
        One::Address => {
            let _ = address(mark(9), a, faults)?;
        }
        One::Increment => {
            let _ = step(&[], mark(9), StepValue::New, Direction::Up, a, faults);
        }
        One::Size => {
            let _ = expression_size(alloc, &[], mark(9), a, faults);
        }
        _ => {
            let device = match one {
                One::InFar => 13,
                _ => 10,
            };
            let device = value(alloc, Part::Number(device))?;
            let zero = value(alloc, Part::Number(0))?;
            let register = scratchpad_register(&device, &zero, &zero);
            if let One::Out = one {
                let _ = scratchpad_out(alloc, mark(9), register, a, faults);
            } else {
                let _ = scratchpad_in(alloc, mark(9), register, a, faults);
            }
        }
    }
    Ok(())
}

fn broken_by_one(alloc: Global, one: One, a: Part) -> Result<Option<Cause>, AllocError> {
    let mut faults = Faults::new();
    match one {
        One::Address | One::Increment | One::Size | One::In | One::InFar | One::Out => {
            judge_item(alloc, one, item(alloc, a)?, &mut faults)?;
        }
        _ => judge_value(alloc, one, value(alloc, a)?, &mut faults),
    }
    Ok(cause(&faults))
}

#[test]
fn one_operand_fits(rt: HostRuntime) -> Result<(), Fail> {
    let table = [
        (One::Minus, Part::Short, None),
        (One::Minus, Part::Pointer, Some(Cause::S4)),
        (One::Not, Part::Pointer, None),
        (One::Not, Part::Void, Some(Cause::S4)),
        (One::Dereference, Part::VolatilePointer, None),
        (One::Dereference, Part::Int, Some(Cause::S4)),
        (One::Address, Part::Row, None),
        (One::Address, Part::Number(1), Some(Cause::S4)),
        (One::Address, Part::Register, Some(Cause::S4)),
        (One::Increment, Part::Pointer, None),
        (One::Increment, Part::Const, Some(Cause::S5)),
        (One::Increment, Part::Number(1), Some(Cause::S5)),
        (One::Size, Part::Row, None),
        (One::Size, Part::Void, Some(Cause::S4)),
        (One::Size, Part::Broken, None),
        (One::In, Part::Int, None),
        (One::In, Part::Short, Some(Cause::S6)),
        (One::In, Part::Register, Some(Cause::S6)),
        (One::In, Part::Const, Some(Cause::S5)),
        (One::InFar, Part::Int, Some(Cause::S16)),
        (One::Out, Part::Const, None),
        (One::Out, Part::Pointer, Some(Cause::S6)),
    ];
    for (one, a, wanted) in table {
        assert_eq!(rt; broken_by_one(rt.alloc(), one, a)?, wanted);
    }
    Ok(())
}

#[test]
fn constants_are_in_range(rt: HostRuntime) -> Result<(), Fail> {
    let table = [
        (One::Delay, Part::Number(1), None),
        (One::Delay, Part::Number(1_000_000), None),
        (One::Delay, Part::Number(0), Some(Cause::S14)),
        (One::Delay, Part::Number(1_000_001), Some(Cause::S14)),
        (One::Delay, Part::Int, Some(Cause::S14)),
        (One::Delay, Part::Broken, Some(Cause::S14)),
        (One::Length, Part::Number(1), None),
        (One::Length, Part::Number(4096), None),
        (One::Length, Part::Number(0), Some(Cause::S8)),
        (One::Length, Part::Number(4097), Some(Cause::S8)),
        (One::Length, Part::Int, Some(Cause::S7)),
        (One::Case, Part::Number(7), None),
        (One::Case, Part::Broken, Some(Cause::S23)),
    ];
    for (one, a, wanted) in table {
        assert_eq!(rt; broken_by_one(rt.alloc(), one, a)?, wanted);
    }
    Ok(())
}

fn broken_by_cast(alloc: Global, to: Part, from: Part) -> Result<Option<Cause>, AllocError> {
    let mut faults = Faults::new();
    let ctype = type_of(alloc, to)?;
    let _ = casted(mark(9), Some(ctype), value(alloc, from)?, &mut faults);
    Ok(cause(&faults))
}

#[test]
fn casts_fit(rt: HostRuntime) -> Result<(), Fail> {
    let table = [
        (Part::VolatilePointer, Part::Number(1), None),
        (Part::Pointer, Part::Number(0), None),
        (Part::Pointer, Part::Number(1), Some(Cause::S17)),
        (Part::ConstPointer, Part::Pointer, None),
        (Part::Pointer, Part::ConstPointer, Some(Cause::S17)),
        (Part::VolatilePointer, Part::Pointer, Some(Cause::S17)),
        (Part::Int, Part::VolatilePointer, None),
        (Part::Int, Part::Pointer, Some(Cause::S17)),
        (Part::Void, Part::Int, Some(Cause::S17)),
        (Part::Struct, Part::Int, Some(Cause::S17)),
    ];
    for (to, from, wanted) in table {
        assert_eq!(rt; broken_by_cast(rt.alloc(), to, from)?, wanted);
    }
    Ok(())
}

fn named_alone(alloc: Global, meaning: &Meaning) -> Result<Option<Cause>, AllocError> {
    let mut faults = Faults::new();
    let _ = named(alloc, mark(9), meaning, &mut faults)?;
    Ok(cause(&faults))
}

#[test]
fn names_are_read(rt: HostRuntime) -> Result<(), Fail> {
    let alloc = rt.alloc();
    let local = Meaning::Local(LocalId(0), type_of(alloc, Part::Int)?);
    assert_eq!(rt; named_alone(alloc, &local)?, None);
    assert_eq!(rt;
        named_alone(alloc, &Meaning::Register(Register::R30))?,
        None
    );
    assert_eq!(rt; named_alone(alloc, &Meaning::Undeclared)?, Some(Cause::S1));
    let halt = Meaning::Intrinsic(Intrinsic::Halt);
    assert_eq!(rt; named_alone(alloc, &halt)?, Some(Cause::S4));
    Ok(())
}

// A place of column 2, where its value is taken.
fn broken_by_use(alloc: Global, part: Part) -> Result<Option<Cause>, AllocError> {
    let mut faults = Faults::new();
    let place = PlaceItem {
        ctype: type_of(alloc, part)?,
        reach: AccessKind::Plain,
        is_variable: true,
        place: marked(),
    };
    let _ = place_used(&[], place, &mut faults);
    Ok(cause(&faults))
}

#[test]
fn structs_have_no_value(rt: HostRuntime) -> Result<(), Fail> {
    assert_eq!(rt; broken_by_use(rt.alloc(), Part::Row)?, None);
    assert_eq!(rt; broken_by_use(rt.alloc(), Part::Struct)?, Some(Cause::S20));
    Ok(())
}

// `a.b` and `p->b`, of a struct with one member, whose name has the number 1.
fn broken_by_member(
    alloc: Global,
    a: Part,
    is_arrow: bool,
    name: u32,
) -> Result<Option<Cause>, AllocError> {
    let mut faults = Faults::new();
    let mut members = Vec::new(alloc);
    let offset = Offset {
        leaves: 0,
        bytes: 0,
    };
    members.push(Member {
        name: NameId(1),
        ctype: type_of(alloc, Part::Int)?,
        offset,
    })?;
    let structures = [Structure {
        members,
        element: None,
    }];
    if is_arrow {
        let pointer = value(alloc, a)?;
        let _ = arrow(
            alloc,
            &structures,
            mark(9),
            NameId(name),
            pointer,
            &mut faults,
        )?;
    } else {
        let whole = item(alloc, a)?;
        let _ = member(
            alloc,
            &structures,
            mark(9),
            NameId(name),
            whole,
            &mut faults,
        )?;
    }
    Ok(cause(&faults))
}

#[test]
fn members_are_found(rt: HostRuntime) -> Result<(), Fail> {
    let table = [
        (Part::Struct, false, 1, None),
        (Part::Struct, false, 2, Some(Cause::S1)),
        (Part::Int, false, 1, Some(Cause::S4)),
        (Part::Void, false, 1, Some(Cause::S4)),
        (Part::StructPointer, true, 1, None),
        (Part::StructPointer, true, 2, Some(Cause::S1)),
        (Part::Struct, true, 1, Some(Cause::S4)),
        (Part::Pointer, true, 1, Some(Cause::S4)),
    ];
    for (a, is_arrow, name, wanted) in table {
        assert_eq!(rt; broken_by_member(rt.alloc(), a, is_arrow, name)?, wanted);
    }
    Ok(())
}

fn broken_by_call(
    alloc: Global,
    arguments: Asked<u8>,
    definition: Option<u32>,
) -> Result<Option<Cause>, AllocError> {
    let mut faults = Faults::new();
    let signature = Signature {
        result: None,
        parameters: Vec::new(alloc),
        definition: match definition {
            None => None,
            Some(n) => Some(cprogram::FunctionId(n)),
        },
    };
    let _ = called(alloc, mark(9), &signature, arguments, &mut faults)?;
    Ok(cause(&faults))
}

#[test]
fn calls_fit(rt: HostRuntime) -> Result<(), Fail> {
    let alloc = rt.alloc();
    assert_eq!(rt; broken_by_call(alloc, Asked::Yes(1), Some(0))?, None);
    assert_eq!(rt; broken_by_call(alloc, Asked::Unsaid, Some(0))?, None);
    assert_eq!(rt; broken_by_call(alloc, Asked::No, None)?, Some(Cause::S6));
    assert_eq!(rt;
        broken_by_call(alloc, Asked::Yes(1), None)?,
        Some(Cause::S18)
    );
    Ok(())
}

// the same with nothing told of its parts
fn leaf<N: Drop>(item: Option<ValueItem<N>>) -> Option<ValueItem<u8>> {
    let item = item?;
    Some(ValueItem {
        ctype: item.ctype,
        number: item.number,
        own: item.own,
        value: marked(),
    })
}

fn number<N: Drop>(item: Option<ValueItem<N>>) -> Option<u32> {
    item?.number
}

// `(-1 < 0u ? 4 : 5)`, where -1 is the greatest of all, and `(short)-1 < 0 ? 4 : 5`
#[test]
fn constants_are_folded(rt: HostRuntime) -> Result<(), Fail> {
    let alloc = rt.alloc();
    let mut faults = Faults::new();
    for (sign, wanted) in [(Sign::Unsigned, 5), (Sign::Signed, 4)] {
        let one = value(alloc, Part::Number(1))?;
        let minus = unary(alloc, mark(9), UnaryOperator::Minus, one, &mut faults);
        let zero = leaf(Some(constant(alloc, mark(9), 0, sign)));
        let less = ComparisonOperator::Less;
        let less = comparison(alloc, mark(9), less, leaf(minus), zero, &mut faults);
        let four = value(alloc, Part::Number(4))?;
        let five = value(alloc, Part::Number(5))?;
        let chosen = conditional(alloc, mark(9), leaf(less), four, five, &mut faults);
        assert_eq!(rt; number(chosen), Some(wanted));
    }
    assert_eq!(rt; faults.least(), None);
    Ok(())
}

// an element of a volatile array of three in the own window, and of one outside
fn reach_of_element(
    alloc: Global,
    address: u32,
    index: u32,
) -> Result<Option<AccessKind>, AllocError> {
    let mut faults = Faults::new();
    let base = Base {
        kind: BaseKind::Int,
        qualifiers: VOLATILE,
    };
    let ctype = CType::new(base, Vec::from_slice(alloc, &[Step::Array(3)])?);
    let meaning = Meaning::Volatile(address, ctype);
    let Some(place) = named(alloc, mark(9), &meaning, &mut faults)? else {
        return Ok(None);
    };
    let array = leaf(place_used(&[], place, &mut faults));
    let index = value(alloc, Part::Number(index))?;
    let Some(element) = indexed(&[], mark(9), array, index, &mut faults) else {
        return Ok(None);
    };
    Ok(Some(element.reach))
}

#[test]
fn accesses_go_to_windows(rt: HostRuntime) -> Result<(), Fail> {
    let table = [
        (0x1e00, 2, AccessKind::Own),
        (0x1e00, 3, AccessKind::Volatile),
        (0x10000, 2, AccessKind::Volatile),
    ];
    for (address, index, wanted) in table {
        assert_eq!(rt; reach_of_element(rt.alloc(), address, index)?, Some(wanted));
    }
    Ok(())
}
