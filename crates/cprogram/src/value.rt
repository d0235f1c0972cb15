ghost use Rattle.std.specs.Prelude.{◌≤◌};

use crate::access::{Access, Register, ScratchpadRegister};
use crate::number::{FunctionId, LocalId, ObjectId};
use crate::pointer::{Direction, Offset, Pointer, PointerKind};
use crate::scalar::{Conversion, Scalar};
use csyn::{BinaryOperator, ComparisonOperator, LogicalOperator, Mark, Sign};

/// An operator in front of a number (C99 6.5.3.3).
#[derive(Clone, Copy, Debug, PartialEq, Eq)]
pub enum UnaryOperator {
    Plus,
    Minus,
    Complement,
}

/// Which value `++` or `--` has: that before the step, as behind its operand, or the one after it, as before its operand.
#[derive(Clone, Copy, Debug, PartialEq, Eq)]
pub enum StepValue {
    Old,
    New,
}

/// What becomes of a call's result.
#[derive(Clone, Copy, Debug, PartialEq, Eq)]
pub enum CallResult {
    /// The function has none.
    Void,
    /// Nothing takes it: the call is a whole expression statement, the first or third expression of a `for`, or the left side of
    /// a comma. There the function may return without a value.
    Unused(Scalar),
    Used(Scalar),
}

impl CallResult {
    ghost use Rattle.std.specs.Prelude.{◌≡◌};
    ghost use Rattle.cprogram.specs.Value.{result_scalar, unused_result};

    /// The type of the function's result.
    pub fn scalar(self) -> Option<Scalar>
        ensures { result ≡ result_scalar self }
    {
        match self {
            CallResult::Void => None,
            CallResult::Unused(scalar) | CallResult::Used(scalar) => Some(scalar),
        }
    }

    /// The same call where nothing takes its result.
    pub fn unused(self) -> CallResult
        ensures { result ≡ unused_result self }
    {
        match self {
            CallResult::Void => CallResult::Void,
            CallResult::Unused(scalar) | CallResult::Used(scalar) => CallResult::Unused(scalar),
        }
    }
}

/// The number of a `__delay_cycles`.
#[derive(Clone, Copy, Debug, PartialEq, Eq)]
pub struct Delay {
    pub cycles: u32,
    pub ghost some_cycle: { 1 ≤ cycles },
    pub ghost at_most: { cycles ≤ 1000000 },
}

/// An expression that names an object or a part of one (C99 6.3.2.1). It is a node of the tree.
#[cycle(value)]
#[derive(Debug)]
pub struct Place {
    pub mark: Mark,
    pub kind: PlaceKind,
}

impl Drop for Place {
    #[cycle(value)]
    fn drop(self) {
        let Place { mark: _, kind: _ } = self;
    }
}

#[cycle(value)]
#[derive(Debug)]
pub enum PlaceKind {
    Local(LocalId),
    /// A plain file object.
    Global(ObjectId),
    /// A volatile file object, at its address.
    Volatile(u32),
    Register(Register),
    /// `*p`
    Dereference(Box<Value>),
    /// `p[i]`: the element that `p + i` points to. An array before the brackets has become a pointer to its first element.
    Subscript(Pointer, Box<Value>, Sign, Box<Operand>),
    /// `a.b`
    Member(Box<Place>, Offset),
    /// `p->b`
    Arrow(Box<Value>, Offset),
}

impl Drop for PlaceKind {
    #[cycle(value)]
    fn drop(self) {
        match self {
            PlaceKind::Local(_) => {}
            PlaceKind::Global(_) => {}
            PlaceKind::Volatile(_) => {}
            PlaceKind::Register(_) => {}
            PlaceKind::Dereference(_) => {}
            PlaceKind::Subscript(_, _, _, _) => {}
            PlaceKind::Member(_, _) => {}
            PlaceKind::Arrow(_, _) => {}
        }
    }
}

impl Place {
    ghost use Rattle.std.specs.Prelude.{◌≡◌};

    /// Its mark, and what it names.
    pub fn into_parts(self) -> (Mark, PlaceKind)
        ensures { result ≡ (self.mark, self.kind) }
    {
        let Place { mark, kind } = self;
        (mark, kind)
    }
}

/// An expression that is evaluated to a value, or to none where it is of type void.
#[cycle(value)]
#[derive(Debug)]
pub struct Value {
    pub mark: Mark,
    pub kind: ValueKind,
}

impl Drop for Value {
    #[cycle(value)]
    fn drop(self) {
        let Value { mark: _, kind: _ } = self;
    }
}

impl Value {
    ghost use Rattle.std.specs.Prelude.{◌≡◌};
    ghost use Rattle.cprogram.specs.Value.{value_scalar};

    /// Its mark, and what it is.
    pub fn into_parts(self) -> (Mark, ValueKind)
        ensures { result ≡ (self.mark, self.kind) }
    {
        let Value { mark, kind } = self;
        (mark, kind)
    }

    /// The type of its value; None where it is of type void.
    pub fn scalar(&self) -> Option<Scalar>
        ensures { result ≡ value_scalar self.now }
    {
        match &self.kind {
            ValueKind::Number(_, sign)
            | ValueKind::Unary(_, sign, _)
            | ValueKind::Binary(_, sign, _, _) => Some(Scalar::arithmetic(*sign)),
            ValueKind::Not(_)
            | ValueKind::Comparison(_, _, _, _)
            | ValueKind::PointerComparison(_, _, _)
            | ValueKind::Logical(_, _, _)
            | ValueKind::PointerDifference(_, _, _) => Some(Scalar::arithmetic(Sign::Signed)),
            ValueKind::LeftmostBit(_, _) => Some(Scalar::arithmetic(Sign::Unsigned)),
            ValueKind::Read(access, _)
            | ValueKind::Assign(access, _, _)
            | ValueKind::AssignWith(_, _, access, _, _)
            | ValueKind::OffsetAssign(_, _, access, _, _, _)
            | ValueKind::Step(_, _, access, _)
            | ValueKind::PointerStep(_, _, _, access, _) => Some(access.scalar),
            ValueKind::ArrayPointer(pointer, _, _)
            | ValueKind::PointerOffset(_, pointer, _, _, _)
            | ValueKind::IndexPlusPointer(pointer, _, _, _) => Some(Scalar::Pointer(pointer.kind)),
            ValueKind::Address(kind, _) => Some(Scalar::Pointer(*kind)),
            ValueKind::Cast(scalar, _) => Some(*scalar),
            ValueKind::Conditional(scalar, _, _, _) | ValueKind::Comma(scalar, _, _) => *scalar,
            ValueKind::Call(_, result, _) => result.scalar(),
            ValueKind::Delay(_)
            | ValueKind::Halt
            | ValueKind::ScratchpadIn(_, _)
            | ValueKind::ScratchpadOut(_, _) => None,
        }
    }
}

/// What a value is. All arithmetic is done on numbers of four bytes, with or without sign (C99 6.3.1): a `Sign` tells which. A sign
/// before the number of elements by which a pointer moves tells how that number is read.
#[cycle(value)]
#[derive(Debug)]
pub enum ValueKind {
    /// A number or a character, or the size that a `sizeof` tells.
    Number(u32, Sign),
    /// What a place holds. The value is the place's own node.
    Read(Access, Box<PlaceKind>),
    /// An array of so many elements as a pointer to its first (C99 6.3.2.1). The value is the place's own node.
    ArrayPointer(Pointer, u32, Box<PlaceKind>),
    /// `&a`
    Address(PointerKind, Box<Place>),
    /// A cast that is written, to this type.
    Cast(Scalar, Box<Operand>),
    Unary(UnaryOperator, Sign, Box<Operand>),
    /// `!a`
    Not(Box<Value>),
    Binary(BinaryOperator, Sign, Box<Operand>, Box<Operand>),
    Comparison(ComparisonOperator, Sign, Box<Operand>, Box<Operand>),
    PointerComparison(ComparisonOperator, Box<Operand>, Box<Operand>),
    Logical(LogicalOperator, Box<Value>, Box<Value>),
    /// `a ? b : c`, of this type.
    Conditional(Option<Scalar>, Box<Value>, Box<Operand>, Box<Operand>),
    /// `a, b`, of this type.
    Comma(Option<Scalar>, Box<Value>, Box<Value>),
    /// `p + i` or `p - i`
    PointerOffset(Direction, Pointer, Box<Value>, Sign, Box<Operand>),
    /// `i + p`
    IndexPlusPointer(Pointer, Sign, Box<Operand>, Box<Value>),
    /// `p - q`
    PointerDifference(Pointer, Box<Value>, Box<Value>),
    /// `a = b`
    Assign(Access, Box<Place>, Box<Operand>),
    /// `a += b` and its like on numbers. The target's number is widened to four bytes, and the result wrapped to its width.
    AssignWith(BinaryOperator, Sign, Access, Box<Place>, Box<Operand>),
    /// `p += i` or `p -= i`
    OffsetAssign(Direction, Pointer, Access, Box<Place>, Sign, Box<Operand>),
    /// `++` or `--` of a number.
    Step(StepValue, Direction, Access, Box<Place>),
    /// `++` or `--` of a pointer.
    PointerStep(StepValue, Direction, Pointer, Access, Box<Place>),
    Call(FunctionId, CallResult, Operands),
    /// `__lmbd(a, b)`
    LeftmostBit(Box<Operand>, Box<Operand>),
    /// `__delay_cycles(n)`
    Delay(Delay),
    /// `__halt()`
    Halt,
    /// `__xin`: the register's value into a plain object of four bytes.
    ScratchpadIn(ScratchpadRegister, Box<Place>),
    /// `__xout`: a value into the register.
    ScratchpadOut(ScratchpadRegister, Box<Value>),
}

impl Drop for ValueKind {
    #[cycle(value)]
    fn drop(self) {
        match self {
            ValueKind::Number(_, _) => {}
            ValueKind::Read(_, _) => {}
            ValueKind::ArrayPointer(_, _, _) => {}
            ValueKind::Address(_, _) => {}
            ValueKind::Cast(_, _) => {}
            ValueKind::Unary(_, _, _) => {}
            ValueKind::Not(_) => {}
            ValueKind::Binary(_, _, _, _) => {}
            ValueKind::Comparison(_, _, _, _) => {}
            ValueKind::PointerComparison(_, _, _) => {}
            ValueKind::Logical(_, _, _) => {}
            ValueKind::Conditional(_, _, _, _) => {}
            ValueKind::Comma(_, _, _) => {}
            ValueKind::PointerOffset(_, _, _, _, _) => {}
            ValueKind::IndexPlusPointer(_, _, _, _) => {}
            ValueKind::PointerDifference(_, _, _) => {}
            ValueKind::Assign(_, _, _) => {}
            ValueKind::AssignWith(_, _, _, _, _) => {}
            ValueKind::OffsetAssign(_, _, _, _, _, _) => {}
            ValueKind::Step(_, _, _, _) => {}
            ValueKind::PointerStep(_, _, _, _, _) => {}
            ValueKind::Call(_, _, _) => {}
            ValueKind::LeftmostBit(_, _) => {}
            ValueKind::Delay(_) => {}
            ValueKind::Halt => {}
            ValueKind::ScratchpadIn(_, _) => {}
            ValueKind::ScratchpadOut(_, _) => {}
        }
    }
}

impl ValueKind {
    ghost use Rattle.std.specs.Prelude.{◌≡◌};
    ghost use Rattle.cprogram.specs.Value.{unused_kind};

    /// The same value where nothing takes it: there the result of a call is unused.
    #[tactic(auto, using(crate::proofs::Unused::others))]
    pub fn unused(self) -> ValueKind
        ensures { result ≡ unused_kind self }
    {
        match self {
            ValueKind::Call(function, call, arguments) => {
                ValueKind::Call(function, call.unused(), arguments)
            }
            other => other,
        }
    }
}

/// A value, and the conversion that is implied where it stands or that a cast of it asks for.
#[cycle(value)]
#[derive(Debug)]
pub struct Operand {
    pub conversion: Conversion,
    pub value: Value,
}

impl Drop for Operand {
    #[cycle(value)]
    fn drop(self) {
        let Operand {
            conversion: _,
            value: _,
        } = self;
    }
}

/// The arguments of a call.
#[cycle(value)]
#[derive(Debug)]
pub enum Operands {
    End,
    More(Box<Operand>, Box<Operands>),
}

impl Drop for Operands {
    #[cycle(value)]
    fn drop(mut self) {
        loop {
            match self {
                Operands::End => return,
                Operands::More(_, rest) => self = Box::into_inner(rest),
            }
        }
    }
}
