//! What an expression is read as, by what its parts are.

use crate::item::{Marked, OperandItem};
use cprogram::{
    Access, CallResult, Delay, Direction, FunctionId, LocalId, ObjectId, Offset, Pointer,
    PointerKind, Register, Scalar, ScratchpadRegister, StepValue, UnaryOperator,
};
use csyn::{BinaryOperator, ComparisonOperator, LogicalOperator, Sign};

/// A number of four bytes.
#[derive(Clone, Copy, Debug, PartialEq, Eq)]
pub struct Constant {
    pub number: u32,
    pub sign: Sign,
}

/// What is made of values. Each variant means what the one of its name means in the checked program.
#[derive(Drop)]
pub enum Operation<V> {
    Cast(Scalar, OperandItem<V>),
    Unary(UnaryOperator, Sign, OperandItem<V>),
    Not(Marked<V>),
    Binary(BinaryOperator, Sign, OperandItem<V>, OperandItem<V>),
    Comparison(ComparisonOperator, Sign, OperandItem<V>, OperandItem<V>),
    PointerComparison(ComparisonOperator, OperandItem<V>, OperandItem<V>),
    Logical(LogicalOperator, Marked<V>, Marked<V>),
    Conditional(Option<Scalar>, Marked<V>, OperandItem<V>, OperandItem<V>),
    /// Nothing takes the first value.
    Comma(Option<Scalar>, Marked<V>, Marked<V>),
    PointerOffset(Direction, Pointer, Marked<V>, Sign, OperandItem<V>),
    IndexPlusPointer(Pointer, Sign, OperandItem<V>, Marked<V>),
    PointerDifference(Pointer, Marked<V>, Marked<V>),
    LeftmostBit(OperandItem<V>, OperandItem<V>),
    Delay(Delay),
    Halt,
}

/// What is made of a place and a value.
#[derive(Drop)]
pub enum Assignment<V, P> {
    Assign(Access, Marked<P>, OperandItem<V>),
    AssignWith(BinaryOperator, Sign, Access, Marked<P>, OperandItem<V>),
    OffsetAssign(Direction, Pointer, Access, Marked<P>, Sign, OperandItem<V>),
}

/// What is made of a place.
#[derive(Drop)]
pub enum PlaceUse<P> {
    Address(PointerKind, Marked<P>),
    Step(StepValue, Direction, Access, Marked<P>),
    PointerStep(StepValue, Direction, Pointer, Access, Marked<P>),
    ScratchpadIn(ScratchpadRegister, Marked<P>),
    /// What a variable of this type holds goes out.
    ScratchpadOut(ScratchpadRegister, Scalar, Marked<P>),
}

/// What is taken from a place, at its own node.
#[derive(Drop)]
pub enum Taken<P> {
    Read(Access, P),
    ArrayPointer(Pointer, u32, P),
}

/// A call of a function.
#[derive(Drop)]
pub struct Call<A> {
    pub function: FunctionId,
    pub result: CallResult,
    pub arguments: A,
}

/// A whole object, or a register.
#[derive(Clone, Copy, Debug, PartialEq, Eq)]
pub enum Whole {
    Local(LocalId),
    Global(ObjectId),
    Volatile(u32),
    Register(Register),
}

/// A place to which a value leads.
#[derive(Drop)]
pub enum Reached<V> {
    Dereference(Marked<V>),
    Subscript(Pointer, Marked<V>, Sign, OperandItem<V>),
    Arrow(Marked<V>, Offset),
}

/// A part of a place.
#[derive(Drop)]
pub struct Inner<P> {
    pub whole: Marked<P>,
    pub offset: Offset,
}
