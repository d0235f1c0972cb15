//! Expressions as they are read. What they are in the checked program is left open: `V` is what values are there, `P` what places are.

use cprogram::{AccessKind, Conversion, Integer, PointerKind, Scalar};
use csyn::Mark;
use ctypes::CType;

/// What a node of the tree is read as.
#[derive(Drop)]
pub struct Marked<N> {
    pub mark: Mark,
    pub kind: N,
}

/// An expression that is evaluated to a value, or to none where its type is void.
#[derive(Drop)]
pub struct ValueItem<V> {
    pub ctype: CType,
    /// Where it is a constant: a number of its type's width.
    pub number: Option<u32>,
    /// How many elements it points to the first of, where it is an array in the own window by its name.
    pub own: Option<u32>,
    pub value: Marked<V>,
}

/// An expression that names an object or a part of one.
#[derive(Drop)]
pub struct PlaceItem<P> {
    pub ctype: CType,
    /// Where an access at it goes.
    pub reach: AccessKind,
    /// Whether it is a plain object by its name.
    pub is_variable: bool,
    pub place: Marked<P>,
}

/// An expression.
#[derive(Drop)]
pub enum Item<V, P> {
    Value(ValueItem<V>),
    Place(PlaceItem<P>),
}

/// A value of an integer type.
#[derive(Drop)]
pub struct IntegerItem<V> {
    pub integer: Integer,
    pub number: Option<u32>,
    pub value: Marked<V>,
}

/// A value that is a pointer.
#[derive(Drop)]
pub struct PointerItem<V> {
    pub kind: PointerKind,
    pub target: CType,
    pub own: Option<u32>,
    pub value: Marked<V>,
}

/// A value, and what it becomes where it stands.
#[derive(Drop)]
pub struct OperandItem<V> {
    pub conversion: Conversion,
    pub value: Marked<V>,
}

/// A place that may be written: of a scalar type that isn't const.
#[derive(Drop)]
pub struct TargetItem<P> {
    pub scalar: Scalar,
    pub ctype: CType,
    pub reach: AccessKind,
    pub place: Marked<P>,
}
