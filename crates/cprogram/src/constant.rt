ghost use Rattle.std.specs.Prelude.{◌≤◌};

use crate::number::ObjectId;
use crate::pointer::{Element, Offset};

/// A plain pointer that a source gives as a constant: an element of an array of a file object, or the place one past its last.
#[derive(Clone, Copy, Debug, PartialEq, Eq)]
pub struct PointerConstant {
    pub object: ObjectId,
    /// Where the array begins in the object.
    pub first: Offset,
    pub element: Element,
    /// How many elements the array has. A single object is an array of one.
    pub count: u32,
    pub index: u32,
    pub ghost within: { index ≤ count },
}

/// What a leaf of a file object holds at first.
#[derive(Clone, Copy, Debug, PartialEq, Eq)]
pub enum Constant {
    /// A number of the leaf's width.
    Number(u32),
    Null,
    Address(u32),
    Pointer(PointerConstant),
}

/// First values of leaves in a row.
#[derive(Clone, Copy, Debug, PartialEq, Eq)]
pub enum FirstValue {
    /// Of one leaf.
    Constant(Constant),
    /// So many leaves of 0: the number, the null pointer or the address.
    Zeros(u32),
}
