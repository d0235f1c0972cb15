//! The checked program: what a C source says, once it keeps the rules. Each name is an object's or a function's number, each type a
//! layout, each implied conversion a mark on the way to its operand.
#![tactic(auto)]

mod access;
mod arithmetic;
mod constant;
mod layout;
mod number;
mod pointer;
mod program;
mod scalar;
mod statement;
mod table;
mod value;

pub use access::{Access, AccessKind, Register, ScratchpadRegister};
pub use arithmetic::{binary, compare, convert, meant, unary, widened};
pub use constant::{Constant, FirstValue, PointerConstant};
pub use layout::{Layout, Leaf, MAX_OBJECT_BYTES};
pub use number::{FunctionId, LocalId, ObjectId, RegionId};
pub use pointer::{Direction, Element, Offset, Pointer, PointerKind};
pub use program::{FileObject, Function, MAX_PARAMETERS, MAX_REGIONS, Program, Storage};
pub use scalar::{Conversion, Integer, Scalar};
pub use statement::{
    Declaration, Declarations, ForFirst, Initialiser, Items, LeafValues, Stmt, StmtKind,
    SwitchItems, Turns,
};
pub use table::Table;
pub use value::{
    CallResult, Delay, Operand, Operands, Place, PlaceKind, StepValue, UnaryOperator, Value,
    ValueKind,
};

#[cfg(test)]
mod tests;
