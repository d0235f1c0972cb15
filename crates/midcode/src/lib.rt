//! Typed operations: the middle of the compiler. A function is a list of operations over virtual registers of 1, 2 and 4 bytes.
#![tactic(auto)]

mod function;
mod laws;
mod object;
mod op;
mod program;
mod register;
mod signature;
#[cfg(test)]
mod tests;

pub use function::{MOST, MidFn};
pub use laws::{charges, weights};
pub use object::{FirstPart, Object};
pub use op::{
    Base, BinaryOp, CoreRegister, Mark, Op, OpKind, Operand, Test, UnaryOp, VolatileBase,
};
pub use program::{MidProgram, ProgramParts};
pub use register::{Label, Registers, VReg};
pub use signature::Signature;
