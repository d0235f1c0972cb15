//! The instructions of a PRU core as this project keeps them, and their words.
#![tactic(auto)]

mod access;
mod control;
mod decoding;
mod encoding;
mod field;
mod image;
mod inst;
mod note;
mod program;
mod row;
#[cfg(test)]
mod tests;
mod transfer;
mod whole;

pub use access::{Access, Base, Constant};
pub use control::{BranchOffset, Condition, Jump, LoopBody};
pub use decoding::decode;
pub use encoding::encode;
pub use field::{Field, Operand, Part};
pub use image::{Image, are_ordered, is_image, is_placed, stands};
pub use inst::{AluOp, Inst};
pub use note::{Note, NoteKind};
pub use program::{AsmProgram, Item, Line, Ref, Relocation, Target, Words};
pub use transfer::{Bank, Transfer};
pub use whole::is_whole;
