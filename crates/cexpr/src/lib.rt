//! What expressions say: each kind of expression as what it asks of its parts and what it makes of them.
#![tactic(auto)]

mod ask;
mod assignment;
mod calls;
mod cast;
mod choice;
mod compare;
mod constants;
mod integers;
mod intrinsics;
mod item;
mod meaning;
mod members;
mod name;
mod node;
mod number;
mod pair;
mod place;
mod prefix;
mod scratchpad;
mod sum;
mod taken;
mod truth;
mod update;

pub use assignment::assign;
pub use calls::{argument, called};
pub use cast::{casted, expression_size, type_size};
pub use choice::{comma, condition, conditional};
pub use compare::comparison;
pub use constants::{MAX_LENGTH, array_length, case_number, wanted, word};
pub use integers::binary;
pub use intrinsics::{delayed, halted, leftmost};
pub use item::{Item, Marked, OperandItem, PlaceItem, ValueItem};
pub use meaning::{Intrinsic, Meaning, Signature};
pub use members::{arrow, member};
pub use name::named;
pub use node::{Assignment, Call, Constant, Inner, Operation, PlaceUse, Reached, Taken, Whole};
pub use place::{address, dereferenced, indexed};
pub use prefix::{constant, negated, unary};
pub use scratchpad::{scratchpad_in, scratchpad_out, scratchpad_register};
pub use sum::add;
pub use taken::place_used;
pub use truth::logical;
pub use update::{assign_with, step};

#[cfg(test)]
mod tests;
