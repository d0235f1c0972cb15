//! What the lowering of C to operations keeps: when a state of the C meaning and one of the machine of operations are related, and what a
//! piece of code does.
#![tactic(auto)]

mod theorems;

pub use theorems::{acts, constants, conversions, events, locals, moves, operators, sequences};
