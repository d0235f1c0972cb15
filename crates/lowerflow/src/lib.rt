//! The code of expressions and statements, made of the codes of their parts, and what it does.
#![tactic(auto)]

mod theorems;

pub use theorems::{choices, expressions, loops, statements};
