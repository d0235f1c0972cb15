//! What operations on values become, where their operands and their results have homes: instructions on fields and slots that do what the
//! operation does.
#![tactic(auto)]

mod laws;

pub use laws::{value_laws, word_laws};
