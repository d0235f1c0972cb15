//! The tokens of a C source (C99 6.4, in this project's subset), each with its place, or the first rule that the source breaks.
#![tactic(auto)]

mod bytes;
mod comment;
mod fault;
mod laws;
mod lexer;
mod number;
mod piece;
mod place;
mod quoted;
mod span;
mod table;

pub use laws::{longest_match, one_reading, tokens_or_fault};
pub use lexer::tokens;

#[cfg(test)]
mod tests;
