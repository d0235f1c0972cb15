//! From tokens to trees (C99 6.5 to 6.9, in this project's subset).
#![tactic(auto)]

mod build;
mod laws;
mod levels;
mod parser;

pub use laws::{one_first_deep, one_reading, tree_or_fault};
pub use parser::parse;

#[cfg(test)]
mod tests;
