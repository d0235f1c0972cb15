//! The grammar of C (C99 6.5 to 6.9, in this project's subset): its productions, and what its texts are.
#![tactic(auto)]

mod kind;
mod production;
mod terminal;

pub use kind::Kind;
pub use production::{Level, Production, Word, Words};
pub use terminal::Terminal;

#[cfg(test)]
mod tests;
