//! The live spans of a function's virtual registers, and homes for them.
#![tactic(auto)]

mod area;
mod flow;
mod homes;
mod mentions;
mod operations;
mod search;
mod spans;

pub use homes::allocate;
pub use spans::intervals;

#[cfg(test)]
mod tests;
