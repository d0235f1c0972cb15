//! The broken rules of a source: which of them is reported, and how a rule is written as what it asks of parts that are read
//! already.
#![tactic(auto)]

mod asked;
mod fault;
pub mod laws;
mod rule;

pub use asked::{Asked, judge};
pub use fault::{Fault, Faults};
pub use rule::rule_number;

#[cfg(test)]
mod tests;
