//! Tidying programs of operations: operations on known numbers are computed before the run, and values that nobody reads no longer.
#![tactic(auto)]

mod folding;
mod laws;
mod numbers;
#[cfg(test)]
mod tests;
mod unread;
mod whole;

pub use folding::fold;
pub use laws::region_laws;
pub use unread::take_unread;
pub use whole::{Tidied, tidy, tidy_function};
