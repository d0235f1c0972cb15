//! Where virtual registers live: fields of R5 to R25, or slots in the core's own RAM.
#![tactic(auto)]

mod assign;
mod bytes;
mod home;
mod laws;
mod scan;
#[cfg(test)]
mod tests;

pub use assign::Assign;
pub use home::{Home, Interval};
pub use laws::one_span;
pub use scan::allocate_spans;
