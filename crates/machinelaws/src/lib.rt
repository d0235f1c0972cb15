//! Laws of the machine of two cores that stand above it.
#![tactic(auto)]

mod laws;

pub use laws::{dearest, least_laws};
