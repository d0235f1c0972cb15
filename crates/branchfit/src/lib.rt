//! From the items of an assembly program to words: which branches are far, and the LOOPs whose bodies a word can't tell.
#![tactic(auto)]

mod far;
mod fitting;
mod laws;
mod laying;
mod layout;
mod loops;
mod spot;
#[cfg(test)]
mod tests;

pub use fitting::{FitFault, fit};
pub use laws::fit_laws;
pub use loops::long_loop;
pub use spot::{Reach, Spot};
