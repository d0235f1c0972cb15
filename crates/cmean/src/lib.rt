//! What a C program means: what it shows, step by step, given what its reads are answered with.
#![tactic(auto)]

mod laws;
mod undefined;

pub use laws::more_steps;
pub use undefined::{UndefinedCause, UndefinedStep};
