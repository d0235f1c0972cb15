//! A core alone, over a list of the values that it reads; and the step of a core over the items of an assembly program.
#![tactic(auto)]

mod laws;

pub use laws::{alone_laws, follow_laws, size_laws, word_laws};
