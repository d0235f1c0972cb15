//! How large types are, by the structs that a source defines.
#![tactic(auto)]

mod size;
mod structure;

pub use size::{element_of, inner_element};
pub use structure::{Member, Structure};
