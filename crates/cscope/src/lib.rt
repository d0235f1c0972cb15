//! What the names of a source stand for at a place: the nearest declaration of each. Finding it takes constant time.
#![tactic(auto)]

mod entry;
mod scope;
mod slot;

pub use entry::{Entry, NameId, Named};
pub use scope::Scope;

#[cfg(test)]
mod tests;
