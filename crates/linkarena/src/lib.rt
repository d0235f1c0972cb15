//! Lists of values in one arena, linked by index: each push, move and unlink takes constant time.
#![tactic(auto)]

mod arena;
mod fault;
mod ids;
mod links;
#[cfg(test)]
mod tests;

pub use arena::{Arena, MOST_LISTS, MOST_NODES};
pub use fault::AddFault;
pub use ids::{ListId, NodeId};
