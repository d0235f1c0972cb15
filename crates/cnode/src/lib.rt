//! What is read of an expression, as nodes of the checked program. One allocation a node and operand.
#![tactic(auto)]

mod boxes;
mod call;
mod kind;
mod operation;
mod place;
mod placed;

pub use call::call_node;
pub use kind::{ArgumentNodes, PlaceNode, ValueNode};
pub use operation::{constant_node, operation_node};
pub use place::{inner_node, reached_node, whole_node};
pub use placed::{assignment_node, taken_node, use_node};

#[cfg(test)]
mod tests;
