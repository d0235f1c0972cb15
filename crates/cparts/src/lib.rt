//! What the productions of a C source are made into, and a production's parts, taken in order.
#![tactic(auto)]

mod fault;
mod part;
mod parts;
mod value;

pub use fault::MakeFault;
pub use part::FromValue;
pub use parts::{boxed_two, four, none, one, three, two};
pub use value::{ExternalRest, ObjectRest, Value};
