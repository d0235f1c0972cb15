//! The machine of two cores: a cycle at a time, under a cycle table and a host script.
#![tactic(auto)]

mod acts;
mod laws;
mod load;
mod machine;
mod outcome;
mod passed;
mod ram;
mod setup;
mod side;
mod spot;
mod store;
#[cfg(test)]
mod tests;
mod turn;
mod world;

pub use laws::{alone_laws, cycle_laws, own_laws, restart_laws, stamp_laws};
pub use machine::Machine;
pub use outcome::{Outcome, Trace, View};
