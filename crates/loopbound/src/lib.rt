//! The bounds of sums along paths through loops that are run a given number of times, from one pass over the steps.
#![tactic(auto)]

mod graph;
mod joining;
mod judge;
mod laws;
mod onepass;
mod sums;

pub use graph::{Bounds, Loop, Move, Side, Step, TimedLoop};
pub use judge::{fits, keeps_bounds, label_of, meets, tight};
pub use laws::{exact_labels, exactness, long_path, soundness};
pub use onepass::{Passed, pass};
pub use sums::{can_go, dues, gains, have_turns, turns_none};

#[cfg(test)]
mod tests;
