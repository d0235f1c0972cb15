//! Whole runs of the machine, and samples of what it shows.
#![tactic(auto)]

mod runs;
#[cfg(test)]
mod tests;

pub use runs::{begun_again, in_pieces};
