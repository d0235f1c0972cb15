//! What a core does that can be seen from outside, and the texts that tell it.
#![tactic(auto)]

mod event;
mod fault;
mod line;
mod print;
mod read;

pub use event::{Event, Place, Stamped};
pub use fault::EventsFault;
pub use line::read_event;
pub use print::{print_events, print_trace};
pub use read::read_events;

#[cfg(test)]
mod tests;
