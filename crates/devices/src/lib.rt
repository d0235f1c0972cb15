//! What stands round the cores beside their memories: the interrupt controller, the pads and the pins.
#![tactic(auto)]

mod intc;
mod pads;
mod pins;
mod register;
#[cfg(test)]
mod tests;

pub use intc::Intc;
pub use pads::Pads;
pub use pins::Pins;
