//! The calling convention: where arguments stand, and what the frame of a function has room for. It follows the PRU C compiler guide
//! (SPRUHV7) in its registers: the first argument from R14 on, the result in R14, the return address in R3.w2.
#![tactic(auto)]

mod arguments;
mod frames;
mod room;
#[cfg(test)]
mod tests;

pub use arguments::{ArgPlaces, field_at, places};
pub use frames::frame;
pub use room::{FRAME_BYTES, FrameRoom};
