//! Numbers of 1, 2 and 4 bytes, and the one free answer of every layer: want of memory.
#![tactic(auto)]

mod little_endian;
mod memory;
mod number;
mod width;

pub use little_endian::{append_halves, append_words, from_bytes, low_bytes, u16_at, u32_at};
pub use memory::Memory;
pub use number::{quot_s, quot_u, rem_s, rem_u, sext, shl, shr_s, shr_u, wrap};
pub use width::{Width, bytes, width_of};
