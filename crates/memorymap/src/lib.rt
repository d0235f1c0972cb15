//! Where a core's volatile accesses may go: the windows of its memory map (AM335x reference manual, chapter PRU-ICSS).
#![tactic(auto)]

mod windows;

pub use windows::{in_own_window, in_window};
