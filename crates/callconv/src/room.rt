/// The bytes of a frame.
pub const FRAME_BYTES: u32 = 88;

/// The room of a function in the core's own RAM, a multiple of 4: R5 to R13 and the return address, which it keeps for its caller, and R14
/// to R25, which it keeps over its own calls. Frames are static.
#[derive(Clone, Copy)]
pub struct FrameRoom {
    pub bytes: u32,
}
