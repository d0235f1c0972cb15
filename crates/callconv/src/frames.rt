ghost use Rattle.std.specs.Prelude.{◌≡◌, ◌+◌};
ghost use Rattle.callconv.specs.Frame.{saved_bytes, return_bytes, kept_bytes};

use crate::room::{FRAME_BYTES, FrameRoom};
use midcode::MidFn;

/// The frame of a function. It is the same for all, so that a function may call a helper anywhere.
pub fn frame(_function: &MidFn) -> FrameRoom
    ensures room { result.bytes ≡ saved_bytes + return_bytes + kept_bytes }
    ensures same { result.bytes ≡ FRAME_BYTES }
{
    FrameRoom { bytes: FRAME_BYTES }
}
