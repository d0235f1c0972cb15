ghost use Rattle.std.specs.Prelude.{◌≡◌, ◌+◌, ◌^◌, ◌<◌, ◌++◌, map, All, OnOk};
ghost use Rattle.cprogram.specs.Layout.{moved};
ghost use Rattle.ctypes.specs.Room.{wider};

use cprogram::Leaf;
use prunum::Width;
use std::alloc::AllocError;

// Leaves behind others, so many bytes further.
pub fn push_moved(out: &mut Vec<Leaf>, leaves: &[Leaf], at: u32) -> Result<(), AllocError>
    requires { All (λ l. at + l.offset < 2 ^ 32) leaves.now }
    ensures { OnOk result (out.new.items ≡ out.old.items ++ map (moved at) leaves.now) }
{
    for leaf in leaves {
        out.push(Leaf {
            scalar: leaf.scalar,
            offset: at + leaf.offset,
        })?;
    }
    Ok(())
}

pub fn wider(v: Width, w: Width) -> Width
    ensures { result ≡ wider v w }
{
    match (v, w) {
        (Width::B1, _) => w,
        (Width::B2, Width::B1 | Width::B2) => Width::B2,
        (Width::B2, Width::B4) | (Width::B4, _) => Width::B4,
    }
}
