//! Where an address leads.

ghost use Rattle.std.specs.Prelude.{◌≡◌};
ghost use Rattle.twocore.specs.Memory.{spot_of};

/// The memory that an address is in, as a core sees it, and the place in it.
#[derive(Clone, Copy, Debug, PartialEq, Eq)]
pub enum Spot {
    /// The core's own data RAM.
    Own(u16),
    /// The other core's data RAM.
    Other(u16),
    /// The shared RAM.
    Shared(u16),
    /// The interrupt controller.
    Controller(u16),
    /// The memory outside.
    Outside(u16),
    /// What reads 0 and ignores writes.
    Nothing,
}

impl Spot {
    pub fn of(addr: u32) -> Spot
        ensures { result ≡ spot_of addr }
    {
        if addr < 0x2000 {
            Spot::Own(addr as u16)
        } else if addr < 0x4000 {
            Spot::Other((addr - 0x2000) as u16)
        } else if 0x1_0000 <= addr && addr <= 0x1_2fff {
            Spot::Shared((addr - 0x1_0000) as u16)
        } else if 0x2_0000 <= addr && addr <= 0x2_1fff {
            Spot::Controller((addr - 0x2_0000) as u16)
        } else if 0x8_0000 <= addr && addr <= 0x8_ffff {
            Spot::Outside((addr - 0x8_0000) as u16)
        } else {
            Spot::Nothing
        }
    }
}
