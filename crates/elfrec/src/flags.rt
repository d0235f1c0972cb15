ghost use Rattle.std.specs.Prelude.{⊤, [], ◌∷◌, codes};

use bitflags::{Flag, Flags, bitflag_items};

/// The attributes of a section (`sh_flags`). Bits without a name are kept as they are.
#[derive(Clone, Copy, Debug, PartialEq, Eq)]
pub struct SectionFlags(u32);

bitflag_items! {
    impl SectionFlags: u32 {
        /// It can be written while the program runs.
        const WRITE = 1;
        /// It is in memory while the program runs.
        const ALLOC = 2;
        /// It holds instructions.
        const EXECINSTR = 4;
    }
}

impl Flags for SectionFlags {
    type Bits = u32;

    ghost exact = { ⊤ };

    ghost table = { (codes "WRITE", 1) ∷ (codes "ALLOC", 2) ∷ (codes "EXECINSTR", 4) ∷ [] };

    ghost set_of = { λ flags. flags.0 };

    fn flags<'a>() -> &'a [Flag<SectionFlags>] {
        SectionFlags::FLAGS
    }

    fn bits(&self) -> u32 {
        self.0
    }

    fn from_bits_retain(bits: u32) -> SectionFlags {
        SectionFlags(bits)
    }
}
