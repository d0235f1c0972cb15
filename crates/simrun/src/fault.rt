ghost use Rattle.std.specs.Prelude.{◌≡◌};
ghost use Rattle.simrun.specs.declared.fault.SimFault.TheVariants.{NoMemory};

use hostscript::ScriptCause;
use pruelf::LoadCause;
use prunum::Memory;
use thiserror::Error;

/// Why two executables were not run: the first fault, of core 0's executable, then core 1's, then the script.
#[derive(Clone, Copy, Debug, PartialEq, Eq, Error)]
pub enum SimFault {
    /// The first fault of this core's executable, with the offset of the field's first byte.
    #[error("the executable of core {core}: {cause:?} at offset {offset}")]
    Elf {
        core: u8,
        offset: u32,
        cause: LoadCause,
    },
    /// The first bad line of the script, from 1.
    #[error("line {line} of the script: {cause:?}")]
    Script {
        line: u32,
        cause: ScriptCause,
    },
    #[error("memory")]
    NoMemory,
}

impl From<Memory> for SimFault {
    ghost from_gives = { λ _ e. e ≡ NoMemory };

    fn from(_: Memory) -> Self {
        SimFault::NoMemory
    }
}
