ghost use Rattle.std.specs.Prelude.{◌≡◌, IfSome};

/// A register of the interrupt controller, under what it does. Where there are several in a row, the number says which.
/// The name in the AM335x reference manual stands behind each.
#[derive(Clone, Copy, Debug, PartialEq, Eq)]
pub enum Register {
    /// GER
    GlobalEnable,
    /// SISR
    SetPending,
    /// SICR
    ClearPending,
    /// EISR
    EnableEvent,
    /// EICR
    DisableEvent,
    /// HIEISR
    EnableHost,
    /// HIDISR
    DisableHost,
    /// SRSR0 and SRSR1
    PendingBits(u32),
    /// SECR0 and SECR1
    ActiveBits(u32),
    /// ESR0 and ESR1
    EnabledBits(u32),
    /// CMR0 to CMR15
    Channels(u32),
    /// HMR0 to HMR2
    Hosts(u32),
}

impl Register {
    ghost use Rattle.devices.specs.Register.{register_at, IsPresent};

    /// The register at an offset from the controller's first byte.
    pub fn at(offset: u32) -> Option<Register>
        ensures register { result ≡ register_at offset }
        ensures present { IfSome result IsPresent }
    {
        match offset {
            0x010 => Some(Register::GlobalEnable),
            0x020 => Some(Register::SetPending),
            0x024 => Some(Register::ClearPending),
            0x028 => Some(Register::EnableEvent),
            0x02c => Some(Register::DisableEvent),
            0x034 => Some(Register::EnableHost),
            0x038 => Some(Register::DisableHost),
            0x200 | 0x204 => Some(Register::PendingBits((offset - 0x200) / 4)),
            0x280 | 0x284 => Some(Register::ActiveBits((offset - 0x280) / 4)),
            0x300 | 0x304 => Some(Register::EnabledBits((offset - 0x300) / 4)),
            0x400..=0x43c if offset % 4 == 0 => Some(Register::Channels((offset - 0x400) / 4)),
            0x800..=0x808 if offset % 4 == 0 => Some(Register::Hosts((offset - 0x800) / 4)),
            _ => None,
        }
    }
}
