ghost use Rattle.std.specs.Prelude.{◌≡◌};
ghost use Rattle.memorymap.specs.Windows as windows;

/// Whether this address lies in the window of the core's own data RAM.
pub fn in_own_window(address: u32) -> bool
    ensures { result ≡ windows.in_own_window address }
{
    matches!(address, 0x1e00..=0x1fff)
}

/// Whether this address lies in one of the windows: that of the core's own data RAM, that of the other core's, the shared RAM, the
/// interrupt controller, the configuration registers, the memory outside.
pub fn in_window(address: u32) -> bool
    ensures { result ≡ windows.in_window address }
{
    in_own_window(address)
        || matches!(
            address,
            0x3e00..=0x3fff
                | 0x10000..=0x12fff
                | 0x20000..=0x21fff
                | 0x26000..=0x27fff
                | 0x80000..=0x8ffff
        )
}
