use prunum::Width;

/// What a script does from outside in a cycle.
#[derive(Clone, Copy, Debug, PartialEq, Eq)]
pub enum Action {
    /// Writes memory at an address as core 0 sees it.
    Poke { addr: u32, width: Width, value: u32 },
    /// Sets the 16 input pins of a core, 0 or 1.
    Pins { core: u8, bits: u16 },
    /// Signals a system event below 64.
    Event(u8),
    /// Starts a core, 0 or 1.
    Start(u8),
}

/// An action and its cycle, 0 to 1,999,999.
#[derive(Clone, Copy, Debug, PartialEq, Eq)]
pub struct Act {
    pub cycle: u32,
    pub action: Action,
}
