use crate::name::Name;

/// A trace buffer: its name, and where it lies in memory.
#[derive(Debug, Drop)]
pub struct Trace {
    pub name: Name,
    /// The address of its first byte.
    pub addr: u32,
    /// Its bytes.
    pub len: u32,
}
