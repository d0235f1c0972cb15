use thiserror::Error;

/// Why a value was not added. Each hands it back.
#[derive(Debug, Drop, Error)]
pub enum AddFault<T> {
    /// The arena has as many nodes as it may have.
    #[error("the arena is full")]
    Full(T),
    #[error("memory")]
    Memory(T),
}
