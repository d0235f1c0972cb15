use crate::name::Name;

/// A file that is read, and the most bytes that it may have.
#[derive(Debug, Drop)]
pub struct Input {
    pub name: Name,
    pub most: u32,
}
