use crate::name::Name;

/// A file that is written, and its bytes.
#[derive(Debug, Drop)]
pub struct Output {
    pub name: Name,
    pub bytes: Vec<u8>,
}
