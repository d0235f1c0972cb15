/// The qualifiers of a type (C99 6.7.3).
#[derive(Clone, Copy, Debug, PartialEq, Eq)]
pub struct Qualifiers {
    pub is_const: bool,
    pub is_volatile: bool,
}

impl Qualifiers {
    pub const NONE: Qualifiers = Qualifiers {
        is_const: false,
        is_volatile: false,
    };
}

/// How a type is derived from the one behind it (C99 6.2.5).
#[derive(Clone, Copy, Debug, PartialEq, Eq)]
pub enum Step {
    /// A pointer to it, with the pointer's own qualifiers.
    Pointer(Qualifiers),
    /// An array of so many of it.
    Array(u32),
}
