ghost use Rattle.std.specs.Prelude.{◌<◌, ◌≤◌};

/// Whether a pointer's target is of a volatile type (C99 6.7.3).
#[derive(Clone, Copy, Debug, PartialEq, Eq)]
pub enum PointerKind {
    /// Null, or a place in an array of a plain object. A single object is an array of one.
    Plain,
    /// An absolute address.
    Volatile,
}

/// How far a part lies behind the beginning of what it is a part of: so many leaves, which are so many bytes with their padding.
#[derive(Clone, Copy, Debug, PartialEq, Eq)]
pub struct Offset {
    pub leaves: u32,
    pub bytes: u32,
    pub ghost no_empty_leaf: { leaves ≤ bytes },
}

/// The size of what a pointer points to, and so how far one step of it goes.
#[derive(Clone, Copy, Debug, PartialEq, Eq)]
pub struct Element {
    pub leaves: u32,
    pub bytes: u32,
    pub ghost some_leaf: { 0 < leaves },
    pub ghost no_empty_leaf: { leaves ≤ bytes },
}

/// A pointer's type, as far as its arithmetic goes.
#[derive(Clone, Copy, Debug, PartialEq, Eq)]
pub struct Pointer {
    pub kind: PointerKind,
    pub element: Element,
}

/// Which way a step goes.
#[derive(Clone, Copy, Debug, PartialEq, Eq)]
pub enum Direction {
    /// `+`, `+=` and `++`
    Up,
    /// `-`, `-=` and `--`
    Down,
}
