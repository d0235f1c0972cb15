use csyn::Span;

/// Why C leaves a step undefined. Where several apply, the first of them here is named.
#[derive(Clone, Copy, Debug, PartialEq, Eq, PartialOrd, Ord)]
pub enum UndefinedCause {
    /// A plain access or pointer is outside its array. The place one past its end may be formed, and not accessed.
    OutsideArray,
    /// A variable or a part of one is read that was not set.
    Unset,
    /// An access goes through a null pointer, or arithmetic is done on one.
    NullPointer,
    /// The address of a volatile access isn't a multiple of its width.
    Misaligned,
    /// A volatile access is outside the windows.
    OutsideWindows,
    /// Plain pointers into different arrays are subtracted or compared by order, or compared for equality where one is one past the end.
    DifferentArrays,
    /// The value of a call is used that returned none.
    NoValue,
    /// An access, arithmetic or a comparison by a pointer to an object of a call that has ended.
    EndedCall,
}

/// An undefined step: the first token of the node that makes it, and why it is one.
#[derive(Clone, Copy, Debug, PartialEq, Eq)]
pub struct UndefinedStep {
    pub span: Span,
    pub cause: UndefinedCause,
}
