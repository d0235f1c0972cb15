use crate::text::Text;

/// A type name of `<stdint.h>` (C99 7.18.1.1).
#[derive(Clone, Copy, Debug, PartialEq, Eq)]
pub enum StandardInteger {
    Int8,
    Uint8,
    Int16,
    Uint16,
    Int32,
    Uint32,
}

#[derive(Clone, Copy, Debug, PartialEq, Eq)]
pub enum Sign {
    Signed,
    Unsigned,
}

#[derive(Clone, Copy, Debug, PartialEq, Eq)]
pub enum Length {
    Char,
    Short,
    Long,
}

/// The words of an integer type (C99 6.7.2), in any order. The word `int` adds nothing.
#[derive(Clone, Copy, Debug, PartialEq, Eq)]
pub struct IntegerWords {
    pub sign: Option<Sign>,
    pub length: Option<Length>,
}

/// What a declaration's words name, its qualifiers aside.
#[derive(Drop)]
pub enum Base {
    Void,
    /// A struct by its tag.
    Struct(Text),
    Standard(StandardInteger),
    Integer(IntegerWords),
}

/// The words in front of a declaration (C99 6.7): a type as it is written.
#[derive(Drop)]
pub struct Specifiers {
    pub is_static: bool,
    pub is_inline: bool,
    pub is_const: bool,
    pub is_volatile: bool,
    pub base: Base,
}

/// A `*` with its qualifiers (C99 6.7.5.1).
#[derive(Clone, Copy, Debug, PartialEq, Eq)]
pub struct Pointer {
    pub is_const: bool,
    pub is_volatile: bool,
}

/// The pointers of a declarator. The last `*` is outermost: `* const *` is a plain pointer to a const one.
pub enum Pointers {
    End,
    To(Box<Pointers>, Pointer),
}

impl Drop for Pointers {
    fn drop(mut self) {
        loop {
            match self {
                Pointers::End => return,
                Pointers::To(inner, _) => self = Box::into_inner(inner),
            }
        }
    }
}

/// A type name (C99 6.7.6).
#[derive(Drop)]
pub struct TypeName {
    pub specifiers: Specifiers,
    pub pointers: Pointers,
}
