use crate::declaration::{Members, Object, Parameters};
use crate::mark::Mark;
use crate::specifiers::{Pointers, Specifiers};
use crate::statement::Items;
use crate::text::Text;

/// What a function's prototype and its definition begin with.
#[derive(Drop)]
pub struct Head {
    pub specifiers: Specifiers,
    pub pointers: Pointers,
    pub name: Text,
    pub parameters: Parameters,
}

#[derive(Drop)]
pub enum UnitKind {
    /// A struct by its tag, and its members.
    Struct(Text, Members),
    /// One of the two declarations of the registers `__R30` and `__R31`.
    Register,
    Object(Object),
    Prototype(Head),
    Function(Head, Items),
}

/// A declaration or definition at the outermost level (C99 6.9).
#[derive(Drop)]
pub struct Unit {
    pub mark: Mark,
    pub kind: UnitKind,
}

pub enum Units {
    End,
    More(Box<Unit>, Box<Units>),
}

impl Drop for Units {
    fn drop(mut self) {
        loop {
            match self {
                Units::End => return,
                Units::More(_, rest) => self = Box::into_inner(rest),
            }
        }
    }
}
