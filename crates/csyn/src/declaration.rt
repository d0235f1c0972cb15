use crate::expression::{Expr, Exprs};
use crate::mark::Mark;
use crate::specifiers::{Pointers, Specifiers};
use crate::text::Text;

/// A declared name with its pointers and array lengths (C99 6.7.5).
#[derive(Drop)]
pub struct Declarator {
    pub pointers: Pointers,
    pub name: Text,
    /// One for each pair of brackets, the outermost first.
    pub lengths: Exprs,
}

pub enum Declarators {
    End,
    More(Box<Declarator>, Box<Declarators>),
}

impl Drop for Declarators {
    fn drop(mut self) {
        loop {
            match self {
                Declarators::End => return,
                Declarators::More(_, rest) => self = Box::into_inner(rest),
            }
        }
    }
}

/// A declaration of members of a struct (C99 6.7.2.1).
#[derive(Drop)]
pub struct Member {
    pub specifiers: Specifiers,
    pub declarators: Declarators,
}

pub enum Members {
    End,
    More(Box<Member>, Box<Members>),
}

impl Drop for Members {
    fn drop(mut self) {
        loop {
            match self {
                Members::End => return,
                Members::More(_, rest) => self = Box::into_inner(rest),
            }
        }
    }
}

/// An initialiser (C99 6.7.8).
#[cycle(init)]
#[derive(Drop)]
pub enum Init {
    Expression(Box<Expr>),
    /// Initialisers in braces, which are a node.
    Braced(Mark, Box<Inits>),
}

#[cycle(init)]
pub enum Inits {
    End,
    More(Box<Init>, Box<Inits>),
}

impl Drop for Inits {
    #[cycle(init)]
    fn drop(mut self) {
        loop {
            match self {
                Inits::End => return,
                Inits::More(_, rest) => self = Box::into_inner(rest),
            }
        }
    }
}

/// A declarator of an object, with its location where it is placed at an address, and its first value.
#[derive(Drop)]
pub struct InitDeclarator {
    pub declarator: Declarator,
    pub location: Option<Box<Expr>>,
    pub init: Option<Box<Init>>,
}

pub enum InitDeclarators {
    End,
    More(Box<InitDeclarator>, Box<InitDeclarators>),
}

impl Drop for InitDeclarators {
    fn drop(mut self) {
        loop {
            match self {
                InitDeclarators::End => return,
                InitDeclarators::More(_, rest) => self = Box::into_inner(rest),
            }
        }
    }
}

/// A declaration of objects (C99 6.7).
#[derive(Drop)]
pub struct Object {
    pub specifiers: Specifiers,
    pub declarators: InitDeclarators,
}

/// A declaration of objects inside a function, which is a node.
#[derive(Drop)]
pub struct LocalObject {
    pub mark: Mark,
    pub object: Object,
}

/// A parameter of a function (C99 6.7.5.3).
#[derive(Drop)]
pub struct Parameter {
    pub specifiers: Specifiers,
    pub declarator: Declarator,
    /// Whether it is an array without a length, as `T p[]`. It has no lengths then.
    pub is_open_array: bool,
}

pub enum ParameterList {
    End,
    More(Box<Parameter>, Box<ParameterList>),
}

impl Drop for ParameterList {
    fn drop(mut self) {
        loop {
            match self {
                ParameterList::End => return,
                ParameterList::More(_, rest) => self = Box::into_inner(rest),
            }
        }
    }
}

#[derive(Drop)]
pub enum Parameters {
    /// `()`
    Empty,
    /// `(void)`
    Void,
    /// One or more.
    Some(ParameterList),
}
