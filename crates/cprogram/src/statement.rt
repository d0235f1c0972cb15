ghost use Rattle.std.specs.Prelude.{◌≤◌};

use crate::number::{LocalId, RegionId};
use crate::value::{Operand, Value};
use csyn::Mark;

/// How often the body of a constant-count loop runs, each time that the loop is come to.
#[derive(Clone, Copy, Debug, PartialEq, Eq)]
pub struct Turns {
    pub count: u32,
    pub ghost some_turn: { 1 ≤ count },
}

/// What the leaves of a local array or struct are set to at its declaration, in their order.
#[derive(Debug)]
pub enum LeafValues {
    End,
    /// The next leaf, by its expression.
    Value(Box<Operand>, Box<LeafValues>),
    /// So many leaves that the initialiser leaves out: to 0.
    Zeros(u32, Box<LeafValues>),
}

impl Drop for LeafValues {
    fn drop(mut self) {
        loop {
            match self {
                LeafValues::End => return,
                LeafValues::Value(_, rest) => self = Box::into_inner(rest),
                LeafValues::Zeros(_, rest) => self = Box::into_inner(rest),
            }
        }
    }
}

/// The initialiser of a local (C99 6.7.8).
#[derive(Debug)]
pub enum Initialiser {
    /// Of an integer or a pointer.
    Scalar(Box<Operand>),
    /// Of an array or a struct.
    Leaves(LeafValues),
}

impl Drop for Initialiser {
    fn drop(self) {
        match self {
            Initialiser::Scalar(_) => {}
            Initialiser::Leaves(_) => {}
        }
    }
}

/// One declarator of a declaration of locals. The local is unset by it, and then set by its initialiser.
#[derive(Debug)]
pub struct Declaration {
    /// That of the whole declaration.
    pub mark: Mark,
    pub local: LocalId,
    pub initialiser: Option<Initialiser>,
}

impl Drop for Declaration {
    fn drop(self) {
        let Declaration {
            mark: _,
            local: _,
            initialiser: _,
        } = self;
    }
}

#[derive(Debug)]
pub enum Declarations {
    End,
    More(Box<Declaration>, Box<Declarations>),
}

impl Drop for Declarations {
    fn drop(mut self) {
        loop {
            match self {
                Declarations::End => return,
                Declarations::More(_, rest) => self = Box::into_inner(rest),
            }
        }
    }
}

/// What stands first in the parentheses of a `for`.
#[derive(Debug)]
pub enum ForFirst {
    Declarations(Declarations),
    Expression(Option<Box<Value>>),
}

impl Drop for ForFirst {
    fn drop(self) {
        match self {
            ForFirst::Declarations(_) => {}
            ForFirst::Expression(_) => {}
        }
    }
}

/// A statement (C99 6.8).
#[cycle(stmt)]
#[derive(Debug)]
pub struct Stmt {
    pub mark: Mark,
    pub kind: StmtKind,
}

impl Drop for Stmt {
    #[cycle(stmt)]
    fn drop(self) {
        let Stmt { mark: _, kind: _ } = self;
    }
}

#[cycle(stmt)]
#[derive(Debug)]
pub enum StmtKind {
    Block(Items),
    Expression(Option<Box<Value>>),
    If(Box<Value>, Box<Stmt>),
    IfElse(Box<Value>, Box<Stmt>, Box<Stmt>),
    While(Box<Value>, Box<Stmt>),
    /// The body, and the condition behind it.
    Do(Box<Stmt>, Box<Value>),
    /// What stands first, the condition, what is done behind each turn, the body, and the turns of a constant-count loop.
    For(ForFirst, Option<Box<Value>>, Option<Box<Value>>, Box<Stmt>, Option<Turns>),
    /// The number that is compared, of four bytes, and the labels and statements. They are none or begin with a label.
    Switch(Box<Operand>, SwitchItems),
    Break,
    Continue,
    Return(Option<Box<Operand>>),
    Region(RegionId, Items),
}

impl Drop for StmtKind {
    #[cycle(stmt)]
    fn drop(self) {
        match self {
            StmtKind::Block(_) => {}
            StmtKind::Expression(_) => {}
            StmtKind::If(_, _) => {}
            StmtKind::IfElse(_, _, _) => {}
            StmtKind::While(_, _) => {}
            StmtKind::Do(_, _) => {}
            StmtKind::For(_, _, _, _, _) => {}
            StmtKind::Switch(_, _) => {}
            StmtKind::Break => {}
            StmtKind::Continue => {}
            StmtKind::Return(_) => {}
            StmtKind::Region(_, _) => {}
        }
    }
}

/// The items of a block, with an item for each declarator.
#[cycle(stmt)]
#[derive(Debug)]
pub enum Items {
    End,
    Declaration(Box<Declaration>, Box<Items>),
    Statement(Box<Stmt>, Box<Items>),
}

impl Drop for Items {
    #[cycle(stmt)]
    fn drop(mut self) {
        loop {
            match self {
                Items::End => return,
                Items::Declaration(_, rest) => self = Box::into_inner(rest),
                Items::Statement(_, rest) => self = Box::into_inner(rest),
            }
        }
    }
}

/// The labels and statements of a `switch`, in their order.
#[cycle(stmt)]
#[derive(Debug)]
pub enum SwitchItems {
    End,
    /// `case` with its number, converted to the type that the `switch` compares in.
    Case(Mark, u32, Box<SwitchItems>),
    Default(Mark, Box<SwitchItems>),
    Statement(Box<Stmt>, Box<SwitchItems>),
}

impl Drop for SwitchItems {
    #[cycle(stmt)]
    fn drop(mut self) {
        loop {
            match self {
                SwitchItems::End => return,
                SwitchItems::Case(_, _, rest) => self = Box::into_inner(rest),
                SwitchItems::Default(_, rest) => self = Box::into_inner(rest),
                SwitchItems::Statement(_, rest) => self = Box::into_inner(rest),
            }
        }
    }
}
