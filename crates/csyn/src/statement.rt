use crate::declaration::LocalObject;
use crate::expression::Expr;
use crate::mark::Mark;
use crate::text::Text;

/// A statement (C99 6.8).
#[cycle(stmt)]
#[derive(Drop)]
pub struct Stmt {
    pub mark: Mark,
    pub kind: StmtKind,
}

/// What stands first in the parentheses of a `for`.
#[derive(Drop)]
pub enum ForFirst {
    Object(Box<LocalObject>),
    Expression(Option<Box<Expr>>),
}

/// What a `case` or a `default` of a `switch` is (C99 6.8.1).
#[derive(Drop)]
pub enum LabelKind {
    /// `case` and its constant.
    Case(Box<Expr>),
    Default,
}

/// A label of a `switch`, which is a node and no statement.
#[derive(Drop)]
pub struct Label {
    pub mark: Mark,
    pub kind: LabelKind,
}

#[cycle(stmt)]
#[derive(Drop)]
pub enum StmtKind {
    Block(Items),
    Expression(Option<Box<Expr>>),
    If(Box<Expr>, Box<Stmt>),
    IfElse(Box<Expr>, Box<Stmt>, Box<Stmt>),
    While(Box<Expr>, Box<Stmt>),
    /// The body, and the condition behind it.
    Do(Box<Stmt>, Box<Expr>),
    For(ForFirst, Option<Box<Expr>>, Option<Box<Expr>>, Box<Stmt>),
    /// The expression, and the labels and statements in the braces. They are none or begin with a label.
    Switch(Box<Expr>, SwitchItems),
    Break,
    Continue,
    Return(Option<Box<Expr>>),
    /// A region by its name, and its block.
    Region(Text, Items),
}

/// The items of a block.
#[cycle(stmt)]
pub enum Items {
    End,
    Object(Box<LocalObject>, Box<Items>),
    Statement(Box<Stmt>, Box<Items>),
}

impl Drop for Items {
    #[cycle(stmt)]
    fn drop(mut self) {
        loop {
            match self {
                Items::End => return,
                Items::Object(_, rest) => self = Box::into_inner(rest),
                Items::Statement(_, rest) => self = Box::into_inner(rest),
            }
        }
    }
}

/// The labels and statements of a `switch`. A label inside one of the statements is no label of this `switch`.
#[cycle(stmt)]
pub enum SwitchItems {
    End,
    Label(Label, Box<SwitchItems>),
    Statement(Box<Stmt>, Box<SwitchItems>),
}

impl Drop for SwitchItems {
    #[cycle(stmt)]
    fn drop(mut self) {
        loop {
            match self {
                SwitchItems::End => return,
                SwitchItems::Label(_, rest) => self = Box::into_inner(rest),
                SwitchItems::Statement(_, rest) => self = Box::into_inner(rest),
            }
        }
    }
}
