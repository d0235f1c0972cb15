use crate::mark::Mark;
use crate::operator::{
    BinaryOperator, ComparisonOperator, LogicalOperator, PostfixOperator, PrefixOperator,
};
use crate::specifiers::TypeName;
use crate::text::Text;
use crate::token::{Character, Number};

/// An expression (C99 6.5).
#[cycle(expr)]
#[derive(Drop)]
pub struct Expr {
    pub mark: Mark,
    pub kind: ExprKind,
}

#[cycle(expr)]
#[derive(Drop)]
pub enum ExprKind {
    Name(Text),
    Number(Number),
    Character(Character),
    /// `a[i]`
    Index(Box<Expr>, Box<Expr>),
    /// A call of a function or an intrinsic by its name, which is no node.
    CallFunction(Text, Exprs),
    /// A call of anything else.
    Call(Box<Expr>, Exprs),
    /// `a.b`
    Member(Box<Expr>, Text),
    /// `a->b`
    Arrow(Box<Expr>, Text),
    Postfix(PostfixOperator, Box<Expr>),
    Prefix(PrefixOperator, Box<Expr>),
    SizeofExpression(Box<Expr>),
    SizeofType(TypeName),
    Cast(TypeName, Box<Expr>),
    Binary(BinaryOperator, Box<Expr>, Box<Expr>),
    Comparison(ComparisonOperator, Box<Expr>, Box<Expr>),
    /// `a && b` or `a || b`, which evaluates `b` only where `a` leaves it open.
    Logical(LogicalOperator, Box<Expr>, Box<Expr>),
    /// `a ? b : c`
    Conditional(Box<Expr>, Box<Expr>, Box<Expr>),
    Assign(Box<Expr>, Box<Expr>),
    /// `a += b` and its like, by their operator.
    AssignWith(BinaryOperator, Box<Expr>, Box<Expr>),
    /// `a, b`
    Comma(Box<Expr>, Box<Expr>),
}

/// Expressions in a row: the arguments of a call, or the lengths of an array.
#[cycle(expr)]
pub enum Exprs {
    End,
    More(Box<Expr>, Box<Exprs>),
}

impl Drop for Exprs {
    #[cycle(expr)]
    fn drop(mut self) {
        loop {
            match self {
                Exprs::End => return,
                Exprs::More(_, rest) => self = Box::into_inner(rest),
            }
        }
    }
}
