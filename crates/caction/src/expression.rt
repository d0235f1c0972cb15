//! Expressions.
#![tactic(auto, unfolding(crate::specs::Make::table))]

ghost use Rattle.std.specs.Prelude.{List};
ghost use Rattle.csyn.specs.declared.mark.Mark.{Mark};
ghost use Rattle.csyn.specs.declared.token.Token.{Token};
ghost use Rattle.caction.specs.Make.{Makes};
ghost use Rattle.caction.specs.Forms as forms;

use cparts::{MakeFault, Value, one, three, two};
use csyn::{
    BinaryOperator, ComparisonOperator, Expr, ExprKind, Init, Label, LabelKind, LogicalOperator,
    Mark, PostfixOperator, PrefixOperator,
};
use std::alloc::Global;
use std::collections::LinkedList;

macro_rules! expression {
    ($mark:expr, $kind:expr) => {
        Ok(Value::Expr(Expr {
            mark: $mark,
            kind: $kind,
        }))
    };
}

/// An expression of two expressions.
#[derive(Clone, Copy)]
pub enum Pair {
    Index,
    Binary(BinaryOperator),
    Comparison(ComparisonOperator),
    Logical(LogicalOperator),
    Assign,
    AssignWith(BinaryOperator),
    Comma,
}

/// What is made of two expressions.
pub fn make_pair(
    alloc: Global,
    mark: Mark,
    form: Pair,
    values: LinkedList<Value>,
) -> Result<Value, MakeFault>
    ensures { (tokens : List Token) → Makes (forms.pair form) mark tokens values result }
{
    let (a, b) = two(alloc, values)?;
    match form {
        Pair::Index => expression!(mark, ExprKind::Index(a, b)),
        Pair::Binary(operator) => expression!(mark, ExprKind::Binary(operator, a, b)),
        Pair::Comparison(operator) => expression!(mark, ExprKind::Comparison(operator, a, b)),
        Pair::Logical(operator) => expression!(mark, ExprKind::Logical(operator, a, b)),
        Pair::Assign => expression!(mark, ExprKind::Assign(a, b)),
        Pair::AssignWith(operator) => expression!(mark, ExprKind::AssignWith(operator, a, b)),
        Pair::Comma => expression!(mark, ExprKind::Comma(a, b)),
    }
}

/// What has one expression as its part, in a box.
#[derive(Clone, Copy)]
pub enum Operand {
    PostIncrement,
    PostDecrement,
    PreIncrement,
    PreDecrement,
    SizeofExpression,
    SomeExpression,
    Location,
    InitialExpression,
    CaseLabel,
}

/// What is made of one expression.
pub fn make_operand(
    alloc: Global,
    mark: Mark,
    form: Operand,
    values: LinkedList<Value>,
) -> Result<Value, MakeFault>
    ensures { (tokens : List Token) → Makes (forms.operand form) mark tokens values result }
{
    let operand = one(alloc, values)?;
    match form {
        Operand::PostIncrement => expression!(
            mark,
            ExprKind::Postfix(PostfixOperator::Increment, operand)
        ),
        Operand::PostDecrement => expression!(
            mark,
            ExprKind::Postfix(PostfixOperator::Decrement, operand)
        ),
        Operand::PreIncrement => expression!(
            mark,
            ExprKind::Prefix(PrefixOperator::Increment, operand)
        ),
        Operand::PreDecrement => expression!(
            mark,
            ExprKind::Prefix(PrefixOperator::Decrement, operand)
        ),
        Operand::SizeofExpression => expression!(mark, ExprKind::SizeofExpression(operand)),
        Operand::SomeExpression => Ok(Value::OptionalExpr(Some(operand))),
        Operand::Location => Ok(Value::OptionalExpr(Some(operand))),
        Operand::InitialExpression => Ok(Value::Init(Init::Expression(operand))),
        Operand::CaseLabel => Ok(Value::Label(Label {
            mark,
            kind: LabelKind::Case(operand),
        })),
    }
}

/// Any other expression.
#[derive(Clone, Copy)]
pub enum Expression {
    Name,
    Parenthesised,
    CallFunction,
    Call,
    Member,
    Arrow,
    SizeofType,
    Cast,
    Conditional,
}

/// What is made of the parts of an expression.
pub fn make_expression(
    alloc: Global,
    mark: Mark,
    form: Expression,
    values: LinkedList<Value>,
) -> Result<Value, MakeFault>
    ensures { (tokens : List Token) → Makes (forms.expression form) mark tokens values result }
{
    match form {
        Expression::Name => {
            let name = one(alloc, values)?;
            expression!(mark, ExprKind::Name(name))
        }
        Expression::Parenthesised => {
            let inner = one(alloc, values)?;
            Ok(Value::Expr(inner))
        }
        Expression::CallFunction => {
            let (name, arguments) = two(alloc, values)?;
            expression!(mark, ExprKind::CallFunction(name, arguments))
        }
        Expression::Call => {
            let (callee, arguments) = two(alloc, values)?;
            expression!(mark, ExprKind::Call(callee, arguments))
        }
        Expression::Member => {
            let (record, name) = two(alloc, values)?;
            expression!(mark, ExprKind::Member(record, name))
        }
        Expression::Arrow => {
            let (record, name) = two(alloc, values)?;
            expression!(mark, ExprKind::Arrow(record, name))
        }
        Expression::SizeofType => {
            let name = one(alloc, values)?;
            expression!(mark, ExprKind::SizeofType(name))
        }
        Expression::Cast => {
            let (name, operand) = two(alloc, values)?;
            expression!(mark, ExprKind::Cast(name, operand))
        }
        Expression::Conditional => {
            let (condition, then, other) = three(alloc, values)?;
            expression!(mark, ExprKind::Conditional(condition, then, other))
        }
    }
}
