//! Statements.
#![tactic(auto, unfolding(crate::specs::Make::table))]

ghost use Rattle.std.specs.Prelude.{List};
ghost use Rattle.csyn.specs.declared.mark.Mark.{Mark};
ghost use Rattle.csyn.specs.declared.token.Token.{Token};
ghost use Rattle.std.specs.Prelude.{◌≡◌};
ghost use Rattle.csyn.specs.Bare.{bare_expr, bare_stmt, bare_stmt_kind, box_bare, option_bare};
ghost use Rattle.cgrammar.specs.declared.production.Production.TheVariants as production;
ghost use Rattle.caction.specs.Make.{Makes, if_of};
ghost use Rattle.caction.specs.Forms as forms;

use cparts::{MakeFault, Value, four, one, three, two};
use csyn::{Expr, ForFirst, Mark, Stmt, StmtKind};
use std::alloc::Global;
use std::collections::LinkedList;

macro_rules! statement {
    ($mark:expr, $kind:expr) => {
        Ok(Value::Stmt(Stmt {
            mark: $mark,
            kind: $kind,
        }))
    };
}

/// A statement with parts, or a part of one.
#[derive(Clone, Copy)]
pub enum Statement {
    Block,
    ExpressionStatement,
    Else,
    While,
    Do,
    ForObject,
    ForExpression,
    For,
    Switch,
    Return,
    Region,
}

/// What is made of the parts of a statement.
pub fn make_statement(
    alloc: Global,
    mark: Mark,
    form: Statement,
    values: LinkedList<Value>,
) -> Result<Value, MakeFault>
    ensures { (tokens : List Token) → Makes (forms.statement form) mark tokens values result }
{
    match form {
        Statement::Block => {
            let items = one(alloc, values)?;
            statement!(mark, StmtKind::Block(items))
        }
        Statement::ExpressionStatement => {
            let expression = one(alloc, values)?;
            statement!(mark, StmtKind::Expression(expression))
        }
        Statement::Else => {
            let branch = one(alloc, values)?;
            Ok(Value::OptionalStmt(Some(branch)))
        }
        Statement::While => {
            let (condition, body) = two(alloc, values)?;
            statement!(mark, StmtKind::While(condition, body))
        }
        Statement::Do => {
            let (body, condition) = two(alloc, values)?;
            statement!(mark, StmtKind::Do(body, condition))
        }
        Statement::ForObject => {
            let object = one(alloc, values)?;
            Ok(Value::ForFirst(ForFirst::Object(object)))
        }
        Statement::ForExpression => {
            let expression = one(alloc, values)?;
            Ok(Value::ForFirst(ForFirst::Expression(expression)))
        }
        Statement::For => {
            let (first, condition, next, body) = four(alloc, values)?;
            statement!(mark, StmtKind::For(first, condition, next, body))
        }
        Statement::Switch => {
            let (value, items) = two(alloc, values)?;
            statement!(mark, StmtKind::Switch(value, items))
        }
        Statement::Return => {
            let expression = one(alloc, values)?;
            statement!(mark, StmtKind::Return(expression))
        }
        Statement::Region => {
            let (name, items) = two(alloc, values)?;
            statement!(mark, StmtKind::Region(name, items))
        }
    }
}

/// An if, with what follows its first branch.
fn if_kind(condition: Box<Expr>, branch: Box<Stmt>, other: Option<Box<Stmt>>) -> StmtKind
    ensures { bare_stmt_kind result ≡ if_of (box_bare bare_expr condition) (box_bare bare_stmt branch) (option_bare bare_stmt other) }
{
    match other {
        None => StmtKind::If(condition, branch),
        Some(other) => StmtKind::IfElse(condition, branch, other),
    }
}

pub fn if_statement(
    alloc: Global,
    mark: Mark,
    values: LinkedList<Value>,
) -> Result<Value, MakeFault>
    ensures { (tokens : List Token) → Makes production.If mark tokens values result }
{
    let (condition, branch, other) = three(alloc, values)?;
    Ok(Value::Stmt(Stmt {
        mark,
        kind: if_kind(condition, branch, other),
    }))
}
