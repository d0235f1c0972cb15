//! What each production makes of the values of its parts.
ghost use Rattle.std.specs.Prelude.{◌≡◌, ◌<◌, ◌^◌, length};
ghost use Rattle.cparts.specs.Value.{bare_values};
ghost use Rattle.caction.specs.Make as specs;

use crate::declaration::{self, Declaration};
use crate::empty::{self, Empty};
use crate::expression::{self, Expression, Operand, Pair};
use crate::list::{self, More};
use crate::statement::{self, Statement};
use crate::token;
use crate::types::{self, TypePart};
use crate::unit::{self, Definition};
use cgrammar::Production;
use cparts::{MakeFault, Value};
use csyn::{Mark, Span, Token};
use std::alloc::Global;
use std::collections::LinkedList;

/// The mark of a node of these tokens, before which `number` nodes end.
fn mark_at(number: u32, tokens: &[Token]) -> Mark
    requires { length tokens.now < 2 ^ 32 }
    ensures { result ≡ specs.mark_at (record { number = number; tokens = tokens.now }) }
{
    let span = match tokens.first() {
        Some(token) => token.span,
        None => Span { line: 0, column: 0 },
    };
    Mark {
        number,
        span,
        tokens: tokens.len() as u32,
    }
}

/// What the production makes of these tokens and of the values of its parts. Before it `number` nodes end.
/// Err(Parts): the tokens or the values are not those of such a production.
/// Err(Memory): no memory is left.
pub fn make(
    alloc: Global,
    production: Production,
    number: u32,
    tokens: &[Token],
    values: LinkedList<Value>,
) -> Result<Value, MakeFault>
    requires { length tokens.now < 2 ^ 32 }
    ensures { specs.IsMade (specs.make production (record { number = number; tokens = tokens.now }) (bare_values values)) result }
{
    let mark = mark_at(number, tokens);
    match production {
        Production::Identifier => token::identifier(alloc, tokens, values),
        Production::Name => expression::make_expression(alloc, mark, Expression::Name, values),
        Production::Number => token::number(alloc, mark, tokens, values),
        Production::Character => token::character(alloc, mark, tokens, values),
        Production::Parenthesised => expression::make_expression(
            alloc,
            mark,
            Expression::Parenthesised,
            values,
        ),
        Production::Index => expression::make_pair(alloc, mark, Pair::Index, values),
        Production::CallFunction => expression::make_expression(
            alloc,
            mark,
            Expression::CallFunction,
            values,
        ),
        Production::Call => expression::make_expression(alloc, mark, Expression::Call, values),
        Production::Member => expression::make_expression(alloc, mark, Expression::Member, values),
        Production::Arrow => expression::make_expression(alloc, mark, Expression::Arrow, values),
        Production::PostIncrement => expression::make_operand(
            alloc,
            mark,
            Operand::PostIncrement,
            values,
        ),
        Production::PostDecrement => expression::make_operand(
            alloc,
            mark,
            Operand::PostDecrement,
            values,
        ),
        Production::PreIncrement => expression::make_operand(
            alloc,
            mark,
            Operand::PreIncrement,
            values,
        ),
        Production::PreDecrement => expression::make_operand(
            alloc,
            mark,
            Operand::PreDecrement,
            values,
        ),
        Production::Prefix => token::prefix(alloc, mark, tokens, values),
        Production::SizeofExpression => expression::make_operand(
            alloc,
            mark,
            Operand::SizeofExpression,
            values,
        ),
        Production::SizeofType => expression::make_expression(
            alloc,
            mark,
            Expression::SizeofType,
            values,
        ),
        Production::Cast => expression::make_expression(alloc, mark, Expression::Cast, values),
        Production::Binary(operator) => expression::make_pair(
            alloc,
            mark,
            Pair::Binary(operator),
            values,
        ),
        Production::Comparison(operator) => expression::make_pair(
            alloc,
            mark,
            Pair::Comparison(operator),
            values,
        ),
        Production::Logical(operator) => expression::make_pair(
            alloc,
            mark,
            Pair::Logical(operator),
            values,
        ),
        Production::Conditional => expression::make_expression(
            alloc,
            mark,
            Expression::Conditional,
            values,
        ),
        Production::Assign => expression::make_pair(alloc, mark, Pair::Assign, values),
        Production::AssignWith(operator) => expression::make_pair(
            alloc,
            mark,
            Pair::AssignWith(operator),
            values,
        ),
        Production::Comma => expression::make_pair(alloc, mark, Pair::Comma, values),
        Production::NoArguments => empty::make_empty(mark, Empty::NoArguments, values),
        Production::SomeArguments => list::make_more(alloc, More::SomeArguments, values),
        Production::EndArguments => empty::make_empty(mark, Empty::EndArguments, values),
        Production::NextArgument => list::make_more(alloc, More::NextArgument, values),
        Production::NoExpression => empty::make_empty(mark, Empty::NoExpression, values),
        Production::SomeExpression => expression::make_operand(
            alloc,
            mark,
            Operand::SomeExpression,
            values,
        ),
        Production::TypeName => types::make_type(alloc, TypePart::TypeName, values),
        Production::Specified => token::specified(alloc, tokens, values),
        Production::Based => types::make_type(alloc, TypePart::Based, values),
        Production::NoQualifiers => empty::make_empty(mark, Empty::NoQualifiers, values),
        Production::Qualified => token::qualified(alloc, tokens, values),
        Production::VoidBase => empty::make_empty(mark, Empty::VoidBase, values),
        Production::StructBase => types::make_type(alloc, TypePart::StructBase, values),
        Production::StandardBase => token::standard_base(tokens, values),
        Production::IntegerBase => types::make_type(alloc, TypePart::IntegerBase, values),
        Production::FirstWord(_) => token::first_word(tokens, values),
        Production::NextWord(_, _) => token::next_word(alloc, tokens, values),
        Production::NoPointers => empty::make_empty(mark, Empty::NoPointers, values),
        Production::Star => types::make_type(alloc, TypePart::Star, values),
        Production::QualifiedPointer => types::make_type(alloc, TypePart::QualifiedPointer, values),
        Production::NextPointer => types::make_type(alloc, TypePart::NextPointer, values),
        Production::NoLengths => empty::make_empty(mark, Empty::NoLengths, values),
        Production::Length => list::make_more(alloc, More::Length, values),
        Production::Declarator => declaration::make_declaration(
            alloc,
            mark,
            Declaration::Declarator,
            values,
        ),
        Production::EndDeclarators => empty::make_empty(mark, Empty::EndDeclarators, values),
        Production::NextDeclarator => list::make_more(alloc, More::NextDeclarator, values),
        Production::StructMember => declaration::make_declaration(
            alloc,
            mark,
            Declaration::StructMember,
            values,
        ),
        Production::EndMembers => empty::make_empty(mark, Empty::EndMembers, values),
        Production::NextMember => list::make_more(alloc, More::NextMember, values),
        Production::NoLocation => empty::make_empty(mark, Empty::NoLocation, values),
        Production::Location => expression::make_operand(alloc, mark, Operand::Location, values),
        Production::NoInitial => empty::make_empty(mark, Empty::NoInitial, values),
        Production::Initial => declaration::make_declaration(
            alloc,
            mark,
            Declaration::Initial,
            values,
        ),
        Production::InitialExpression => expression::make_operand(
            alloc,
            mark,
            Operand::InitialExpression,
            values,
        ),
        Production::Braced => declaration::make_declaration(
            alloc,
            mark,
            Declaration::Braced,
            values,
        ),
        Production::EndInits => empty::make_empty(mark, Empty::EndInits, values),
        Production::CommaInits => list::make_more(alloc, More::CommaInits, values),
        Production::TrailingComma => empty::make_empty(mark, Empty::TrailingComma, values),
        Production::NextInit => list::make_more(alloc, More::NextInit, values),
        Production::InitDeclarator => declaration::make_declaration(
            alloc,
            mark,
            Declaration::InitDeclarator,
            values,
        ),
        Production::EndInitDeclarators => empty::make_empty(
            mark,
            Empty::EndInitDeclarators,
            values,
        ),
        Production::NextInitDeclarator => list::make_more(alloc, More::NextInitDeclarator, values),
        Production::LocalObject => declaration::make_declaration(
            alloc,
            mark,
            Declaration::LocalObject,
            values,
        ),
        Production::Block => statement::make_statement(alloc, mark, Statement::Block, values),
        Production::ExpressionStatement => statement::make_statement(
            alloc,
            mark,
            Statement::ExpressionStatement,
            values,
        ),
        Production::If => statement::if_statement(alloc, mark, values),
        Production::NoElse => empty::make_empty(mark, Empty::NoElse, values),
        Production::Else => statement::make_statement(alloc, mark, Statement::Else, values),
        Production::While => statement::make_statement(alloc, mark, Statement::While, values),
        Production::Do => statement::make_statement(alloc, mark, Statement::Do, values),
        Production::ForObject => statement::make_statement(
            alloc,
            mark,
            Statement::ForObject,
            values,
        ),
        Production::ForExpression => statement::make_statement(
            alloc,
            mark,
            Statement::ForExpression,
            values,
        ),
        Production::For => statement::make_statement(alloc, mark, Statement::For, values),
        Production::Switch => statement::make_statement(alloc, mark, Statement::Switch, values),
        Production::NoSwitchItems => empty::make_empty(mark, Empty::NoSwitchItems, values),
        Production::FirstLabel => list::make_more(alloc, More::FirstLabel, values),
        Production::EndSwitchItems => empty::make_empty(mark, Empty::EndSwitchItems, values),
        Production::NextLabel => list::make_more(alloc, More::NextLabel, values),
        Production::NextSwitchStatement => list::make_more(
            alloc,
            More::NextSwitchStatement,
            values,
        ),
        Production::CaseLabel => expression::make_operand(alloc, mark, Operand::CaseLabel, values),
        Production::DefaultLabel => empty::make_empty(mark, Empty::DefaultLabel, values),
        Production::Break => empty::make_empty(mark, Empty::Break, values),
        Production::Continue => empty::make_empty(mark, Empty::Continue, values),
        Production::Return => statement::make_statement(alloc, mark, Statement::Return, values),
        Production::RegionName => token::region_name(alloc, tokens, values),
        Production::Region => statement::make_statement(alloc, mark, Statement::Region, values),
        Production::EndItems => empty::make_empty(mark, Empty::EndItems, values),
        Production::NextObject => list::make_more(alloc, More::NextObject, values),
        Production::NextStatement => list::make_more(alloc, More::NextStatement, values),
        Production::StructUnit => unit::make_definition(
            alloc,
            mark,
            Definition::StructUnit,
            values,
        ),
        Production::RegisterUnit => unit::make_definition(
            alloc,
            mark,
            Definition::RegisterUnit,
            values,
        ),
        Production::UnsignedInt => empty::make_empty(mark, Empty::UnsignedInt, values),
        Production::RegisterUint32 => empty::make_empty(mark, Empty::RegisterUint32, values),
        Production::External => unit::external(alloc, mark, values),
        Production::ObjectRest => unit::make_definition(
            alloc,
            mark,
            Definition::ObjectRest,
            values,
        ),
        Production::FunctionRest => unit::make_definition(
            alloc,
            mark,
            Definition::FunctionRest,
            values,
        ),
        Production::PrototypeEnd => empty::make_empty(mark, Empty::PrototypeEnd, values),
        Production::FunctionBody => unit::make_definition(
            alloc,
            mark,
            Definition::FunctionBody,
            values,
        ),
        Production::NoParameters => empty::make_empty(mark, Empty::NoParameters, values),
        Production::VoidParameters => empty::make_empty(mark, Empty::VoidParameters, values),
        Production::SomeParameters => list::make_more(alloc, More::SomeParameters, values),
        Production::Parameter => declaration::make_declaration(
            alloc,
            mark,
            Declaration::Parameter,
            values,
        ),
        Production::ArrayParameter => declaration::make_declaration(
            alloc,
            mark,
            Declaration::ArrayParameter,
            values,
        ),
        Production::EndParameters => empty::make_empty(mark, Empty::EndParameters, values),
        Production::NextParameter => list::make_more(alloc, More::NextParameter, values),
        Production::EndUnits => empty::make_empty(mark, Empty::EndUnits, values),
        Production::NextUnit => list::make_more(alloc, More::NextUnit, values),
        Production::Source => list::make_more(alloc, More::Source, values),
    }
}
