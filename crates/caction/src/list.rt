//! What is made in a row: arguments, lengths, members, items, units and the like.
#![tactic(auto, unfolding(crate::specs::Make::table))]

ghost use Rattle.std.specs.Prelude.{List};
ghost use Rattle.csyn.specs.declared.mark.Mark.{Mark};
ghost use Rattle.csyn.specs.declared.token.Token.{Token};
ghost use Rattle.caction.specs.Make.{Makes};
ghost use Rattle.caction.specs.Forms as forms;

use cparts::{MakeFault, Value, one, two};
use csyn::{
    Declarators, Exprs, InitDeclarators, Inits, Items, Members, ParameterList, Parameters,
    SwitchItems, Units,
};
use std::alloc::Global;
use std::collections::LinkedList;

/// One more in a row.
#[derive(Clone, Copy)]
pub enum More {
    SomeArguments,
    NextArgument,
    Length,
    NextDeclarator,
    NextMember,
    NextInit,
    CommaInits,
    NextInitDeclarator,
    FirstLabel,
    NextLabel,
    NextSwitchStatement,
    NextObject,
    NextStatement,
    SomeParameters,
    NextParameter,
    NextUnit,
    Source,
}

/// What is made of one and of those behind it.
pub fn make_more(alloc: Global, form: More, values: LinkedList<Value>) -> Result<Value, MakeFault>
    ensures { (mark : Mark) (tokens : List Token) → Makes (forms.more form) mark tokens values result }
{
    match form {
        More::SomeArguments => {
            let (first, rest) = two(alloc, values)?;
            Ok(Value::Exprs(Exprs::More(first, rest)))
        }
        More::NextArgument => {
            let (first, rest) = two(alloc, values)?;
            Ok(Value::Exprs(Exprs::More(first, rest)))
        }
        More::Length => {
            let (first, rest) = two(alloc, values)?;
            Ok(Value::Exprs(Exprs::More(first, rest)))
        }
        More::NextDeclarator => {
            let (first, rest) = two(alloc, values)?;
            Ok(Value::Declarators(Declarators::More(first, rest)))
        }
        More::NextMember => {
            let (first, rest) = two(alloc, values)?;
            Ok(Value::Members(Members::More(first, rest)))
        }
        More::NextInit => {
            let (first, rest) = two(alloc, values)?;
            Ok(Value::Inits(Inits::More(first, rest)))
        }
        More::CommaInits => {
            let inits = one(alloc, values)?;
            Ok(Value::Inits(inits))
        }
        More::NextInitDeclarator => {
            let (first, rest) = two(alloc, values)?;
            Ok(Value::InitDeclarators(InitDeclarators::More(first, rest)))
        }
        More::FirstLabel => {
            let (label, rest) = two(alloc, values)?;
            Ok(Value::SwitchItems(SwitchItems::Label(label, rest)))
        }
        More::NextLabel => {
            let (label, rest) = two(alloc, values)?;
            Ok(Value::SwitchItems(SwitchItems::Label(label, rest)))
        }
        More::NextSwitchStatement => {
            let (statement, rest) = two(alloc, values)?;
            Ok(Value::SwitchItems(SwitchItems::Statement(statement, rest)))
        }
        More::NextObject => {
            let (object, rest) = two(alloc, values)?;
            Ok(Value::Items(Items::Object(object, rest)))
        }
        More::NextStatement => {
            let (statement, rest) = two(alloc, values)?;
            Ok(Value::Items(Items::Statement(statement, rest)))
        }
        More::SomeParameters => {
            let (first, rest) = two(alloc, values)?;
            Ok(Value::Parameters(Parameters::Some(ParameterList::More(first, rest))))
        }
        More::NextParameter => {
            let (first, rest) = two(alloc, values)?;
            Ok(Value::ParameterList(ParameterList::More(first, rest)))
        }
        More::NextUnit => {
            let (first, rest) = two(alloc, values)?;
            Ok(Value::Units(Units::More(first, rest)))
        }
        More::Source => {
            let units = one(alloc, values)?;
            Ok(Value::Units(units))
        }
    }
}
