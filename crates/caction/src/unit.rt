//! Units.
#![tactic(auto, unfolding(crate::specs::Make::table))]

ghost use Rattle.std.specs.Prelude.{◌≡◌, IfOk, List};
ghost use Rattle.csyn.specs.declared.mark.Mark.{Mark};
ghost use Rattle.csyn.specs.declared.token.Token.{Token};
ghost use Rattle.csyn.specs.Bare.{at_null, bare_init_declarator, bare_init_declarators, bare_pointers, bare_unit_kind};
ghost use Rattle.csyn.specs.declared.unit.UnitKind.TheVariants as unit_of;
ghost use Rattle.cparts.specs.Value.{bare_rest};
ghost use Rattle.cgrammar.specs.declared.production.Production.TheVariants as production;
ghost use Rattle.caction.specs.Make.{Makes};
ghost use Rattle.caction.specs.Make as specs;
ghost use Rattle.caction.specs.Forms as forms;

use cparts::{ExternalRest, MakeFault, ObjectRest, Value, boxed_two, four, one, three, two};
use csyn::{
    Declarator, Head, InitDeclarator, InitDeclarators, Mark, Members, Object, Pointers, Specifiers,
    Text, Unit, UnitKind,
};
use std::alloc::{AllocError, Global};
use std::collections::LinkedList;

/// A unit, or a part of one.
#[derive(Clone, Copy)]
pub enum Definition {
    StructUnit,
    RegisterUnit,
    ObjectRest,
    FunctionRest,
    FunctionBody,
}

/// What is made of the parts of a unit.
pub fn make_definition(
    alloc: Global,
    mark: Mark,
    form: Definition,
    values: LinkedList<Value>,
) -> Result<Value, MakeFault>
    ensures { (tokens : List Token) → Makes (forms.definition form) mark tokens values result }
{
    match form {
        Definition::StructUnit => {
            let (tag, first, rest) = three(alloc, values)?;
            let kind = UnitKind::Struct(tag, Members::More(first, rest));
            Ok(Value::Unit(Unit { mark, kind }))
        }
        Definition::RegisterUnit => {
            let () = one(alloc, values)?;
            Ok(Value::Unit(Unit {
                mark,
                kind: UnitKind::Register,
            }))
        }
        Definition::ObjectRest => {
            let (lengths, location, init, others) = four(alloc, values)?;
            Ok(Value::ExternalRest(ExternalRest::Object(ObjectRest {
                lengths,
                location,
                init,
                others,
            })))
        }
        Definition::FunctionRest => {
            let (parameters, end) = two(alloc, values)?;
            Ok(Value::ExternalRest(ExternalRest::Function(parameters, end)))
        }
        Definition::FunctionBody => {
            let items = one(alloc, values)?;
            Ok(Value::FunctionEnd(Some(items)))
        }
    }
}

/// Objects, the first and the others. On failure all are dropped.
fn objects(
    alloc: Global,
    specifiers: Specifiers,
    first: InitDeclarator,
    others: InitDeclarators,
) -> Result<UnitKind, AllocError>
    ensures { IfOk result (λ kind. bare_unit_kind kind ≡ unit_of.Object
        (specs.object_of specifiers (at_null (bare_init_declarator first)) (at_null (bare_init_declarators others)))) }
{
    let (first, others) = boxed_two(alloc, first, others)?;
    let declarators = InitDeclarators::More(first, others);
    Ok(UnitKind::Object(Object {
        specifiers,
        declarators,
    }))
}

/// What a name is declared as, by what follows it.
fn external_kind(
    alloc: Global,
    specifiers: Specifiers,
    pointers: Pointers,
    name: Text,
    rest: ExternalRest,
) -> Result<UnitKind, AllocError>
    ensures { IfOk result (λ kind. bare_unit_kind kind ≡ specs.external specifiers (bare_pointers pointers) name (bare_rest rest)) }
{
    match rest {
        ExternalRest::Object(rest) => {
            let ObjectRest {
                lengths,
                location,
                init,
                others,
            } = rest;
            let declarator = Declarator {
                pointers,
                name,
                lengths,
            };
            let first = InitDeclarator {
                declarator,
                location,
                init,
            };
            objects(alloc, specifiers, first, others)
        }
        ExternalRest::Function(parameters, body) => {
            let head = Head {
                specifiers,
                pointers,
                name,
                parameters,
            };
            match body {
                None => Ok(UnitKind::Prototype(head)),
                Some(items) => Ok(UnitKind::Function(head, items)),
            }
        }
    }
}

pub fn external(alloc: Global, mark: Mark, values: LinkedList<Value>) -> Result<Value, MakeFault>
    ensures { (tokens : List Token) → Makes production.External mark tokens values result }
{
    let (specifiers, pointers, name, rest) = four(alloc, values)?;
    let kind = external_kind(alloc, specifiers, pointers, name, rest)?;
    Ok(Value::Unit(Unit { mark, kind }))
}
