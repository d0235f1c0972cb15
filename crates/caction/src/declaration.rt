//! Declarations.
#![tactic(auto, unfolding(crate::specs::Make::table))]

ghost use Rattle.std.specs.Prelude.{List};
ghost use Rattle.csyn.specs.declared.mark.Mark.{Mark};
ghost use Rattle.csyn.specs.declared.token.Token.{Token};
ghost use Rattle.caction.specs.Make.{Makes};
ghost use Rattle.caction.specs.Forms as forms;

use cparts::{MakeFault, Value, four, one, three, two};
use csyn::{
    Declarator, Declarators, Exprs, Init, InitDeclarator, InitDeclarators, Inits, LocalObject,
    Mark, Member, Object, Parameter,
};
use std::alloc::Global;
use std::collections::LinkedList;

/// A part of a declaration.
#[derive(Clone, Copy)]
pub enum Declaration {
    Declarator,
    StructMember,
    Initial,
    Braced,
    InitDeclarator,
    LocalObject,
    Parameter,
    ArrayParameter,
}

/// What is made of the parts of a declaration.
pub fn make_declaration(
    alloc: Global,
    mark: Mark,
    form: Declaration,
    values: LinkedList<Value>,
) -> Result<Value, MakeFault>
    ensures { (tokens : List Token) → Makes (forms.declaration form) mark tokens values result }
{
    match form {
        Declaration::Declarator => {
            let (pointers, name, lengths) = three(alloc, values)?;
            Ok(Value::Declarator(Declarator {
                pointers,
                name,
                lengths,
            }))
        }
        Declaration::StructMember => {
            let (specifiers, first, rest) = three(alloc, values)?;
            Ok(Value::Member(Member {
                specifiers,
                declarators: Declarators::More(first, rest),
            }))
        }
        Declaration::Initial => {
            let init = one(alloc, values)?;
            Ok(Value::OptionalInit(Some(init)))
        }
        Declaration::Braced => {
            let (first, rest) = two(alloc, values)?;
            Ok(Value::Init(Init::Braced(mark, Box::new(alloc, Inits::More(first, rest))?)))
        }
        Declaration::InitDeclarator => {
            let (declarator, location, init) = three(alloc, values)?;
            Ok(Value::InitDeclarator(InitDeclarator {
                declarator,
                location,
                init,
            }))
        }
        Declaration::LocalObject => {
            let (specifiers, first, rest) = three(alloc, values)?;
            let declarators = InitDeclarators::More(first, rest);
            Ok(Value::Object(LocalObject {
                mark,
                object: Object {
                    specifiers,
                    declarators,
                },
            }))
        }
        Declaration::Parameter => {
            let (specifiers, pointers, name, lengths) = four(alloc, values)?;
            let declarator = Declarator {
                pointers,
                name,
                lengths,
            };
            Ok(Value::Parameter(Parameter {
                specifiers,
                declarator,
                is_open_array: false,
            }))
        }
        Declaration::ArrayParameter => {
            let (specifiers, pointers, name) = three(alloc, values)?;
            let declarator = Declarator {
                pointers,
                name,
                lengths: Exprs::End,
            };
            Ok(Value::Parameter(Parameter {
                specifiers,
                declarator,
                is_open_array: true,
            }))
        }
    }
}
