//! Types.
#![tactic(auto, unfolding(crate::specs::Make::table))]

ghost use Rattle.std.specs.Prelude.{List};
ghost use Rattle.csyn.specs.declared.mark.Mark.{Mark};
ghost use Rattle.csyn.specs.declared.token.Token.{Token};
ghost use Rattle.caction.specs.Make.{Makes};
ghost use Rattle.caction.specs.Forms as forms;

use cparts::{MakeFault, Value, one, two};
use csyn::{Base, Pointer, Pointers, Specifiers, TypeName};
use std::alloc::Global;
use std::collections::LinkedList;

/// A part of a type.
#[derive(Clone, Copy)]
pub enum TypePart {
    TypeName,
    Based,
    StructBase,
    IntegerBase,
    Star,
    NextPointer,
    QualifiedPointer,
}

/// What is made of the parts of a type.
pub fn make_type(
    alloc: Global,
    form: TypePart,
    values: LinkedList<Value>,
) -> Result<Value, MakeFault>
    ensures { (mark : Mark) (tokens : List Token) → Makes (forms.types form) mark tokens values result }
{
    match form {
        TypePart::TypeName => {
            let (specifiers, pointers) = two(alloc, values)?;
            Ok(Value::TypeName(TypeName {
                specifiers,
                pointers,
            }))
        }
        TypePart::Based => {
            let (base, qualifiers): (Base, Pointer) = two(alloc, values)?;
            Ok(Value::Specifiers(Specifiers {
                is_static: false,
                is_inline: false,
                is_const: qualifiers.is_const,
                is_volatile: qualifiers.is_volatile,
                base,
            }))
        }
        TypePart::StructBase => {
            let tag = one(alloc, values)?;
            Ok(Value::Base(Base::Struct(tag)))
        }
        TypePart::IntegerBase => {
            let words = one(alloc, values)?;
            Ok(Value::Base(Base::Integer(words)))
        }
        TypePart::Star => {
            let inner = one(alloc, values)?;
            Ok(Value::Pointers(Pointers::To(
                inner,
                Pointer {
                    is_const: false,
                    is_volatile: false,
                },
            )))
        }
        TypePart::NextPointer => {
            let inner = one(alloc, values)?;
            Ok(Value::Pointers(Pointers::To(
                inner,
                Pointer {
                    is_const: false,
                    is_volatile: false,
                },
            )))
        }
        TypePart::QualifiedPointer => {
            let (inner, qualifiers) = two(alloc, values)?;
            Ok(Value::Pointers(Pointers::To(inner, qualifiers)))
        }
    }
}
