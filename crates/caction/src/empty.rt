//! What is made without parts.
#![tactic(auto, unfolding(crate::specs::Make::table))]

ghost use Rattle.std.specs.Prelude.{List};
ghost use Rattle.csyn.specs.declared.mark.Mark.{Mark};
ghost use Rattle.csyn.specs.declared.token.Token.{Token};
ghost use Rattle.caction.specs.Make.{Makes};
ghost use Rattle.caction.specs.Forms as forms;

use cparts::{MakeFault, Value, none};
use csyn::{
    Base, Declarators, Exprs, InitDeclarators, Inits, Items, Label, LabelKind, Mark, Members,
    ParameterList, Parameters, Pointer, Pointers, Stmt, StmtKind, SwitchItems, Units,
};
use std::collections::LinkedList;

/// What is made without parts, whatever its tokens are.
#[derive(Clone, Copy)]
pub enum Empty {
    NoArguments,
    EndArguments,
    NoExpression,
    NoQualifiers,
    VoidBase,
    NoPointers,
    NoLengths,
    EndDeclarators,
    EndMembers,
    NoLocation,
    NoInitial,
    EndInits,
    TrailingComma,
    EndInitDeclarators,
    NoElse,
    NoSwitchItems,
    EndSwitchItems,
    DefaultLabel,
    Break,
    Continue,
    EndItems,
    UnsignedInt,
    RegisterUint32,
    PrototypeEnd,
    NoParameters,
    VoidParameters,
    EndParameters,
    EndUnits,
}

/// What is made where there are no parts.
pub fn make_empty(mark: Mark, form: Empty, values: LinkedList<Value>) -> Result<Value, MakeFault>
    ensures { (tokens : List Token) → Makes (forms.empty form) mark tokens values result }
{
    none(values)?;
    match form {
        Empty::NoArguments => Ok(Value::Exprs(Exprs::End)),
        Empty::EndArguments => Ok(Value::Exprs(Exprs::End)),
        Empty::NoExpression => Ok(Value::OptionalExpr(None)),
        Empty::NoQualifiers => Ok(Value::Qualifiers(Pointer {
            is_const: false,
            is_volatile: false,
        })),
        Empty::VoidBase => Ok(Value::Base(Base::Void)),
        Empty::NoPointers => Ok(Value::Pointers(Pointers::End)),
        Empty::NoLengths => Ok(Value::Exprs(Exprs::End)),
        Empty::EndDeclarators => Ok(Value::Declarators(Declarators::End)),
        Empty::EndMembers => Ok(Value::Members(Members::End)),
        Empty::NoLocation => Ok(Value::OptionalExpr(None)),
        Empty::NoInitial => Ok(Value::OptionalInit(None)),
        Empty::EndInits => Ok(Value::Inits(Inits::End)),
        Empty::TrailingComma => Ok(Value::Inits(Inits::End)),
        Empty::EndInitDeclarators => Ok(Value::InitDeclarators(InitDeclarators::End)),
        Empty::NoElse => Ok(Value::OptionalStmt(None)),
        Empty::NoSwitchItems => Ok(Value::SwitchItems(SwitchItems::End)),
        Empty::EndSwitchItems => Ok(Value::SwitchItems(SwitchItems::End)),
        Empty::DefaultLabel => Ok(Value::Label(Label {
            mark,
            kind: LabelKind::Default,
        })),
        Empty::Break => Ok(Value::Stmt(Stmt {
            mark,
            kind: StmtKind::Break,
        })),
        Empty::Continue => Ok(Value::Stmt(Stmt {
            mark,
            kind: StmtKind::Continue,
        })),
        Empty::EndItems => Ok(Value::Items(Items::End)),
        Empty::UnsignedInt => Ok(Value::RegisterType),
        Empty::RegisterUint32 => Ok(Value::RegisterType),
        Empty::PrototypeEnd => Ok(Value::FunctionEnd(None)),
        Empty::NoParameters => Ok(Value::Parameters(Parameters::Empty)),
        Empty::VoidParameters => Ok(Value::Parameters(Parameters::Void)),
        Empty::EndParameters => Ok(Value::ParameterList(ParameterList::End)),
        Empty::EndUnits => Ok(Value::Units(Units::End)),
    }
}
