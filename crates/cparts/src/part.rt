//! The kinds of values.
ghost use Rattle.std.specs.Prelude.{◌≡◌, Option, None, Some, Err, MatchResult};
ghost use Rattle.std.specs.Option.{option_map};
ghost use Rattle.csyn.specs.Bare.{box_bare, option_bare, bare_declarator, bare_declarators, bare_expr, bare_exprs, bare_for_first};
ghost use Rattle.csyn.specs.Bare.{bare_init, bare_init_declarator, bare_init_declarators, bare_inits, bare_items, bare_label};
ghost use Rattle.csyn.specs.Bare.{bare_local, bare_member, bare_members, bare_parameter, bare_parameter_list, bare_parameters};
ghost use Rattle.csyn.specs.Bare.{bare_pointers, bare_stmt, bare_switch_items, bare_type_name, bare_unit, bare_units};
ghost use Rattle.cparts.specs.Value.{bare_rest, bare_value};
ghost use Rattle.cparts.specs.Parts as specs;
ghost use Rattle.cparts.specs.declared.fault.MakeFault.TheVariants as fault;
ghost use Rattle.cparts.specs.declared.value.Value.{Value};

use crate::fault::MakeFault;
use crate::value::{ExternalRest, Value};
use csyn::{
    Base, Declarator, Declarators, Expr, Exprs, ForFirst, Init, InitDeclarator, InitDeclarators,
    Inits, IntegerWords, Items, Label, LocalObject, Member, Members, Parameter, ParameterList,
    Parameters, Pointer, Pointers, Specifiers, Stmt, SwitchItems, Text, TypeName, Unit, Units,
};
use std::alloc::Global;

/// What a production can ask of a part: the kind of value that it has to be.
pub trait FromValue: Drop {
    /// What a value holds, if it is of this kind.
    ghost kind: { Value → Option Self };

    /// It without its boxes' pointers.
    ghost bare: { Self → Self };

    /// What the value holds, if it is of this kind. A value of another kind is dropped.
    /// Err(Memory): no memory is left for a box.
    fn from_value(alloc: Global, value: Value) -> Result<Self, MakeFault>
        ensures { MatchResult result
            (λ x. kind (bare_value value) ≡ Some (bare x))
            (λ e. e ≡ fault.Parts → kind (bare_value value) ≡ None) };
}

/// Drops a value of another kind than is asked for.
fn refuse<T>(value: Value) -> Result<T, MakeFault>
    ensures { result ≡ Err fault.Parts }
{
    drop(value);
    Err(MakeFault::Parts)
}

/// In a box.
impl<P: FromValue> FromValue for Box<P> {
    ghost kind = { specs.boxed P.kind };

    ghost bare = { box_bare P.bare };

    fn from_value(alloc: Global, value: Value) -> Result<Self, MakeFault> {
        let part = P::from_value(alloc, value)?;
        Ok(Box::new(alloc, part)?)
    }
}

impl FromValue for Text {
    ghost kind = { specs.text };

    ghost bare = { λ x. x };

    fn from_value(_: Global, value: Value) -> Result<Self, MakeFault> {
        match value {
            Value::Text(x) => Ok(x),
            other => refuse(other),
        }
    }
}

impl FromValue for Expr {
    ghost kind = { specs.expr };

    ghost bare = { bare_expr };

    fn from_value(_: Global, value: Value) -> Result<Self, MakeFault> {
        match value {
            Value::Expr(x) => Ok(x),
            other => refuse(other),
        }
    }
}

impl FromValue for Exprs {
    ghost kind = { specs.exprs };

    ghost bare = { bare_exprs };

    fn from_value(_: Global, value: Value) -> Result<Self, MakeFault> {
        match value {
            Value::Exprs(x) => Ok(x),
            other => refuse(other),
        }
    }
}

impl FromValue for Option<Box<Expr>> {
    ghost kind = { specs.optional_expr };

    ghost bare = { option_bare bare_expr };

    fn from_value(_: Global, value: Value) -> Result<Self, MakeFault> {
        match value {
            Value::OptionalExpr(x) => Ok(x),
            other => refuse(other),
        }
    }
}

impl FromValue for TypeName {
    ghost kind = { specs.type_name };

    ghost bare = { bare_type_name };

    fn from_value(_: Global, value: Value) -> Result<Self, MakeFault> {
        match value {
            Value::TypeName(x) => Ok(x),
            other => refuse(other),
        }
    }
}

impl FromValue for Specifiers {
    ghost kind = { specs.specifiers };

    ghost bare = { λ x. x };

    fn from_value(_: Global, value: Value) -> Result<Self, MakeFault> {
        match value {
            Value::Specifiers(x) => Ok(x),
            other => refuse(other),
        }
    }
}

impl FromValue for Base {
    ghost kind = { specs.base };

    ghost bare = { λ x. x };

    fn from_value(_: Global, value: Value) -> Result<Self, MakeFault> {
        match value {
            Value::Base(x) => Ok(x),
            other => refuse(other),
        }
    }
}

impl FromValue for IntegerWords {
    ghost kind = { specs.words };

    ghost bare = { λ x. x };

    fn from_value(_: Global, value: Value) -> Result<Self, MakeFault> {
        match value {
            Value::Words(x) => Ok(x),
            other => refuse(other),
        }
    }
}

impl FromValue for Pointer {
    ghost kind = { specs.qualifiers };

    ghost bare = { λ x. x };

    fn from_value(_: Global, value: Value) -> Result<Self, MakeFault> {
        match value {
            Value::Qualifiers(x) => Ok(x),
            other => refuse(other),
        }
    }
}

impl FromValue for Pointers {
    ghost kind = { specs.pointers };

    ghost bare = { bare_pointers };

    fn from_value(_: Global, value: Value) -> Result<Self, MakeFault> {
        match value {
            Value::Pointers(x) => Ok(x),
            other => refuse(other),
        }
    }
}

impl FromValue for Declarator {
    ghost kind = { specs.declarator };

    ghost bare = { bare_declarator };

    fn from_value(_: Global, value: Value) -> Result<Self, MakeFault> {
        match value {
            Value::Declarator(x) => Ok(x),
            other => refuse(other),
        }
    }
}

impl FromValue for Declarators {
    ghost kind = { specs.declarators };

    ghost bare = { bare_declarators };

    fn from_value(_: Global, value: Value) -> Result<Self, MakeFault> {
        match value {
            Value::Declarators(x) => Ok(x),
            other => refuse(other),
        }
    }
}

impl FromValue for Member {
    ghost kind = { specs.member };

    ghost bare = { bare_member };

    fn from_value(_: Global, value: Value) -> Result<Self, MakeFault> {
        match value {
            Value::Member(x) => Ok(x),
            other => refuse(other),
        }
    }
}

impl FromValue for Members {
    ghost kind = { specs.members };

    ghost bare = { bare_members };

    fn from_value(_: Global, value: Value) -> Result<Self, MakeFault> {
        match value {
            Value::Members(x) => Ok(x),
            other => refuse(other),
        }
    }
}

impl FromValue for Init {
    ghost kind = { specs.init };

    ghost bare = { bare_init };

    fn from_value(_: Global, value: Value) -> Result<Self, MakeFault> {
        match value {
            Value::Init(x) => Ok(x),
            other => refuse(other),
        }
    }
}

impl FromValue for Option<Box<Init>> {
    ghost kind = { specs.optional_init };

    ghost bare = { option_bare bare_init };

    fn from_value(_: Global, value: Value) -> Result<Self, MakeFault> {
        match value {
            Value::OptionalInit(x) => Ok(x),
            other => refuse(other),
        }
    }
}

impl FromValue for Inits {
    ghost kind = { specs.inits };

    ghost bare = { bare_inits };

    fn from_value(_: Global, value: Value) -> Result<Self, MakeFault> {
        match value {
            Value::Inits(x) => Ok(x),
            other => refuse(other),
        }
    }
}

impl FromValue for InitDeclarator {
    ghost kind = { specs.init_declarator };

    ghost bare = { bare_init_declarator };

    fn from_value(_: Global, value: Value) -> Result<Self, MakeFault> {
        match value {
            Value::InitDeclarator(x) => Ok(x),
            other => refuse(other),
        }
    }
}

impl FromValue for InitDeclarators {
    ghost kind = { specs.init_declarators };

    ghost bare = { bare_init_declarators };

    fn from_value(_: Global, value: Value) -> Result<Self, MakeFault> {
        match value {
            Value::InitDeclarators(x) => Ok(x),
            other => refuse(other),
        }
    }
}

impl FromValue for LocalObject {
    ghost kind = { specs.object };

    ghost bare = { bare_local };

    fn from_value(_: Global, value: Value) -> Result<Self, MakeFault> {
        match value {
            Value::Object(x) => Ok(x),
            other => refuse(other),
        }
    }
}

impl FromValue for Stmt {
    ghost kind = { specs.stmt };

    ghost bare = { bare_stmt };

    fn from_value(_: Global, value: Value) -> Result<Self, MakeFault> {
        match value {
            Value::Stmt(x) => Ok(x),
            other => refuse(other),
        }
    }
}

impl FromValue for Option<Box<Stmt>> {
    ghost kind = { specs.optional_stmt };

    ghost bare = { option_bare bare_stmt };

    fn from_value(_: Global, value: Value) -> Result<Self, MakeFault> {
        match value {
            Value::OptionalStmt(x) => Ok(x),
            other => refuse(other),
        }
    }
}

impl FromValue for ForFirst {
    ghost kind = { specs.for_first };

    ghost bare = { bare_for_first };

    fn from_value(_: Global, value: Value) -> Result<Self, MakeFault> {
        match value {
            Value::ForFirst(x) => Ok(x),
            other => refuse(other),
        }
    }
}

impl FromValue for Items {
    ghost kind = { specs.items };

    ghost bare = { bare_items };

    fn from_value(_: Global, value: Value) -> Result<Self, MakeFault> {
        match value {
            Value::Items(x) => Ok(x),
            other => refuse(other),
        }
    }
}

impl FromValue for Label {
    ghost kind = { specs.label };

    ghost bare = { bare_label };

    fn from_value(_: Global, value: Value) -> Result<Self, MakeFault> {
        match value {
            Value::Label(x) => Ok(x),
            other => refuse(other),
        }
    }
}

impl FromValue for SwitchItems {
    ghost kind = { specs.switch_items };

    ghost bare = { bare_switch_items };

    fn from_value(_: Global, value: Value) -> Result<Self, MakeFault> {
        match value {
            Value::SwitchItems(x) => Ok(x),
            other => refuse(other),
        }
    }
}

impl FromValue for ExternalRest {
    ghost kind = { specs.external_rest };

    ghost bare = { bare_rest };

    fn from_value(_: Global, value: Value) -> Result<Self, MakeFault> {
        match value {
            Value::ExternalRest(x) => Ok(x),
            other => refuse(other),
        }
    }
}

impl FromValue for Option<Items> {
    ghost kind = { specs.function_end };

    ghost bare = { option_map bare_items };

    fn from_value(_: Global, value: Value) -> Result<Self, MakeFault> {
        match value {
            Value::FunctionEnd(x) => Ok(x),
            other => refuse(other),
        }
    }
}

impl FromValue for Parameters {
    ghost kind = { specs.parameters };

    ghost bare = { bare_parameters };

    fn from_value(_: Global, value: Value) -> Result<Self, MakeFault> {
        match value {
            Value::Parameters(x) => Ok(x),
            other => refuse(other),
        }
    }
}

impl FromValue for Parameter {
    ghost kind = { specs.parameter };

    ghost bare = { bare_parameter };

    fn from_value(_: Global, value: Value) -> Result<Self, MakeFault> {
        match value {
            Value::Parameter(x) => Ok(x),
            other => refuse(other),
        }
    }
}

impl FromValue for ParameterList {
    ghost kind = { specs.parameter_list };

    ghost bare = { bare_parameter_list };

    fn from_value(_: Global, value: Value) -> Result<Self, MakeFault> {
        match value {
            Value::ParameterList(x) => Ok(x),
            other => refuse(other),
        }
    }
}

impl FromValue for Unit {
    ghost kind = { specs.unit };

    ghost bare = { bare_unit };

    fn from_value(_: Global, value: Value) -> Result<Self, MakeFault> {
        match value {
            Value::Unit(x) => Ok(x),
            other => refuse(other),
        }
    }
}

impl FromValue for Units {
    ghost kind = { specs.units };

    ghost bare = { bare_units };

    fn from_value(_: Global, value: Value) -> Result<Self, MakeFault> {
        match value {
            Value::Units(x) => Ok(x),
            other => refuse(other),
        }
    }
}

/// The type of a register declaration, of which nothing is kept.
impl FromValue for () {
    ghost kind = { specs.register_type };

    ghost bare = { λ x. x };

    fn from_value(_: Global, value: Value) -> Result<Self, MakeFault> {
        match value {
            Value::RegisterType => Ok(()),
            other => refuse(other),
        }
    }
}
