//! Values and places of the checked program, and its arguments. Contracts see them without their pointers.

use cprogram::{Operands, PlaceKind, ValueKind};
use std::marker::Model;

/// What a value is.
#[derive(Drop)]
pub struct ValueNode {
    pub(crate) kind: ValueKind,
}

impl Model for ValueNode {
    ghost use Rattle.cnode.specs.Bare.{bare_kind};
    ghost use Rattle.cprogram.specs.declared.value.ValueKind.{ValueKind};
    ghost use Rattle.cprogram.specs.contracts.value.ValueKind as kinds;
    ghost use Rattle.std.specs.Coded.{codes};

    ghost Value = { ValueKind };

    ghost coded = { Prim.hlevel (codes, kinds.the_row.coded) };

    ghost view = { λ a. bare_kind a.kind };
}

/// What a place is.
#[derive(Drop)]
pub struct PlaceNode {
    pub(crate) kind: PlaceKind,
}

impl Model for PlaceNode {
    ghost use Rattle.cnode.specs.Bare.{bare_place_kind};
    ghost use Rattle.cprogram.specs.declared.value.PlaceKind.{PlaceKind};
    ghost use Rattle.cprogram.specs.contracts.value.PlaceKind as kinds;
    ghost use Rattle.std.specs.Coded.{codes};

    ghost Value = { PlaceKind };

    ghost coded = { Prim.hlevel (codes, kinds.the_row.coded) };

    ghost view = { λ a. bare_place_kind a.kind };
}

/// The arguments of a call.
#[derive(Drop)]
pub struct ArgumentNodes {
    pub(crate) operands: Operands,
}

impl Model for ArgumentNodes {
    ghost use Rattle.cnode.specs.Bare.{bare_operands};
    ghost use Rattle.cprogram.specs.declared.value.Operands.{Operands};
    ghost use Rattle.cprogram.specs.contracts.value.Operands as kinds;
    ghost use Rattle.std.specs.Coded.{codes};

    ghost Value = { Operands };

    ghost coded = { Prim.hlevel (codes, kinds.the_row.coded) };

    ghost view = { λ a. bare_operands a.operands };
}
