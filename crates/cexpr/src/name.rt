//! What a name is read as.

ghost use Rattle.std.specs.Prelude.{IfOk, OnOk, ◌≡◌};
ghost use Rattle.cfault.specs.Fault.{noted};
ghost use Rattle.cexpr.specs.Name.{named, part_at, register_type, variable_at, window_reach};

use crate::ask::at_node;
use crate::item::{Marked, PlaceItem};
use crate::meaning::Meaning;
use crate::node::Whole;
use cfault::Faults;
use cprogram::AccessKind;
use csyn::{Cause, Mark};
use ctypes::{Base, BaseKind, CType, Qualifiers};
use memorymap::in_own_window;
use std::alloc::{AllocError, Global};

// `volatile unsigned int`
fn register_type(alloc: Global) -> CType
    ensures { result ≡ register_type }
{
    let base = Base {
        kind: BaseKind::UnsignedInt,
        qualifiers: Qualifiers {
            is_const: false,
            is_volatile: true,
        },
    };
    CType::new(base, Vec::new(alloc))
}

// Where an access to the volatile object at this address goes.
fn window_reach(address: u32) -> AccessKind
    ensures { result ≡ window_reach address }
{
    if in_own_window(address) {
        AccessKind::Own
    } else {
        AccessKind::Volatile
    }
}

// A plain variable by its name.
fn variable_at(mark: Mark, ctype: CType, kind: Whole) -> PlaceItem<Whole>
    ensures { result ≡ variable_at mark ctype kind }
{
    PlaceItem {
        ctype,
        reach: AccessKind::Plain,
        is_variable: true,
        place: Marked { mark, kind },
    }
}

/// Any other place.
pub fn part_at<N>(mark: Mark, ctype: CType, reach: AccessKind, kind: N) -> PlaceItem<N>
    ensures { result ≡ part_at mark ctype reach kind }
{
    PlaceItem {
        ctype,
        reach,
        is_variable: false,
        place: Marked { mark, kind },
    }
}

/// A name that stands for this. Functions and intrinsics are no values.
#[tactic(auto, unfolding(crate::specs::Name::named))]
pub fn named(
    alloc: Global,
    mark: Mark,
    meaning: &Meaning,
    faults: &mut Faults,
) -> Result<Option<PlaceItem<Whole>>, AllocError>
    ensures gives { IfOk result (λ p. p ≡ (named mark meaning.now).gives) }
    ensures noted { OnOk result (faults.new ≡ noted (named mark meaning.now).faults faults.old) }
{
    match meaning {
        Meaning::Undeclared => {
            faults.note(at_node(mark, Cause::S1));
            Ok(None)
        }
        Meaning::Function(_) | Meaning::Intrinsic(_) => {
            faults.note(at_node(mark, Cause::S4));
            Ok(None)
        }
        Meaning::Global(number, ctype) => {
            let ctype = ctype.copy(alloc)?;
            Ok(Some(variable_at(mark, ctype, Whole::Global(*number))))
        }
        Meaning::Volatile(address, ctype) => {
            let ctype = ctype.copy(alloc)?;
            let reach = window_reach(*address);
            Ok(Some(part_at(mark, ctype, reach, Whole::Volatile(*address))))
        }
        Meaning::Local(number, ctype) => {
            let ctype = ctype.copy(alloc)?;
            Ok(Some(variable_at(mark, ctype, Whole::Local(*number))))
        }
        Meaning::Register(register) => {
            let kind = Whole::Register(*register);
            Ok(Some(part_at(mark, register_type(alloc), AccessKind::Register, kind)))
        }
    }
}
