//! What a place is where its value is taken.

ghost use Rattle.std.specs.Prelude.{◌≡◌};
ghost use Rattle.cfault.specs.Fault.{noted};
ghost use Rattle.cexpr.specs.Used.{array_count, array_made, own_count, place_used, read_made, unscalar_used};

use crate::ask::at_node;
use crate::assignment::written;
use crate::item::{Marked, PlaceItem, ValueItem};
use crate::node::Taken;
use crate::place::kind_of;
use cfault::{Asked, Faults, judge};
use cprogram::{Access, AccessKind, Element, Pointer, Scalar};
use csize::{Structure, inner_element};
use csyn::Cause;
use ctypes::{CType, Step};

#[tactic(auto, unfolding(crate::specs::Used::read_made))]
fn read_made<P: Drop>(p: PlaceItem<P>, scalar: Scalar) -> ValueItem<Taken<P>>
    ensures { result ≡ read_made p scalar }
{
    let access = Access {
        kind: p.reach,
        scalar,
    };
    let Marked { mark, kind } = p.place;
    written(p.ctype, mark, Taken::Read(access, kind))
}

fn own_count(reach: AccessKind, count: u32) -> Option<u32>
    ensures { result ≡ own_count reach count }
{
    match reach {
        AccessKind::Own => Some(count),
        _ => None,
    }
}

#[tactic(auto, unfolding(crate::specs::Used::array_made))]
fn array_made<P: Drop>(p: PlaceItem<P>, count: u32, element: Element) -> ValueItem<Taken<P>>
    ensures { result ≡ array_made p count element }
{
    let pointer = Pointer {
        kind: kind_of(&p.ctype),
        element,
    };
    let mut ctype = p.ctype;
    ctype.decay();
    let Marked { mark, kind } = p.place;
    ValueItem {
        ctype,
        number: None,
        own: own_count(p.reach, count),
        value: Marked {
            mark,
            kind: Taken::ArrayPointer(pointer, count, kind),
        },
    }
}

fn array_count(ctype: &CType) -> Option<u32>
    ensures { result ≡ array_count ctype.now.steps }
{
    match ctype.steps() {
        [Step::Array(count), ..] => Some(*count),
        _ => None,
    }
}

fn unscalar_used<P: Drop>(
    structures: &[Structure],
    p: PlaceItem<P>,
    faults: &mut Faults,
) -> Option<ValueItem<Taken<P>>>
    ensures gives { result ≡ (unscalar_used structures.now p (array_count p.ctype.steps)).gives }
    ensures noted { faults.new ≡ noted (unscalar_used structures.now p (array_count p.ctype.steps)).faults faults.old }
{
    let Some(count) = array_count(&p.ctype) else {
        faults.note(at_node(p.place.mark, Cause::S20));
        return None;
    };
    let element = Asked::of(inner_element(structures, &p.ctype));
    let element = judge(at_node(p.place.mark, Cause::S4), element, faults)?;
    Some(array_made(p, count, element))
}

/// The value of a place. A struct has none.
#[tactic(auto, unfolding(crate::specs::Used::place_used))]
pub fn place_used<P: Drop>(
    structures: &[Structure],
    p: PlaceItem<P>,
    faults: &mut Faults,
) -> Option<ValueItem<Taken<P>>>
    ensures gives { result ≡ (place_used structures.now p).gives }
    ensures noted { faults.new ≡ noted (place_used structures.now p).faults faults.old }
{
    match p.ctype.scalar() {
        Some(scalar) => Some(read_made(p, scalar)),
        None => unscalar_used(structures, p, faults),
    }
}
