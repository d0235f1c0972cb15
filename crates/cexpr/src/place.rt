//! Places that pointers lead to, and addresses.

ghost use Rattle.std.specs.Prelude.{IfOk, OnOk, ◌≡◌};
ghost use Rattle.cfault.specs.Fault.{noted};
ghost use Rattle.ctypes.specs.Shape.{kind_of_target, qualifiers};
ghost use Rattle.cexpr.specs.Place.{address, address_made, dereference_made, dereferenced, element_reach, index_made, indexed, object, pointer_of, reach_of};

use crate::ask::{at_node, integer, pointer, stride};
use crate::assignment::written;
use crate::item::{IntegerItem, Item, PlaceItem, PointerItem, ValueItem};
use crate::name::part_at;
use crate::node::{PlaceUse, Reached};
use crate::number::{widened, word_of};
use cfault::{Asked, Faults, judge};
use cprogram::{AccessKind, Element, Pointer, PointerKind};
use csize::Structure;
use csyn::{Cause, Mark};
use ctypes::{CType, promoted};
use std::alloc::AllocError;

/// Where an access through a pointer goes.
pub fn reach_of(kind: PointerKind) -> AccessKind
    ensures { result ≡ reach_of kind }
{
    match kind {
        PointerKind::Plain => AccessKind::Plain,
        PointerKind::Volatile => AccessKind::Volatile,
    }
}

/// Which kind of pointer points to this type.
pub fn kind_of(target: &CType) -> PointerKind
    ensures { result ≡ kind_of_target (qualifiers target.now.base target.now.steps) }
{
    if target.qualifiers().is_volatile {
        PointerKind::Volatile
    } else {
        PointerKind::Plain
    }
}

/// The pointer that a value is, to elements of this size.
pub fn pointer_of<V>(p: &PointerItem<V>, element: Element) -> Pointer
    ensures { result ≡ pointer_of p.now element }
{
    Pointer {
        kind: p.kind,
        element,
    }
}

#[tactic(auto, unfolding(crate::specs::Place::dereference_made))]
fn dereference_made<V: Drop>(mark: Mark, p: PointerItem<V>) -> PlaceItem<Reached<V>>
    ensures { result ≡ dereference_made mark p }
{
    part_at(
        mark,
        p.target,
        reach_of(p.kind),
        Reached::Dereference(p.value),
    )
}

/// `*p`
#[tactic(auto, unfolding(crate::specs::Place::dereferenced))]
pub fn dereferenced<V: Drop>(
    mark: Mark,
    a: Option<ValueItem<V>>,
    faults: &mut Faults,
) -> Option<PlaceItem<Reached<V>>>
    ensures gives { result ≡ (dereferenced mark a).gives }
    ensures noted { faults.new ≡ noted (dereferenced mark a).faults faults.old }
{
    let p = judge(at_node(mark, Cause::S4), pointer(a), faults)?;
    Some(dereference_made(mark, p))
}

fn element_reach(kind: PointerKind, own: Option<u32>, index: Option<u32>) -> AccessKind
    ensures { result ≡ element_reach kind own index }
{
    match (own, index) {
        (Some(count), Some(i)) if i < count => AccessKind::Own,
        _ => reach_of(kind),
    }
}

#[tactic(auto, unfolding(crate::specs::Place::index_made))]
fn index_made<V: Drop>(
    mark: Mark,
    p: PointerItem<V>,
    element: Element,
    i: IntegerItem<V>,
) -> PlaceItem<Reached<V>>
    ensures { result ≡ index_made mark p element i }
{
    let reach = element_reach(p.kind, p.own, word_of(i.integer, i.number));
    let pointer = pointer_of(&p, element);
    let kind = Reached::Subscript(pointer, p.value, promoted(i.integer), widened(i));
    part_at(mark, p.target, reach, kind)
}

/// `p[i]`
#[tactic(auto, unfolding(crate::specs::Place::indexed))]
pub fn indexed<V: Drop>(
    structures: &[Structure],
    mark: Mark,
    a: Option<ValueItem<V>>,
    i: Option<ValueItem<V>>,
    faults: &mut Faults,
) -> Option<PlaceItem<Reached<V>>>
    ensures gives { result ≡ (indexed structures.now mark a i).gives }
    ensures noted { faults.new ≡ noted (indexed structures.now mark a i).faults faults.old }
{
    let asked = stride(structures, a).and(integer(i));
    let ((p, element), i) = judge(at_node(mark, Cause::S4), asked, faults)?;
    Some(index_made(mark, p, element, i))
}

// Anything that names an object in memory.
#[tactic(auto, unfolding(crate::specs::Place::object))]
fn object<V: Drop, P: Drop>(item: Option<Item<V, P>>) -> Asked<PlaceItem<P>>
    ensures { result ≡ object item }
{
    match item {
        None => Asked::Unsaid,
        Some(Item::Value(_)) => Asked::No,
        Some(Item::Place(place)) => match place.reach {
            AccessKind::Register => Asked::No,
            _ => Asked::Yes(place),
        },
    }
}

#[tactic(auto, unfolding(crate::specs::Place::address_made))]
fn address_made<P: Drop>(mark: Mark, p: PlaceItem<P>) -> Result<ValueItem<PlaceUse<P>>, AllocError>
    ensures { IfOk result (λ v. v ≡ address_made mark p) }
{
    let pointer = kind_of(&p.ctype);
    let mut ctype = p.ctype;
    ctype.point()?;
    Ok(written(ctype, mark, PlaceUse::Address(pointer, p.place)))
}

/// `&a`
#[tactic(auto, unfolding(crate::specs::Place::address))]
pub fn address<V: Drop, P: Drop>(
    mark: Mark,
    a: Option<Item<V, P>>,
    faults: &mut Faults,
) -> Result<Option<ValueItem<PlaceUse<P>>>, AllocError>
    ensures gives { IfOk result (λ v. v ≡ (address mark a).gives) }
    ensures noted { OnOk result (faults.new ≡ noted (address mark a).faults faults.old) }
{
    let Some(p) = judge(at_node(mark, Cause::S4), object(a), faults) else {
        return Ok(None);
    };
    let made = address_made(mark, p)?;
    Ok(Some(made))
}
