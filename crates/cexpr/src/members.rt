//! Members of structs: `a.b` and `p->b`.

ghost use Rattle.std.specs.Prelude.{IfOk, OnOk, ◌≡◌};
ghost use Rattle.cfault.specs.Fault.{noted};
ghost use Rattle.cexpr.specs.Member.{arrays_before, arrow, arrow_made, arrow_to, base_qualified, member, member_in, member_made, member_named, member_to, qualified, struct_of, struct_place, struct_pointer, with_qualifiers};

use crate::ask::{at_node, pointer};
use crate::item::{Item, PlaceItem, PointerItem, ValueItem};
use crate::name::part_at;
use crate::node::{Inner, Reached};
use crate::place::reach_of;
use cfault::{Asked, Faults, judge};
use cscope::NameId;
use csize::{Member, Structure};
use csyn::{Cause, Mark};
use ctypes::{Base, BaseKind, CType, Qualifiers, Step, StructId};
use std::alloc::{AllocError, Global};

fn with_qualifiers(q: Qualifiers, r: Qualifiers) -> Qualifiers
    ensures { result ≡ with_qualifiers q r }
{
    Qualifiers {
        is_const: q.is_const || r.is_const,
        is_volatile: q.is_volatile || r.is_volatile,
    }
}

// The qualifiers of an array are its elements': how many steps come before what has them.
fn arrays_before(steps: &[Step]) -> usize
    ensures { result ≡ arrays_before steps.now }
{
    let mut count = 0;
    for step in steps {
        if let Step::Pointer(_) = step {
            return count;
        }
        count += 1;
    }
    count
}

fn base_qualified(q: Qualifiers, base: Base) -> Base
    ensures { result ≡ base_qualified q base }
{
    Base {
        kind: base.kind,
        qualifiers: with_qualifiers(q, base.qualifiers),
    }
}

// The type with further qualifiers.
#[tactic(auto, unfolding(crate::specs::Member::qualified))]
fn qualified(alloc: Global, q: Qualifiers, ctype: &CType) -> Result<CType, AllocError>
    ensures { IfOk result (λ t. t ≡ qualified q ctype.now) }
{
    let mut steps = Vec::from_slice(alloc, ctype.steps())?;
    let at = arrays_before(ctype.steps());
    match ctype.steps().get(at) {
        Some(Step::Pointer(own)) => {
            steps[at] = Step::Pointer(with_qualifiers(q, *own));
            Ok(CType::new(ctype.base(), steps))
        }
        _ => Ok(CType::new(base_qualified(q, ctype.base()), steps)),
    }
}

fn member_named(
    alloc: Global,
    name: NameId,
    members: &[Member],
) -> Result<Option<Member>, AllocError>
    ensures { IfOk result (λ m. m ≡ member_named name members.now) }
{
    for member in members {
        if member.name.0 == name.0 {
            let ctype = member.ctype.copy(alloc)?;
            return Ok(Some(Member {
                name: member.name,
                ctype,
                offset: member.offset,
            }));
        }
    }
    Ok(None)
}

// The member of this name. A struct that isn't complete yet has none.
fn member_in(
    alloc: Global,
    structures: &[Structure],
    id: StructId,
    name: NameId,
) -> Result<Option<Member>, AllocError>
    ensures { IfOk result (λ m. m ≡ member_in structures.now id name) }
{
    match structures.get(id.0 as usize) {
        None => Ok(None),
        Some(structure) => {
            let member = member_named(alloc, name, &structure.members)?;
            Ok(member)
        }
    }
}

fn struct_of(ctype: &CType) -> Option<StructId>
    ensures { result ≡ struct_of ctype.now.base.kind ctype.now.steps }
{
    match (ctype.base().kind, ctype.steps()) {
        (BaseKind::Struct(id), []) => Some(id),
        _ => None,
    }
}

// A place of a struct type.
#[tactic(auto, unfolding(crate::specs::Member::struct_place))]
fn struct_place<V: Drop, P: Drop>(item: Option<Item<V, P>>) -> Asked<(PlaceItem<P>, StructId)>
    ensures { result ≡ struct_place item }
{
    match item {
        None => Asked::Unsaid,
        Some(Item::Value(_)) => Asked::No,
        Some(Item::Place(place)) => match struct_of(&place.ctype) {
            Some(id) => Asked::Yes((place, id)),
            None => Asked::No,
        },
    }
}

#[tactic(auto, unfolding(crate::specs::Member::member_made))]
fn member_made<P: Drop>(
    alloc: Global,
    mark: Mark,
    p: PlaceItem<P>,
    member: Member,
) -> Result<PlaceItem<Inner<P>>, AllocError>
    ensures { IfOk result (λ r. r ≡ member_made mark p member) }
{
    let ctype = qualified(alloc, p.ctype.qualifiers(), &member.ctype)?;
    let kind = Inner {
        whole: p.place,
        offset: member.offset,
    };
    Ok(part_at(mark, ctype, p.reach, kind))
}

fn member_to<P: Drop>(
    alloc: Global,
    structures: &[Structure],
    mark: Mark,
    name: NameId,
    a: Option<(PlaceItem<P>, StructId)>,
    faults: &mut Faults,
) -> Result<Option<PlaceItem<Inner<P>>>, AllocError>
    ensures gives { IfOk result (λ p. p ≡ (member_to structures.now mark name a).gives) }
    ensures noted { OnOk result (faults.new ≡ noted (member_to structures.now mark name a).faults faults.old) }
{
    let Some((place, id)) = a else {
        return Ok(None);
    };
    let found = member_in(alloc, structures, id, name)?;
    let Some(member) = judge(at_node(mark, Cause::S1), Asked::of(found), faults) else {
        return Ok(None);
    };
    let made = member_made(alloc, mark, place, member)?;
    Ok(Some(made))
}

/// `a.b`
#[tactic(auto, using(cfault::proofs::Least::noted_append), unfolding(crate::specs::Member::member))]
pub fn member<V: Drop, P: Drop>(
    alloc: Global,
    structures: &[Structure],
    mark: Mark,
    name: NameId,
    a: Option<Item<V, P>>,
    faults: &mut Faults,
) -> Result<Option<PlaceItem<Inner<P>>>, AllocError>
    ensures gives { IfOk result (λ p. p ≡ (member structures.now mark name a).gives) }
    ensures noted { OnOk result (faults.new ≡ noted (member structures.now mark name a).faults faults.old) }
{
    let a = judge(at_node(mark, Cause::S4), struct_place(a), faults);
    let made = member_to(alloc, structures, mark, name, a, faults)?;
    Ok(made)
}

// A pointer to a struct.
#[tactic(auto, unfolding(crate::specs::Member::struct_pointer))]
fn struct_pointer<V: Drop>(item: Option<ValueItem<V>>) -> Asked<(PointerItem<V>, StructId)>
    ensures { result ≡ struct_pointer item }
{
    match pointer(item) {
        Asked::Unsaid => Asked::Unsaid,
        Asked::No => Asked::No,
        Asked::Yes(pointer) => match struct_of(&pointer.target) {
            Some(id) => Asked::Yes((pointer, id)),
            None => Asked::No,
        },
    }
}

#[tactic(auto, unfolding(crate::specs::Member::arrow_made))]
fn arrow_made<V: Drop>(
    alloc: Global,
    mark: Mark,
    p: PointerItem<V>,
    member: Member,
) -> Result<PlaceItem<Reached<V>>, AllocError>
    ensures { IfOk result (λ r. r ≡ arrow_made mark p member) }
{
    let ctype = qualified(alloc, p.target.qualifiers(), &member.ctype)?;
    let kind = Reached::Arrow(p.value, member.offset);
    Ok(part_at(mark, ctype, reach_of(p.kind), kind))
}

fn arrow_to<V: Drop>(
    alloc: Global,
    structures: &[Structure],
    mark: Mark,
    name: NameId,
    a: Option<(PointerItem<V>, StructId)>,
    faults: &mut Faults,
) -> Result<Option<PlaceItem<Reached<V>>>, AllocError>
    ensures gives { IfOk result (λ p. p ≡ (arrow_to structures.now mark name a).gives) }
    ensures noted { OnOk result (faults.new ≡ noted (arrow_to structures.now mark name a).faults faults.old) }
{
    let Some((pointer, id)) = a else {
        return Ok(None);
    };
    let found = member_in(alloc, structures, id, name)?;
    let Some(member) = judge(at_node(mark, Cause::S1), Asked::of(found), faults) else {
        return Ok(None);
    };
    let made = arrow_made(alloc, mark, pointer, member)?;
    Ok(Some(made))
}

/// `p->b`
#[tactic(auto, using(cfault::proofs::Least::noted_append), unfolding(crate::specs::Member::arrow))]
pub fn arrow<V: Drop>(
    alloc: Global,
    structures: &[Structure],
    mark: Mark,
    name: NameId,
    a: Option<ValueItem<V>>,
    faults: &mut Faults,
) -> Result<Option<PlaceItem<Reached<V>>>, AllocError>
    ensures gives { IfOk result (λ p. p ≡ (arrow structures.now mark name a).gives) }
    ensures noted { OnOk result (faults.new ≡ noted (arrow structures.now mark name a).faults faults.old) }
{
    let a = judge(at_node(mark, Cause::S4), struct_pointer(a), faults);
    let made = arrow_to(alloc, structures, mark, name, a, faults)?;
    Ok(made)
}
