//! Where the instructions of a program go.

ghost use Rattle.std.specs.Prelude.{◌≡◌, ℕ, ◌<◌, IfOk, OnOk};
ghost use Rattle.std.specs.List.{filter_map};
ghost use Rattle.branchfit.specs.Laid.{place_behind};
ghost use Rattle.branchfit.specs.Aims.{reach_of, aim_of, spot_of, spots_of};
ghost use Rattle.branchfit.specs.Places.{found, known_behind, found_behind, Knows};

use isa::{Inst, Item, Target};
use prunum::Memory;
use std::alloc::Global;
use std::collections::BTreeMap;

/// How far the word of an instruction may go.
#[derive(Clone, Copy, Debug, PartialEq, Eq)]
pub enum Reach {
    /// To any word, or to none.
    Anywhere,
    /// As far as the offset of a branch tells.
    Always,
    /// The same, where a condition holds.
    Conditional,
}

/// An instruction at its place: how far its word goes, and the place that it goes to.
#[derive(Clone, Copy, Debug, PartialEq, Eq)]
pub struct Spot {
    pub reach: Reach,
    pub aim: Option<usize>,
}

pub fn reach_of(i: &Inst) -> Reach
    ensures { result ≡ reach_of i.now }
{
    match i {
        Inst::Branch { .. } => Reach::Conditional,
        Inst::Qba { .. } => Reach::Always,
        _ => Reach::Anywhere,
    }
}

fn found(places: &BTreeMap<u32, usize>, label: u32) -> Option<usize>
    ensures { result ≡ found places.now label }
{
    places.get(&label).copied()
}

fn aim_of(places: &BTreeMap<u32, usize>, target: &Target) -> Option<usize>
    ensures { result ≡ aim_of (found places.now) target.now }
{
    match *target {
        Target::Label(l) => found(places, l),
        Target::Symbol { .. } => None,
    }
}

/// The spot of an item that is an instruction.
fn spot_of(places: &BTreeMap<u32, usize>, item: &Item) -> Option<Spot>
    ensures { result ≡ spot_of (found places.now) item.now }
{
    match item {
        Item::Label(_) | Item::Note { .. } | Item::Source(_) => None,
        Item::Whole(_) => Some(Spot {
            reach: Reach::Anywhere,
            aim: None,
        }),
        Item::Aimed { inst, target } => Some(Spot {
            reach: reach_of(inst),
            aim: aim_of(places, target),
        }),
    }
}

/// Puts a label at a place, where it has none yet.
fn put(places: &mut BTreeMap<u32, usize>, label: u32, place: usize) -> Result<(), Memory>
    ensures { OnOk result ((l : ℕ) → found places.new l ≡ known_behind places.old label place l) }
{
    if !places.contains_key(&label) {
        places.insert(label, place)?;
    }
    Ok(())
}

/// Puts the label that an item is at a place.
fn put_label(places: &mut BTreeMap<u32, usize>, place: usize, item: &Item) -> Result<(), Memory>
    ensures { OnOk result ((l : ℕ) → found places.new l ≡ found_behind places.old place item.now l) }
{
    if let Item::Label(label) = *item {
        put(places, label, place)?;
    }
    Ok(())
}

/// The place behind an item.
pub fn place_behind(place: usize, item: &Item) -> usize
    requires { place < usize.MAX }
    ensures { result ≡ place_behind place item.now }
{
    match item {
        Item::Whole(_) | Item::Aimed { .. } => place + 1,
        Item::Label(_) | Item::Note { .. } | Item::Source(_) => place,
    }
}

#[tactic(auto, using(crate::proofs::PlaceLemmas::knows_begin))]
/// The places of labels: each is the number of instructions before it.
fn places_of(alloc: Global, items: &[Item]) -> Result<BTreeMap<u32, usize>, Memory>
    ensures { IfOk result (Knows items.now) }
{
    let mut places = BTreeMap::new(alloc);
    let mut place = 0;
    let mut rest = items;
    while let Some((item, behind)) = rest.split_first() {
        put_label(&mut places, place, item)?;
        let next = place_behind(place, item);
        place = next;
        rest = behind;
    }
    Ok(places)
}

/// The instructions of a program, in their order.
pub fn spots_of(alloc: Global, items: &[Item]) -> Result<Vec<Spot>, Memory>
    ensures { IfOk result (λ spots. spots.items ≡ spots_of items.now) }
{
    let places = places_of(alloc, items)?;
    let spots = spots_found(alloc, &places, items)?;
    Ok(spots)
}

fn spots_found(
    alloc: Global,
    places: &BTreeMap<u32, usize>,
    items: &[Item],
) -> Result<Vec<Spot>, Memory>
    ensures { IfOk result (λ spots. spots.items ≡ filter_map (spot_of (found places.now)) items.now) }
{
    let spots = items
        .iter()
        .filter_map(|item| spot_of(places, item))
        .collect(alloc)?;
    Ok(spots)
}
