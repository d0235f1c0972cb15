//! Where operations go to: labels, goals and loops, by places.

ghost use Rattle.std.specs.Prelude.{◌≡◌, ◌<◌, length, Some, IfOk, OnOk};
ghost use Rattle.midcode.specs.declared.register.Label.{Label};
ghost use Rattle.livespan.specs.Live.{with_label, goal_in, with_loop, start_at, ArePlaces, AreGoals, AreLoops, AreStarts, HaveTargets};

use crate::area::Area;
use crate::operations::{kind_at, label, target};
use midcode::{Label, OpKind};
use prunum::Memory;
use std::alloc::Global;

fn put_label(places: &mut [usize], label: Option<Label>, place: usize)
    ensures { places.new ≡ with_label places.old label place }
{
    match label {
        None => {}
        Some(label) => {
            if (label.0 as usize) < places.len() {
                places[label.0 as usize] = place;
            }
        }
    }
}

/// The places of labels, by their numbers, and the number of all operations for one that doesn't stand.
fn label_places(alloc: Global, kinds: &[OpKind], labels: usize) -> Result<Vec<usize>, Memory>
    ensures len { IfOk result (λ places. length places.items ≡ labels) }
    ensures places { IfOk result (λ places. ArePlaces kinds.now places.items) }
{
    let mut places = vec![in alloc; kinds.len(); labels]?;
    let mut place = kinds.len();
    while place > 0 {
        place -= 1;
        put_label(&mut places, label(&kinds[place]), place);
    }
    Ok(places)
}

fn goal(places: &[usize], target: Option<Label>) -> Option<usize>
    requires { (l : Label) → target ≡ Some l → l.0 < length places.now }
    ensures { result ≡ goal_in places.now target }
{
    match target {
        None => None,
        Some(label) => Some(places[label.0 as usize]),
    }
}

/// For each operation the place that it may go to.
pub fn goals(alloc: Global, kinds: &[OpKind], labels: usize) -> Result<Vec<Option<usize>>, Memory>
    requires { HaveTargets kinds.now labels }
    ensures { IfOk result (λ goals. AreGoals kinds.now goals.items) }
{
    let places = label_places(alloc, kinds, labels)?;
    let mut goals = Vec::with_capacity(alloc, kinds.len())?;
    for place in 0..kinds.len() {
        goals.push(goal(&places, target(&kind_at(kinds, place))))?;
    }
    Ok(goals)
}

fn add_loop(loops: &mut Vec<Area>, goal: Option<usize>, last: usize) -> Result<(), Memory>
    ensures { OnOk result (loops.new.items ≡ with_loop loops.old.items goal last) }
{
    match goal {
        None => Ok(()),
        Some(first) => {
            if first <= last {
                loops.push(Area { first, last })?;
            }
            Ok(())
        }
    }
}

/// The loops of jumps back.
pub fn loops(alloc: Global, goals: &[Option<usize>]) -> Result<Vec<Area>, Memory>
    ensures { IfOk result (λ loops. AreLoops goals.now loops.items) }
{
    let mut loops = Vec::new(alloc);
    for last in 0..goals.len() {
        add_loop(&mut loops, goals[last], last)?;
    }
    Ok(loops)
}

fn start_at(label: Option<Label>, place: usize, start: usize) -> usize
    ensures { result ≡ start_at label place start }
{
    match label {
        None => start,
        Some(_) => place,
    }
}

/// For each operation the place of the last label that stands up to it, and 0 where none does.
pub fn starts(alloc: Global, kinds: &[OpKind]) -> Result<Vec<usize>, Memory>
    ensures { IfOk result (λ starts. AreStarts kinds.now starts.items) }
{
    let mut starts = Vec::with_capacity(alloc, kinds.len())?;
    let mut start = 0;
    for place in 0..kinds.len() {
        start = start_at(label(&kinds[place]), place, start);
        starts.push(start)?;
    }
    Ok(starts)
}
