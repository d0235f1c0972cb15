//! One pass over the steps, in their order, makes the table.

ghost use Rattle.std.specs.Prelude.{◌≡◌, Contains};
ghost use Rattle.loopbound.specs.Table.{label_in, shapes, Fits, Tight};
ghost use Rattle.loopbound.specs.Order.{IsReady, IsLong};

use crate::graph::{Bounds, Side, Step, TimedLoop};
use crate::joining::{put_label, take_step};
use crate::judge::{fits, tight};

/// What one pass comes to.
#[derive(Clone, Copy, Debug, PartialEq, Eq)]
pub enum Passed {
    /// The table fits and is tight.
    Exact,
    /// A step has a sum above the limit.
    Long,
    /// The steps weren't in their order, or the table not empty.
    Disordered,
}

/// The bounds of all paths from an entry, in one pass over the steps. Labels and turns are none before.
pub fn pass(
    steps: &[Step],
    loops: &mut [TimedLoop],
    labels: &mut [Option<Bounds>],
    entry: u32,
    limit: u32,
) -> Passed
    ensures shapes { shapes loops.new ≡ shapes loops.old }
    ensures fits { result ≡ Passed.Exact → Fits (Contains steps.now) loops.new (label_in labels.new) entry }
    ensures least { result ≡ Passed.Exact → Tight (Contains steps.now) loops.new (label_in labels.new) entry Side.Least }
    ensures most { result ≡ Passed.Exact → Tight (Contains steps.now) loops.new (label_in labels.new) entry Side.Most }
    ensures long { result ≡ Passed.Long → IsReady steps.now loops.old labels.old entry → IsLong steps.now (shapes loops.old) entry limit }
    ensures ordered { IsReady steps.now loops.old labels.old entry → result ≡ Passed.Disordered → ⊥ }
{
    put_label(labels, entry, Bounds { least: 0, most: 0 });
    for step in steps {
        if !take_step(step, loops, labels, limit) {
            return Passed::Long;
        }
    }
    judged(steps, loops, labels, entry)
}

/// Whether a table is exact.
fn judged(steps: &[Step], loops: &[TimedLoop], labels: &[Option<Bounds>], entry: u32) -> Passed
    ensures fits { result ≡ Passed.Exact → Fits (Contains steps.now) loops.now (label_in labels.now) entry }
    ensures least { result ≡ Passed.Exact → Tight (Contains steps.now) loops.now (label_in labels.now) entry Side.Least }
    ensures most { result ≡ Passed.Exact → Tight (Contains steps.now) loops.now (label_in labels.now) entry Side.Most }
    ensures long { result ≡ Passed.Long → ⊥ }
    ensures exact { Fits (Contains steps.now) loops.now (label_in labels.now) entry
        → Tight (Contains steps.now) loops.now (label_in labels.now) entry Side.Least
        → Tight (Contains steps.now) loops.now (label_in labels.now) entry Side.Most → result ≡ Passed.Exact }
{
    if !fits(steps, loops, labels, entry) {
        return Passed::Disordered;
    }
    if !tight(Side::Least, steps, loops, labels, entry) {
        return Passed::Disordered;
    }
    if !tight(Side::Most, steps, loops, labels, entry) {
        return Passed::Disordered;
    }
    Passed::Exact
}
