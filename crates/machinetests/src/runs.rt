//! Whole runs of two images under a script.

ghost use Rattle.std.specs.Prelude.{◌≡◌, ◌≤◌, IfOk};
ghost use Rattle.twocore.specs.Machine.{M};

use corestep::Table;
use hostscript::Script;
use isa::Image;
use prunum::Memory;
use std::alloc::Global;
use twocore::{Machine, Outcome};

/// What both cores show in `n` cycles, done in two pieces.
pub fn in_pieces(
    alloc: Global,
    table: Table,
    zero: Image,
    one: Image,
    script: Script,
    first: u32,
    n: u32,
) -> Result<Outcome, Memory>
    requires pieces { first ≤ n }
    requires most { n ≤ 2000000 }
    ensures { IfOk result (λ shown. shown ≡ M table zero one script n) }
{
    let mut machine = Machine::new(alloc, table, zero, one, script)?;
    machine.run(first)?;
    machine.run(n - first)?;
    Ok(machine.outcome())
}

/// What they show in `n` cycles behind a restart after `first` cycles.
pub fn begun_again(
    alloc: Global,
    table: Table,
    zero: Image,
    one: Image,
    script: Script,
    first: u32,
    n: u32,
) -> Result<Outcome, Memory>
    requires before { first ≤ 2000000 }
    requires most { n ≤ 2000000 }
    ensures { IfOk result (λ shown. shown ≡ M table zero one script n) }
{
    let mut machine = Machine::new(alloc, table, zero, one, script)?;
    machine.run(first)?;
    machine.restart();
    machine.run(n)?;
    Ok(machine.outcome())
}
