ghost use Rattle.std.specs.Prelude.{◌≡◌, ◌≤◌, ◌<◌, ◌^◌, length, Ok, IfOk, IfErr};
ghost use Rattle.pruelf.specs.Executable.{image_in};
ghost use Rattle.hostscript.specs.Scripts.{IsScript};
ghost use Rattle.twocore.specs.Machine.{M};
ghost use Rattle.simrun.specs.Simulation.{Leaves, IsFaultOf, LoadFails, ScriptFails};

use crate::fault::SimFault;
use crate::texts::{Texts, texts_of};
use corestep::Table;
use hostscript::{Script, ScriptFault, read_script};
use isa::Image;
use pruelf::{LoadFault, load};
use prunum::Memory;
use std::alloc::Global;
use twocore::{Machine, Outcome};

/// The image of a core's executable.
fn image(alloc: Global, core: u8, bytes: &[u8]) -> Result<Image, SimFault>
    requires { length bytes.now < 2 ^ 31 }
    ensures loaded { IfOk result (λ image. image_in bytes.now ≡ Ok image) }
    ensures fault { IfErr result (LoadFails core bytes.now) }
{
    match load(alloc, bytes) {
        Ok(image) => Ok(image),
        Err(LoadFault::At { offset, cause }) => Err(SimFault::Elf {
            core,
            offset,
            cause,
        }),
        Err(LoadFault::Memory) => Err(SimFault::NoMemory),
    }
}

/// The script of a text.
fn script_of(alloc: Global, text: &[u8]) -> Result<Script, SimFault>
    requires { length text.now < 2 ^ 31 }
    ensures read { IfOk result (IsScript text.now) }
    ensures fault { IfErr result (ScriptFails text.now) }
{
    match read_script(alloc, text) {
        Ok(script) => Ok(script),
        Err(ScriptFault::Line { line, cause }) => Err(SimFault::Script { line, cause }),
        Err(ScriptFault::Memory) => Err(SimFault::NoMemory),
    }
}

/// What both cores show in so many cycles.
fn shown(
    alloc: Global,
    table: Table,
    zero: Image,
    one: Image,
    script: Script,
    cycles: u32,
) -> Result<Outcome, Memory>
    requires { cycles ≤ 2000000 }
    ensures { IfOk result (λ shown. shown ≡ M table zero one script cycles) }
{
    let mut machine = Machine::new(alloc, table, zero, one, script)?;
    machine.run(cycles)?;
    Ok(machine.outcome())
}

/// Runs the executables of both cores for so many cycles under the script, by the cycle table.
pub fn simulate(
    alloc: Global,
    zero: &[u8],
    one: &[u8],
    script: &[u8],
    table: Table,
    cycles: u32,
) -> Result<Texts, SimFault>
    requires zero { length zero.now < 2 ^ 31 }
    requires one { length one.now < 2 ^ 31 }
    requires script { length script.now < 2 ^ 31 }
    requires cycles { cycles ≤ 2000000 }
    // The texts are those of the machine's run of what the three hold.
    ensures leaves { IfOk result (Leaves table zero.now one.now script.now cycles) }
    // A fault is the first one: of core 0's executable, then of core 1's, then of the script.
    ensures fault { IfErr result (IsFaultOf zero.now one.now script.now) }
{
    let first = image(alloc, 0, zero)?;
    let second = image(alloc, 1, one)?;
    let script = script_of(alloc, script)?;
    let outcome = shown(alloc, table, first, second, script, cycles)?;
    Ok(texts_of(alloc, &outcome)?)
}
