//! A run of two executables.

ghost use Rattle.std.specs.Prelude.{◌≡◌, ◌≤◌, ℕ, List, [], ◌∷◌, length, IfOk, IfErr};
ghost use Rattle.std.specs.String.{string_bytes};
ghost use Rattle.modefiles.specs.Writing.{named};
ghost use Rattle.simrun.specs.Simulation.{IsFaultOf};
ghost use Rattle.prucc.specs.Job.{events_name, trace_name};
ghost use Rattle.prucc.specs.Executables.{SimMakes, SimRefuses, IsElf};

use crate::job::BothCores;
use crate::refusal::Refusal;
use crate::work::{Work, push_output};
use corestep::Table;
use modefiles::Name;
use pruelf::LoadCause;
use prunum::Memory;
use simrun::{SimFault, Texts, simulate};
use std::alloc::Global;

// The refusal of an executable of this name.
fn elf_refusal(alloc: Global, name: &Name, offset: u32, cause: LoadCause) -> Refusal
    ensures { IsElf name.now offset cause result }
{
    match Name::of(alloc, name.as_str()) {
        Ok(name) => Refusal::Elf {
            name,
            offset,
            cause,
        },
        Err(Memory) => Refusal::NoMemory,
    }
}

// The refusal of a fault, with the executable's name in place of its core.
fn refusal_of(alloc: Global, cores: &BothCores, fault: SimFault) -> Refusal
    ensures { (zero : List ℕ) → (one : List ℕ) → (script : List ℕ) → IsFaultOf zero one script fault
        → SimRefuses cores.now zero one script result }
{
    match fault {
        SimFault::Elf {
            core,
            offset,
            cause,
        } => {
            if core == 0 {
                return elf_refusal(alloc, &cores.zero, offset, cause);
            }
            elf_refusal(alloc, &cores.one, offset, cause)
        }
        SimFault::Script { line, cause } => Refusal::Script { line, cause },
        SimFault::NoMemory => Refusal::NoMemory,
    }
}

// The texts as files and lines.
fn work_of(alloc: Global, cores: &BothCores, texts: Texts) -> Result<Work, Memory>
    ensures files { IfOk result (λ work. named work.outputs.items
        ≡ (events_name cores.now, texts.events.items) ∷ (trace_name cores.now, texts.trace.items) ∷ []) }
    ensures lines { IfOk result (λ work. string_bytes work.lines ≡ string_bytes texts.summary) }
{
    let Texts {
        events,
        trace,
        summary,
    } = texts;
    let mut outputs = Vec::new(alloc);
    push_output(&mut outputs, cores.events_name(alloc)?, events)?;
    push_output(&mut outputs, cores.trace_name(alloc)?, trace)?;
    Ok(Work {
        outputs,
        lines: summary,
    })
}

/// Loads the executables and runs both cores by the cycle table.
pub fn run_executables(
    alloc: Global,
    cores: &BothCores,
    table: Table,
    zero: &[u8],
    one: &[u8],
    script: &[u8],
) -> Result<Work, Refusal>
    requires zero_within { length zero.now ≤ 1048576 }
    requires one_within { length one.now ≤ 1048576 }
    requires script_within { length script.now ≤ 1048576 }
    requires cycles { cores.now.cycles ≤ 2000000 }
    ensures makes { IfOk result (λ work. SimMakes cores.now table zero.now one.now script.now
        (named work.outputs.items) (string_bytes work.lines)) }
    ensures refuses { IfErr result (SimRefuses cores.now zero.now one.now script.now) }
{
    match simulate(alloc, zero, one, script, table, cores.cycles) {
        Ok(texts) => Ok(work_of(alloc, cores, texts)?),
        Err(fault) => Err(refusal_of(alloc, cores, fault)),
    }
}
