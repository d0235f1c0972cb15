//! A run of two sources.

ghost use Rattle.std.specs.Prelude.{◌≡◌, ◌≤◌, [], ◌∷◌, ◌++◌, length, IfOk, IfErr};
ghost use Rattle.std.specs.List.{AllByRecursion};
ghost use Rattle.std.specs.String.{string_bytes};
ghost use Rattle.prutrace.specs.Text.{events_of, events_text};
ghost use Rattle.modefiles.specs.Writing.{named};
ghost use Rattle.prucc.specs.Form.{IsLoadable};
ghost use Rattle.prucc.specs.Source.{Writes};
ghost use Rattle.prucc.specs.Run.{ShowsMeaning};
ghost use Rattle.prucc.specs.Summary.{line_of};
ghost use Rattle.prucc.specs.Job.{events_name};
ghost use Rattle.prucc.specs.Sources.{RunMakes, RunRefuses, NotBuiltIn, SourceFails};

use crate::code::words_of;
use crate::job::BothCores;
use crate::refusal::Refusal;
use crate::run::{Outcome, run};
use crate::source::{MAX_SOURCE, SourceRefusal, read_source};
use crate::summary::push_core_line;
use crate::work::{Work, push_output};
use csyn::Span;
use modefiles::Name;
use prunum::Memory;
use prutrace::print_events;
use std::alloc::Global;

fn not_built(alloc: Global, name: &Name, span: Span) -> Refusal
    ensures { NotBuiltIn name.now span result }
{
    match Name::of(alloc, name.as_str()) {
        Ok(name) => Refusal::NotBuilt { name, span },
        Err(Memory) => Refusal::NoMemory,
    }
}

// What the source of a core writes.
fn source_writes(alloc: Global, core: u8, name: &Name, source: &[u8]) -> Result<Vec<u16>, Refusal>
    requires { length source.now ≤ MAX_SOURCE }
    ensures writes { IfOk result (λ writes. Writes source.now writes.items) }
    ensures err { IfErr result (SourceFails core name.now source.now) }
{
    match read_source(alloc, source) {
        Ok(writes) => Ok(writes),
        Err(SourceRefusal::Broken { span, cause }) => Err(Refusal::Source { core, span, cause }),
        Err(SourceRefusal::NotBuilt(span)) => Err(not_built(alloc, name, span)),
        Err(SourceRefusal::Memory) => Err(Refusal::NoMemory),
    }
}

// Compiles a source that writes these numbers and runs it.
fn run_source(alloc: Global, writes: &[u16], cycles: u32) -> Result<Outcome, Memory>
    requires { AllByRecursion IsLoadable writes.now }
    ensures { IfOk result (ShowsMeaning writes.now cycles) }
{
    let words = words_of(alloc, writes)?;
    run(alloc, &words, cycles)
}

// What both runs show, as the file of events and the two lines.
fn work_of(alloc: Global, cores: &BothCores, zero: &Outcome, one: &Outcome) -> Result<Work, Memory>
    ensures events { IfOk result (λ work. named work.outputs.items
        ≡ (events_name cores.now, events_text (events_of zero.now.trace.items) (events_of one.now.trace.items)) ∷ []) }
    ensures lines { IfOk result (λ work. string_bytes work.lines ≡ line_of 0 zero.now ++ line_of 1 one.now) }
{
    let events = print_events(alloc, &zero.trace, &one.trace)?;
    let mut lines = String::new(alloc);
    push_core_line(&mut lines, 0, zero)?;
    push_core_line(&mut lines, 1, one)?;
    let name = cores.events_name(alloc)?;
    let mut outputs = Vec::new(alloc);
    push_output(&mut outputs, name, events)?;
    Ok(Work { outputs, lines })
}

/// Compiles the sources and runs both cores.
pub fn run_sources(
    alloc: Global,
    cores: &BothCores,
    zero: &[u8],
    one: &[u8],
    script: &[u8],
) -> Result<Work, Refusal>
    requires zero_within { length zero.now ≤ MAX_SOURCE }
    requires one_within { length one.now ≤ MAX_SOURCE }
    ensures makes { IfOk result (λ work. RunMakes cores.now zero.now one.now script.now
        (named work.outputs.items) (string_bytes work.lines)) }
    ensures refuses { IfErr result (RunRefuses cores.now zero.now one.now script.now) }
{
    if !script.is_empty() {
        return Err(not_built(alloc, &cores.script, Span { line: 1, column: 1 }));
    }
    let zero = source_writes(alloc, 0, &cores.zero, zero)?;
    let one = source_writes(alloc, 1, &cores.one, one)?;
    let zero = run_source(alloc, &zero, cores.cycles)?;
    let one = run_source(alloc, &one, cores.cycles)?;
    Ok(work_of(alloc, cores, &zero, &one)?)
}
