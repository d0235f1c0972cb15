ghost use Rattle.std.specs.Prelude.{◌≡◌, ℕ, List, ◌++◌, IfOk, OnOk, map};
ghost use Rattle.std.specs.List.{AllByRecursion};
ghost use Rattle.isa.specs.Row.{word_of};
ghost use Rattle.prucc.specs.Form.{IsLoadable};
ghost use Rattle.prucc.specs.Code.{code_of};
ghost use Rattle.prucc.specs.Run.{stamped, ShowsMeaning};

use crate::machine::{Core, StepOut, Stop, cost};
use prunum::Memory;
use prutrace::{Event, Stamped};
use std::alloc::Global;

/// What a core did.
#[derive(Debug, Drop)]
pub struct Outcome {
    pub trace: Vec<Stamped>,
    /// How many words were done.
    pub count: u32,
    pub stop: Stop,
}

fn push_event(trace: &mut Vec<Stamped>, event: Option<Event>, cycle: u32) -> Result<(), Memory>
    ensures { OnOk result (trace.new.items ≡ trace.old.items ++ stamped event cycle) }
{
    if let Some(event) = event {
        trace.push(Stamped { event, cycle })?;
    }
    Ok(())
}

/// Runs the words from a core's start for so many cycles.
pub fn run(alloc: Global, words: &[u32], cycles: u32) -> Result<Outcome, Memory>
    ensures { (ks : List ℕ) → AllByRecursion IsLoadable ks → words.now ≡ map word_of (code_of ks) → IfOk result (ShowsMeaning ks cycles) }
{
    let mut core = Core::new();
    let mut trace = Vec::new(alloc);
    let mut time = 0;
    let mut count = 0;
    while time < cycles {
        let Some(inst) = core.next(words) else {
            let stop = Stop::Stuck;
            return Ok(Outcome { trace, count, stop });
        };
        let StepOut { event, stop } = core.step(&inst);
        time += cost(&inst);
        // What a word shows is stamped with its last cycle.
        push_event(&mut trace, event, time - 1)?;
        count += 1;
        if !stop.is_going() {
            return Ok(Outcome { trace, count, stop });
        }
    }
    Ok(Outcome {
        trace,
        count,
        stop: Stop::Going,
    })
}
