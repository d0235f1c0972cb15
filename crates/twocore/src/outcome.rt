//! What a machine shows.

ghost use Rattle.std.specs.Prelude.{◌≡◌, [], map};
ghost use Rattle.std.specs.List.{range_with_len};
ghost use Rattle.corestep.specs.Fields.{register};
ghost use Rattle.twocore.specs.Views as views;
ghost use Rattle.twocore.specs.Word.{filled};

use crate::side::{Side, Word};
use corestep::{Core, Stop};
use prutrace::Stamped;
use std::marker::Model;

/// A core's events in their order, with their cycles.
#[derive(Debug, Drop)]
pub struct Trace {
    events: Vec<Stamped>,
}

impl Model for Trace {
    ghost use Rattle.std.specs.Prelude.{List};
    ghost use Rattle.prutrace.specs.declared.event.Stamped.{Stamped};

    ghost Value = { List Stamped };

    ghost view = { λ a. a.events.items };
}

impl Trace {
    /// The events of a vector, which takes no memory.
    pub fn from_vec(events: Vec<Stamped>) -> Trace
        ensures { result ≡ events.items }
    {
        Trace { events }
    }

    /// The vector again, which takes no memory.
    pub fn into_vec(self) -> Vec<Stamped>
        ensures { result.items ≡ self }
    {
        self.events
    }

    /// The events in their order.
    pub fn as_slice(&self) -> &[Stamped]
        ensures { result.now ≡ self.now }
    {
        self.events.as_slice()
    }
}

/// What both cores have shown, how many instructions each has done, and how it stands.
#[derive(Debug, Drop)]
pub struct Outcome {
    pub trace0: Trace,
    pub trace1: Trace,
    pub count0: u32,
    pub count1: u32,
    pub stop0: Stop,
    pub stop1: Stop,
}

/// How a core stands, for a debugger.
#[derive(Clone, Copy, Debug, PartialEq, Eq)]
pub struct View {
    /// The number of its next word, or of the one that it is doing.
    pub pc: u32,
    /// Whether it is between two words.
    pub between: bool,
    pub stop: Stop,
    /// R0 to R30.
    pub regs: [u32; 31],
    /// How many events it has shown.
    pub events: usize,
}

impl View {
    pub fn of(side: &Side, events: usize) -> View
        ensures { result ≡ views.view_as side.now events }
    {
        View {
            pc: side.core.pc(),
            between: is_between(side.word),
            stop: side.stop,
            regs: registers(&side.core),
            events,
        }
    }
}

fn is_between(word: Option<Word>) -> bool
    ensures { result ≡ views.is_between word }
{
    match word {
        None => true,
        Some(_) => false,
    }
}

#[tactic(auto, unfolding(corestep::specs::Core::zeros))]
fn no_registers() -> [u32; 31]
    ensures { result ≡ filled 31 [] }
{
    [0; 31]
}

fn registers(core: &Core) -> [u32; 31]
    ensures { result ≡ map (register core.now.registers) (range_with_len 0 31) }
{
    let mut regs = no_registers();
    for r in 0..31u8 {
        regs[usize::from(r)] = core.reg(r);
    }
    regs
}
