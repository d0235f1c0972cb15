//! The machine: cycle by cycle, with room for what shows.

ghost use Rattle.std.specs.Prelude.{◌≡◌, ◌+◌, ◌-◌, ◌*◌, ◌<◌, ◌≤◌, IfOk, OnOk, length};
ghost use Rattle.std.specs.List.{list_any};
ghost use Rattle.twocore.specs.Machine as spec;
ghost use Rattle.twocore.specs.Views as views;

use crate::acts::{act_all, acts_at};
use crate::load::byte_behind;
use crate::outcome::{Outcome, Trace, View};
use crate::passed::Passed;
use crate::setup::Setup;
use crate::side::Side;
use crate::spot::Spot;
use crate::turn::turn;
use crate::world::World;
use corestep::Table;
use hostscript::{Act, Action, Acts, Script};
use isa::Image;
use prunum::Memory;
use prutrace::Stamped;
use std::alloc::Global;
use std::marker::Model;

/// How many events a core can show in a cycle at most.
const EVENTS: usize = 36;

/// At the start of how many cycles `run` makes room at once.
const STRETCH: u32 = 4096;

/// Two cores with all that stands round them, after a number of cycles.
///
/// `cycle` takes no memory, so there must be room for what a cycle can show: `reserve` makes it, and `run` does so by itself.
#[derive(Debug, Drop)]
pub struct Machine {
    acts: Acts,
    setup0: Setup,
    setup1: Setup,
    done: u32,
    zero: Side,
    one: Side,
    world: World,
    trace0: Vec<Stamped>,
    trace1: Vec<Stamped>,
    passed: Passed,
}

impl Model for Machine {
    ghost use Rattle.std.specs.Prelude.{◌-◌, min};
    ghost use Rattle.std.specs.Vec.{vec_len, vec_capacity};
    ghost use Rattle.twocore.specs.Views.{Held, IsSteady};

    ghost Value = { Held };

    ghost view = { λ a. record {
      machine = record {
        acts = a.acts;
        setup0 = a.setup0;
        setup1 = a.setup1;
        done = a.done;
        zero = a.zero;
        one = a.one;
        world = a.world;
        trace0 = a.trace0.items;
        trace1 = a.trace1.items;
      };
      room = min (vec_capacity a.trace0 - vec_len a.trace0) (vec_capacity a.trace1 - vec_len a.trace1);
    } };

    ghost invariant = { λ a. IsSteady a.setup0.core a.setup1.core a.done a.zero a.one };
}

/// Whether the script leaves a core to start at once.
fn starts_at_once(core: u8, acts: &[Act]) -> bool
    ensures { result ≡ spec.starts_at_once core acts.now }
{
    !has_start(core, acts)
}

fn has_start(core: u8, acts: &[Act]) -> bool
    ensures { result ≡ list_any (λ a. spec.is_start core a.action) acts.now }
{
    acts.iter().any(|a| is_start(core, &a.action))
}

fn is_start(core: u8, action: &Action) -> bool
    ensures { result ≡ spec.is_start core action.now }
{
    match *action {
        Action::Start(other) => other == core,
        _ => false,
    }
}

impl Machine {
    /// The machine at its start, which keeps the images and the script as they are. On a refusal all three are dropped.
    pub fn new(
        alloc: Global,
        table: Table,
        zero: Image,
        one: Image,
        script: Script,
    ) -> Result<Machine, Memory>
        ensures { IfOk result (λ m. m.machine ≡ spec.at_start_of table zero one script) }
    {
        let acts = script.acts.as_slice();
        let first = Side::new(alloc, &zero, starts_at_once(0, acts))?;
        let second = Side::new(alloc, &one, starts_at_once(1, acts))?;
        let world = World::new(alloc)?;
        let Script { acts, arb0, arb1 } = script;
        Ok(Machine {
            acts,
            setup0: Setup {
                core: 0,
                table,
                image: zero,
                arb: arb0,
            },
            setup1: Setup {
                core: 1,
                table,
                image: one,
                arb: arb1,
            },
            done: 0,
            zero: first,
            one: second,
            world,
            trace0: Vec::new(alloc),
            trace1: Vec::new(alloc),
            passed: Passed::new(),
        })
    }

    /// Brings the machine back to its start. It takes no memory, and the room may only have grown.
    pub fn restart(&mut self)
        ensures machine { self.new.machine ≡ spec.restarted self.old.machine }
        ensures room { self.old.room ≤ self.new.room }
    {
        let acts = self.acts.as_slice();
        self.zero
            .restart(&self.setup0.image, starts_at_once(0, acts));
        self.one
            .restart(&self.setup1.image, starts_at_once(1, acts));
        self.world.restart();
        self.trace0.clear();
        self.trace1.clear();
        self.done = 0;
    }

    /// How many cycles are done.
    pub fn done(&self) -> u32
        ensures value { result ≡ self.now.machine.done }
        ensures most { result ≤ 2000000 }
    {
        self.done
    }

    /// For how many events each of the two traces still has a place.
    pub fn room(&self) -> usize
        ensures { result ≡ self.now.room }
    {
        let first = self.trace0.capacity().saturating_sub(self.trace0.len());
        let second = self.trace1.capacity().saturating_sub(self.trace1.len());
        first.min(second)
    }

    /// Makes room for what so many cycles can show. On a refusal nothing but the room may have changed.
    pub fn reserve(&mut self, n: u32) -> Result<(), Memory>
        requires { n ≤ 4096 }
        ensures machine { self.new.machine ≡ self.old.machine }
        ensures room { OnOk result (36 * n ≤ self.new.room) }
    {
        let events = EVENTS * n as usize;
        self.trace0.reserve(events)?;
        self.trace1.reserve(events)?;
        Ok(())
    }

    /// Does one cycle, for which there is room.
    pub fn cycle(&mut self)
        requires room { 36 ≤ self.old.room }
        requires more { self.old.machine.done < 2000000 }
        ensures machine { self.new.machine ≡ spec.cycle self.old.machine }
        ensures room { self.old.room ≤ self.new.room + 36 }
    {
        let t = self.done;
        let acts = acts_at(t, self.acts.as_slice());
        act_all(&mut self.zero, &mut self.one, &mut self.world, acts);
        turn(
            &self.setup0,
            t,
            &mut self.zero,
            &mut self.one,
            &mut self.world,
            &mut self.trace0,
            &mut self.passed,
        );
        turn(
            &self.setup1,
            t,
            &mut self.one,
            &mut self.zero,
            &mut self.world,
            &mut self.trace1,
            &mut self.passed,
        );
        self.done = t + 1;
    }

    /// Does so many cycles, for which there is room.
    fn cycles(&mut self, n: u32)
        requires room { 36 * n ≤ self.old.room }
        requires more { self.old.machine.done + n ≤ 2000000 }
        ensures machine { self.new.machine ≡ spec.cycles n self.old.machine }
    {
        let mut left = n;
        while left > 0 {
            self.cycle();
            left -= 1;
        }
    }

    /// Does so many cycles. Where memory is wanting, the machine stands whole behind the `done` cycles that it did, and `run` may be
    /// called again.
    pub fn run(&mut self, n: u32) -> Result<(), Memory>
        requires { self.old.machine.done + n ≤ 2000000 }
        ensures machine { self.new.machine ≡ spec.cycles (self.new.machine.done - self.old.machine.done) self.old.machine }
        ensures done { OnOk result (self.new.machine.done ≡ self.old.machine.done + n) }
        ensures from { self.old.machine.done ≤ self.new.machine.done }
        ensures most { self.new.machine.done ≤ self.old.machine.done + n }
    {
        let mut left = n;
        while left > 0 {
            let stretch = left.min(STRETCH);
            self.reserve(stretch)?;
            self.cycles(stretch);
            left -= stretch;
        }
        Ok(())
    }

    /// What both cores have shown and done.
    pub fn outcome(self) -> Outcome
        ensures { result ≡ spec.outcome_of self.machine }
    {
        Outcome {
            count0: self.zero.count,
            count1: self.one.count,
            stop0: self.zero.stop,
            stop1: self.one.stop,
            trace0: Trace::from_vec(self.trace0),
            trace1: Trace::from_vec(self.trace1),
        }
    }

    fn side(&self, core: u8) -> &Side
        requires { core < 2 }
        ensures { result.now ≡ views.side_of core self.now.machine }
    {
        if core == 0 { &self.zero } else { &self.one }
    }

    /// A core's events so far.
    pub fn trace(&self, core: u8) -> &[Stamped]
        requires { core < 2 }
        ensures { result.now ≡ views.trace_of core self.now.machine }
    {
        if core == 0 {
            self.trace0.as_slice()
        } else {
            self.trace1.as_slice()
        }
    }

    /// How a core stands.
    pub fn view(&self, core: u8) -> View
        requires { core < 2 }
        ensures { result ≡ views.view_of core self.now.machine }
    {
        View::of(self.side(core), self.trace(core).len())
    }

    /// The byte that a load of one byte by a core would read; at the interrupt controller and CFG it is 0.
    pub fn byte(&self, core: u8, addr: u32) -> u8
        requires { core < 2 }
        ensures { result ≡ views.byte_of core addr self.now.machine }
    {
        let spot = Spot::of(addr);
        if core == 0 {
            byte_behind(&self.zero, &self.one, &self.world, spot, 0)
        } else {
            byte_behind(&self.one, &self.zero, &self.world, spot, 0)
        }
    }
}
