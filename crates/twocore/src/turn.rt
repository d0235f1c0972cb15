//! A core's cycle.

ghost use Rattle.std.specs.Prelude.{◌≡◌, ◌+◌, ◌<◌, ◌≤◌, ◌++◌, Some, map, slice_index, length};
ghost use Rattle.std.specs.Vec.{vec_len, vec_capacity};
ghost use Rattle.corestep.specs.Step.{inst_at, stepped};
ghost use Rattle.twocore.specs.Word as spec;

use crate::load::{access_at, fill_input};
use crate::passed::Passed;
use crate::setup::Setup;
use crate::side::{Side, Word};
use crate::spot::Spot;
use crate::store::{lead_out, move_out, store};
use crate::world::World;
use corestep::{Class, Stop, cost};
use isa::Inst;
use prutrace::{Event, Stamped};

fn class_waits(class: Class) -> bool
    ensures { result ≡ spec.class_waits class }
{
    match class {
        Class::Own => false,
        Class::Shared => true,
        Class::Outside => true,
    }
}

/// The core's next arbitration number.
fn next_wait(setup: &Setup, side: &Side) -> u8
    ensures { result ≡ slice_index setup.now.arb side.now.waited }
{
    setup
        .arb
        .as_slice()
        .get(side.waited as usize)
        .copied()
        .unwrap_or(0)
}

/// The cycles of a word, its access going to an address.
fn cycles(setup: &Setup, side: &Side, i: &Inst, addr: u32, waits: bool) -> u32
    requires address { addr ≡ spec.access_at side.now.core i.now }
    requires waits { waits ≡ spec.waits side.now.core i.now }
    ensures value { result ≡ spec.cycles_of setup.now side.now i.now }
    ensures some { 0 < result }
    ensures few { result < 1000 }
{
    let wait = if waits { next_wait(setup, side) } else { 0 };
    cost(setup.table, i, addr, wait)
}

/// A word begins.
fn begin_word(setup: &Setup, t: u32, side: &mut Side, i: &Inst)
    requires early { t < 2000000 }
    requires few { side.old.waited < 2000000 }
    ensures { side.new ≡ spec.beginning setup.now t side.old (Some i.now) }
{
    let addr = access_at(&side.core, i);
    let waits = class_waits(Class::of(addr));
    let cycles = cycles(setup, side, i, addr, waits);
    side.word = Some(Word {
        first: t,
        last: t + cycles - 1,
    });
    if waits {
        side.waited += 1;
    }
}

/// A core between words begins the one at its counter.
fn begin(setup: &Setup, t: u32, side: &mut Side)
    requires early { t < 2000000 }
    requires few { side.old.waited < 2000000 }
    ensures { side.new ≡ spec.begun setup.now t side.old }
{
    if side.word.is_some() {
        return;
    }
    match side.core.next(&setup.image) {
        None => side.stop = Stop::Stuck,
        Some(i) => begin_word(setup, t, side, &i),
    }
}

fn stamp(first: u32, last: u32, event: Event) -> Stamped
    requires { last < 2000000 }
    ensures { result ≡ spec.stamped_by first last event }
{
    let cycle = match event {
        Event::Enter(_) => first,
        Event::DelayIn(_) => first,
        Event::DelayOut(_) => last + 1,
        Event::Leave(_) => last + 1,
        _ => last,
    };
    Stamped { event, cycle }
}

/// Puts a word's events behind a trace that has room for them.
fn show(trace: &mut Vec<Stamped>, first: u32, last: u32, events: &[Event])
    requires early { last < 2000000 }
    requires room { vec_len trace.old + length events.now ≤ vec_capacity trace.old }
    ensures shown { trace.new.items ≡ trace.old.items ++ map (spec.stamped_by first last) events.now }
    ensures len { vec_len trace.new ≡ vec_len trace.old + length events.now }
    ensures room { vec_capacity trace.old ≤ vec_capacity trace.new }
{
    let mut rest = events;
    while let Some((event, behind)) = rest.split_first() {
        let _ = trace.push(stamp(first, last, *event));
        rest = behind;
    }
}

/// The word at the core's counter is done.
fn end_word(
    setup: &Setup,
    own: &mut Side,
    other: &mut Side,
    world: &mut World,
    i: &Inst,
    passed: &mut Passed,
)
    requires core { setup.now.core < 2 }
    requires few { own.old.count < 2000000 }
    requires at { inst_at setup.now.image.words own.old.core.pc ≡ Some i.now }
    requires within { own.old.core.pc < 2048 }
    ensures stage { record { own = own.new; other = other.new; world = world.new }
        ≡ spec.world_after setup.now.core (record { own = own.old; other = other.old; world = world.old }) i.now
        (stepped setup.now.image own.old.core
        (spec.input_for setup.now.core (record { own = own.old; other = other.old; world = world.old }) i.now)) }
    ensures out { passed.new.out ≡ (stepped setup.now.image own.old.core
        (spec.input_for setup.now.core (record { own = own.old; other = other.old; world = world.old }) i.now)).out }
    ensures few { length passed.new.out.events ≤ 36 }
{
    fill_input(setup.core, own, other, world, i, &mut passed.input);
    move_out(&mut world.pads, &own.core, i);
    own.core
        .step_of(&setup.image, i, &passed.input, &mut passed.out);
    let out = &passed.out;
    own.stop = out.stop;
    own.word = None;
    own.count += 1;
    store(own, other, world, Spot::of(out.at), out.stored.as_slice());
    lead_out(setup.core, world, out.events.as_slice());
}

/// A core that is doing a word: in the last cycle of it all happens.
fn work(
    setup: &Setup,
    t: u32,
    own: &mut Side,
    other: &mut Side,
    world: &mut World,
    trace: &mut Vec<Stamped>,
    passed: &mut Passed,
)
    requires core { setup.now.core < 2 }
    requires early { t < 2000000 }
    requires few { own.old.count < 2000000 }
    requires room { vec_len trace.old + 36 ≤ vec_capacity trace.old }
    ensures stage { record { own = own.new; other = other.new; world = world.new }
        ≡ (spec.worked setup.now t (record { own = own.old; other = other.old; world = world.old })).stage }
    ensures shown { trace.new.items ≡ trace.old.items
        ++ (spec.worked setup.now t (record { own = own.old; other = other.old; world = world.old })).shown }
    ensures len { vec_len trace.new ≤ vec_len trace.old + 36 }
    ensures room { vec_capacity trace.old ≤ vec_capacity trace.new }
{
    let Some(word) = own.word else { return };
    if word.last != t {
        return;
    }
    let Some(i) = own.core.next(&setup.image) else {
        return;
    };
    end_word(setup, own, other, world, &i, passed);
    show(trace, word.first, t, passed.out.events.as_slice());
}

/// A core's cycle.
pub fn turn(
    setup: &Setup,
    t: u32,
    own: &mut Side,
    other: &mut Side,
    world: &mut World,
    trace: &mut Vec<Stamped>,
    passed: &mut Passed,
)
    requires core { setup.now.core < 2 }
    requires early { t < 2000000 }
    requires few { own.old.count < 2000000 }
    requires waited { own.old.waited < 2000000 }
    requires room { vec_len trace.old + 36 ≤ vec_capacity trace.old }
    ensures stage { record { own = own.new; other = other.new; world = world.new }
        ≡ (spec.turned setup.now t (record { own = own.old; other = other.old; world = world.old })).stage }
    ensures shown { trace.new.items ≡ trace.old.items
        ++ (spec.turned setup.now t (record { own = own.old; other = other.old; world = world.old })).shown }
    ensures len { vec_len trace.new ≤ vec_len trace.old + 36 }
    ensures room { vec_capacity trace.old ≤ vec_capacity trace.new }
{
    if own.started && own.stop.is_going() {
        begin(setup, t, own);
        work(setup, t, own, other, world, trace, passed);
    }
}
