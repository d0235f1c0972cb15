//! Calls of `__xin` and `__xout`, with as many arguments as they take.

ghost use Rattle.std.specs.Prelude.{◌≡◌};
ghost use Rattle.cfault.specs.Fault.{noted};
ghost use Rattle.cexpr.specs.Scratchpad.{asked_exchange, const_faults, in_made, out_made, scratchpad_at, scratchpad_in, scratchpad_out, variable, words_register};

use crate::ask::at_node;
use crate::assignment::written;
use crate::constants::word;
use crate::item::{Item, Marked, PlaceItem, ValueItem};
use crate::node::PlaceUse;
use crate::number::void_type;
use cfault::{Asked, Faults, judge};
use cprogram::{Scalar, ScratchpadRegister};
use csyn::{Cause, Mark};
use prunum::Width;
use std::alloc::Global;

/// A variable, its type, and the register that is moved to or from it.
#[derive(Drop)]
pub struct Exchange<P> {
    pub variable: Marked<P>,
    pub scalar: Scalar,
    pub register: ScratchpadRegister,
}

#[tactic(auto, using(crate::proofs::Scratchpads::scratchpads))]
fn scratchpad_at(device: u32, base: u32, shift: u32) -> Option<ScratchpadRegister>
    ensures { result ≡ scratchpad_at device base shift }
{
    if 10 <= device && device <= 12 && base <= 29 && shift == 0 {
        Some(ScratchpadRegister {
            bank: (device - 10) as u8,
            register: base as u8,
        })
    } else {
        None
    }
}

/// The register that the arguments before the variable name: device, base and the constant 0.
pub fn scratchpad_register<V>(
    device: &Option<ValueItem<V>>,
    base: &Option<ValueItem<V>>,
    shift: &Option<ValueItem<V>>,
) -> Option<ScratchpadRegister>
    ensures { result ≡ words_register device.now base.now shift.now }
{
    scratchpad_at(word(device)?, word(base)?, word(shift)?)
}

// A variable of an integer type of four bytes, by its name.
#[tactic(auto, unfolding(crate::specs::Scratchpad::variable))]
fn variable<V: Drop, P: Drop>(item: Option<Item<V, P>>) -> Asked<(PlaceItem<P>, Scalar)>
    ensures { result ≡ variable item }
{
    let place = match item {
        None => return Asked::Unsaid,
        Some(Item::Value(_)) => return Asked::No,
        Some(Item::Place(place)) => place,
    };
    let Some(Scalar::Integer(integer)) = place.ctype.scalar() else {
        return Asked::No;
    };
    match (place.is_variable, integer.width) {
        (true, Width::B4) => Asked::Yes((place, Scalar::Integer(integer))),
        _ => Asked::No,
    }
}

// A const variable is not set.
#[tactic(auto, unfolding(crate::specs::Scratchpad::const_faults))]
fn note_const<V, P>(mark: Mark, item: &Option<Item<V, P>>, faults: &mut Faults)
    ensures { faults.new ≡ noted (const_faults mark item.now) faults.old }
{
    if let Some(Item::Place(place)) = item {
        if place.ctype.qualifiers().is_const {
            faults.note(at_node(mark, Cause::S5));
        }
    }
}

#[tactic(auto, using(cfault::proofs::Least::noted_append), unfolding(crate::specs::Scratchpad::asked_exchange))]
fn asked_exchange<V: Drop, P: Drop>(
    mark: Mark,
    item: Option<Item<V, P>>,
    register: Option<ScratchpadRegister>,
    faults: &mut Faults,
) -> Option<Exchange<P>>
    ensures gives { result ≡ (asked_exchange mark item register).gives }
    ensures noted { faults.new ≡ noted (asked_exchange mark item register).faults faults.old }
{
    let item = judge(at_node(mark, Cause::S6), variable(item), faults);
    let register = judge(at_node(mark, Cause::S16), Asked::of(register), faults);
    let Some((variable, scalar)) = item else {
        return None;
    };
    let Some(register) = register else {
        return None;
    };
    Some(Exchange {
        variable: variable.place,
        scalar,
        register,
    })
}

fn in_made<P: Drop>(alloc: Global, mark: Mark, e: Exchange<P>) -> ValueItem<PlaceUse<P>>
    ensures { result ≡ in_made mark e }
{
    let kind = PlaceUse::ScratchpadIn(e.register, e.variable);
    written(void_type(alloc), mark, kind)
}

fn out_made<P: Drop>(alloc: Global, mark: Mark, e: Exchange<P>) -> ValueItem<PlaceUse<P>>
    ensures { result ≡ out_made mark e }
{
    let kind = PlaceUse::ScratchpadOut(e.register, e.scalar, e.variable);
    written(void_type(alloc), mark, kind)
}

/// `__xin(device, base, 0, x)`
#[tactic(auto, using(cfault::proofs::Least::noted_append), unfolding(crate::specs::Scratchpad::scratchpad_in))]
pub fn scratchpad_in<V: Drop, P: Drop>(
    alloc: Global,
    mark: Mark,
    register: Option<ScratchpadRegister>,
    x: Option<Item<V, P>>,
    faults: &mut Faults,
) -> Option<ValueItem<PlaceUse<P>>>
    ensures gives { result ≡ (scratchpad_in mark register x).gives }
    ensures noted { faults.new ≡ noted (scratchpad_in mark register x).faults faults.old }
{
    note_const(mark, &x, faults);
    let exchange = asked_exchange(mark, x, register, faults)?;
    Some(in_made(alloc, mark, exchange))
}

/// `__xout(device, base, 0, x)`
#[tactic(auto, unfolding(crate::specs::Scratchpad::scratchpad_out))]
pub fn scratchpad_out<V: Drop, P: Drop>(
    alloc: Global,
    mark: Mark,
    register: Option<ScratchpadRegister>,
    x: Option<Item<V, P>>,
    faults: &mut Faults,
) -> Option<ValueItem<PlaceUse<P>>>
    ensures gives { result ≡ (scratchpad_out mark register x).gives }
    ensures noted { faults.new ≡ noted (scratchpad_out mark register x).faults faults.old }
{
    let exchange = asked_exchange(mark, x, register, faults)?;
    Some(out_made(alloc, mark, exchange))
}
