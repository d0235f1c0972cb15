//! What becomes of what a word writes outside its core.

ghost use Rattle.std.specs.Prelude.{◌≡◌, ◌+◌, ◌<◌, ◌≤◌, ◌^◌, ◌-◌, take, drop, length};
ghost use Rattle.corestep.specs.Pieces as pieces;
ghost use Rattle.isa.specs.declared.inst.Inst.TheVariants as Inst;
ghost use Rattle.twocore.specs.Memory as memory;
ghost use Rattle.twocore.specs.World as spec;

use crate::load::bank_number;
use crate::ram::{Ram, front};
use crate::side::Side;
use crate::spot::Spot;
use crate::world::World;
use corestep::Core;
use devices::{Intc, Pads};
use isa::{Inst, Transfer};
use prunum::{Width, from_bytes};
use prutrace::{Event, Place};

/// Where the volatile window begins.
const WINDOW: usize = 0x1e00;

/// Bytes from a place of a data RAM on, as far as they reach the window.
fn put_window(window: &mut Ram<0x200>, at: u16, bytes: &[u8])
    ensures { window.new ≡ memory.put window.old (at - 0x1E00) (drop (0x1E00 - at) bytes.now) }
{
    let at = usize::from(at);
    if WINDOW <= at {
        window.put(at - WINDOW, bytes);
    } else if WINDOW - at < bytes.len() {
        window.put(0, &bytes[WINDOW - at..]);
    }
}

/// Bytes of the private part.
fn put_below(core: &mut Core, at: u16, bytes: &[u8])
    requires { at + length bytes.now ≤ 0x1E00 }
    ensures { core.new ≡ record core.old { ram = memory.put core.old.ram at bytes.now } }
{
    let mut place = u32::from(at);
    let mut rest = bytes;
    while let Some((byte, behind)) = rest.split_first() {
        core.set_byte(place, *byte);
        place += 1;
        rest = behind;
    }
}

/// Bytes from a place of a data RAM on, as far as they lie in the private part.
fn put_private(core: &mut Core, at: u16, bytes: &[u8])
    ensures { core.new ≡ record core.old { ram = memory.put core.old.ram at (take (0x1E00 - at) bytes.now) } }
{
    let room = WINDOW.saturating_sub(usize::from(at));
    if 0 < room {
        put_below(core, at, front(bytes, room));
    }
}

/// Pieces of four bytes: others are nothing to the interrupt controller.
fn put_controller(intc: &mut Intc, at: u16, bytes: &[u8])
    ensures { intc.new ≡ spec.controller_after intc.old (pieces.pieces at bytes.now) }
{
    let mut place = u32::from(at);
    let mut rest = bytes;
    while rest.len() >= 4 {
        let (four, behind) = rest.split_at(4);
        intc.write(place, Width::B4, from_bytes(four));
        place = place.wrapping_add(4);
        rest = behind;
    }
}

/// Bytes that a core stores outside its private part.
pub fn store(own: &mut Side, other: &mut Side, world: &mut World, spot: Spot, bytes: &[u8])
    ensures { record { own = own.new; other = other.new; world = world.new }
        ≡ spec.stored_in (record { own = own.old; other = other.old; world = world.old }) spot bytes.now }
{
    match spot {
        Spot::Own(at) => put_window(&mut own.window, at, bytes),
        Spot::Other(at) => {
            put_private(&mut other.core, at, bytes);
            put_window(&mut other.window, at, bytes);
        }
        Spot::Shared(at) => world.shared.put(usize::from(at), bytes),
        Spot::Controller(at) => put_controller(&mut world.intc, at, bytes),
        Spot::Outside(at) => world.outside.put(usize::from(at), bytes),
        Spot::Nothing => {}
    }
}

/// A write of R31.
fn signal(intc: &mut Intc, value: u32)
    ensures { intc.new ≡ spec.signalled intc.old value }
{
    if value >> 5 & 1 == 1 {
        intc.signal(16 + (value % 16) as u8);
    }
}

fn lead_out_one(core: u8, world: &mut World, event: &Event)
    requires { core < 2 }
    ensures { world.new ≡ spec.led_out core world.old event.now }
{
    match *event {
        Event::Write {
            place: Place::Reg30,
            value,
            ..
        } => world.pins.set_output(core, value),
        Event::Write {
            place: Place::Reg31,
            value,
            ..
        } => signal(&mut world.intc, value),
        _ => {}
    }
}

/// What a word's writes of R30 and R31 lead to.
pub fn lead_out(core: u8, world: &mut World, events: &[Event])
    requires { core < 2 }
    ensures { world.new ≡ spec.all_led_out core world.old events.now }
{
    let mut rest = events;
    while let Some((event, behind)) = rest.split_first() {
        lead_out_one(core, world, event);
        rest = behind;
    }
}

fn xout(pads: &mut Pads, core: &Core, moved: &Transfer)
    ensures { pads.new ≡ spec.pads_after pads.old core.now.registers (Inst.Xout moved.now) }
{
    let bank = bank_number(moved.bank);
    for k in 0..moved.count {
        let reg = moved.first + k;
        pads.set(bank, reg, core.reg(reg));
    }
}

/// What a word moves into the scratchpad.
pub fn move_out(pads: &mut Pads, core: &Core, i: &Inst)
    ensures { pads.new ≡ spec.pads_after pads.old core.now.registers i.now }
{
    if let Inst::Xout { moved } = i {
        xout(pads, core, moved);
    }
}
