//! What shows of accesses outside the private part, and of moves between registers and the scratchpad.

ghost use Rattle.std.specs.Prelude.{◌≡◌, ◌+◌, ◌*◌, ◌<◌, ◌≤◌, ◌++◌, ◌∷◌, [], length};
ghost use Rattle.corestep.specs.Pieces as spec;

use crate::out::Events;
use isa::Bank;
use prunum::{Width, from_bytes};
use prutrace::{Event, Place};

pub fn bank_number(bank: Bank) -> u8
    ensures { result ≡ spec.bank_number bank }
{
    match bank {
        Bank::Bank0 => 0,
        Bank::Bank1 => 1,
        Bank::Bank2 => 2,
    }
}

/// A value that is read, or written where `store` is true.
pub fn access_event(store: bool, place: Place, width: Width, value: u32) -> Event
    ensures { result ≡ spec.access_event store place width value }
{
    if store {
        Event::Write {
            place,
            width,
            value,
        }
    } else {
        Event::Read {
            place,
            width,
            value,
        }
    }
}

/// The events of an access's bytes, a piece at a time.
pub fn push_pieces(events: &mut Events, store: bool, addr: u32, bytes: &[u8])
    requires { length events.old + length (spec.access_events store addr bytes.now) ≤ 40 }
    ensures shown { events.new ≡ events.old ++ spec.access_events store addr bytes.now }
    ensures few { 4 * length events.new ≤ 4 * length events.old + length bytes.now + 5 }
{
    let mut at = addr;
    let mut rest = bytes;
    while rest.len() >= 4 {
        let (four, behind) = rest.split_at(4);
        push_four(events, store, at, four);
        at = at.wrapping_add(4);
        rest = behind;
    }
    push_last(events, store, at, rest);
}

#[tactic(auto, using(crate::proofs::PieceLemmas::four_event))]
fn push_four(events: &mut Events, store: bool, at: u32, four: &[u8])
    requires size { length four.now ≡ 4 }
    requires room { length events.old < 40 }
    ensures { events.new ≡ events.old ++ spec.access_events store at four.now }
{
    events.push(access_event(store, Place::Addr(at), Width::B4, from_bytes(four)));
}

fn push_last(events: &mut Events, store: bool, at: u32, rest: &[u8])
    requires few { length rest.now ≤ 3 }
    requires room { length events.old + length (spec.access_events store at rest.now) ≤ 40 }
    ensures { events.new ≡ events.old ++ spec.access_events store at rest.now }
{
    match rest {
        [a] => events.push(access_event(store, Place::Addr(at), Width::B1, u32::from(*a))),
        [a, b] => push_two(events, store, at, *a, *b),
        [a, b, c] => {
            push_two(events, store, at, *a, *b);
            let last = at.wrapping_add(2);
            events.push(access_event(store, Place::Addr(last), Width::B1, u32::from(*c)));
        }
        _ => {}
    }
}

fn push_two(events: &mut Events, store: bool, at: u32, a: u8, b: u8)
    requires { length events.old + 1 ≤ 40 }
    ensures { events.new ≡ events.old ++ spec.access_events store at (a ∷ b ∷ []) }
{
    let value = u32::from(u16::from_le_bytes([a, b]));
    events.push(access_event(store, Place::Addr(at), Width::B2, value));
}
