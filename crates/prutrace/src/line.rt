//! What one line tells.

ghost use Rattle.std.specs.Prelude.{◌≡◌, ◌≤◌, ◌^◌, nat_lt, Some, IfSome, drop};
ghost use Rattle.prunum.specs.Width.{byte_count};
ghost use Rattle.textline.specs.Lines.{fields_of};
ghost use Rattle.prutrace.specs.declared.event.Event.{Event};
ghost use Rattle.prutrace.specs.Text.{event_text};
ghost use Rattle.prutrace.specs.Reading.{EventFits};
ghost use Rattle.prutrace.specs.EventLines.{width_of, width_in, number_in, cut_at, pad_in, place_in, field};
ghost use Rattle.prutrace.specs.EventLines.{at_end, access_in, number_alone, kind_in, event_in};

use crate::event::{Event, Place};
use prunum::Width;
use textline::{Decimal, Fields, read_decimal, read_hex8, split_once};

/// The event that a line without its end tells. `None` where it tells none.
pub fn read_event(line: &[u8]) -> Option<Event>
    ensures found { IfSome result (λ e. EventFits e) }
    ensures text { IfSome result (λ e. line.now ≡ event_text e) }
    ensures only { (e : Event) → EventFits e → line.now ≡ event_text e → result ≡ Some e }
    ensures value { result ≡ event_in (fields_of line.now) }
{
    told_event(line)
}

#[tactic(auto, unfolding(crate::specs::EventLines::event_in))]
fn told_event(line: &[u8]) -> Option<Event>
    ensures { result ≡ event_in (fields_of line.now) }
{
    let mut fields = Fields::of(line);
    let kind = fields.word()?;
    event_of(kind, &mut fields)
}

#[tactic(auto, unfolding(crate::specs::EventLines::kind_in))]
fn event_of(kind: &[u8], fields: &mut Fields<'_>) -> Option<Event>
    ensures { result ≡ kind_in kind.now fields.old }
{
    if kind == b"R".as_slice() {
        let (place, width, value) = access(fields)?;
        Some(Event::Read {
            place,
            width,
            value,
        })
    } else if kind == b"W".as_slice() {
        let (place, width, value) = access(fields)?;
        Some(Event::Write {
            place,
            width,
            value,
        })
    } else if kind == b"E".as_slice() {
        Some(Event::Enter(number_alone(fields, 65_535)? as u16))
    } else if kind == b"L".as_slice() {
        Some(Event::Leave(number_alone(fields, 65_535)? as u16))
    } else if kind == b"I".as_slice() {
        Some(Event::DelayIn(number_alone(fields, u32::MAX)?))
    } else if kind == b"O".as_slice() {
        Some(Event::DelayOut(number_alone(fields, u32::MAX)?))
    } else if kind == b"H".as_slice() && fields.is_end() {
        Some(Event::Halted)
    } else {
        None
    }
}

/// A number with nothing behind it.
#[tactic(auto, unfolding(crate::specs::EventLines::number_alone))]
fn number_alone(fields: &mut Fields<'_>, most: u32) -> Option<u32>
    ensures value { result ≡ number_alone most fields.old }
    ensures bound { IfSome result (λ n. n ≤ most) }
{
    let number = fields.decimal()?.at_most(most)?;
    if fields.is_end() { Some(number) } else { None }
}

/// A place, a number of bytes and a value that fits it, with nothing behind them.
#[tactic(auto, unfolding(crate::specs::EventLines::access_in))]
fn access(fields: &mut Fields<'_>) -> Option<(Place, Width, u32)>
    ensures { result ≡ access_in fields.old }
{
    let place = place(fields)?;
    let width = width(fields)?;
    let value = fields.hex8()?;
    if fields.is_end() && fits(width, value) {
        Some((place, width, value))
    } else {
        None
    }
}

fn place(fields: &mut Fields<'_>) -> Option<Place>
    ensures value { result ≡ field place_in fields.old }
    ensures taken { fields.new ≡ drop 1 fields.old }
{
    read_place(fields.word()?)
}

fn width(fields: &mut Fields<'_>) -> Option<Width>
    ensures value { result ≡ field width_in fields.old }
    ensures taken { fields.new ≡ drop 1 fields.old }
{
    width_of(fields.decimal()?)
}

fn width_of(number: Decimal) -> Option<Width>
    ensures { result ≡ width_of number }
{
    match number.at_most(4)? {
        1 => Some(Width::B1),
        2 => Some(Width::B2),
        4 => Some(Width::B4),
        _ => None,
    }
}

fn fits(width: Width, value: u32) -> bool
    ensures { result ≡ nat_lt value (256 ^ byte_count width) }
{
    match width {
        Width::B1 => value < 1 << 8,
        Width::B2 => value < 1 << 16,
        Width::B4 => true,
    }
}

#[tactic(auto, unfolding(crate::specs::EventLines::place_in))]
fn read_place(word: &[u8]) -> Option<Place>
    ensures { result ≡ place_in word.now }
{
    if word == b"R30".as_slice() {
        return Some(Place::Reg30);
    }
    if word == b"R31".as_slice() {
        return Some(Place::Reg31);
    }
    if !word.is_empty() && word[0] == b'P' {
        return read_pad(&word[1..]);
    }
    Some(Place::Addr(read_hex8(word)?))
}

/// A bank, a point and a register.
#[tactic(auto, unfolding(crate::specs::EventLines::pad_in), using(crate::proofs::Cuts::cut_found, crate::proofs::Cuts::cut_lacks))]
fn read_pad(pad: &[u8]) -> Option<Place>
    ensures { result ≡ pad_in pad.now }
{
    let (bank, reg) = split_once(pad, b'.')?;
    let bank = small(bank)?;
    let reg = small(reg)?;
    Some(Place::Pad { bank, reg })
}

fn small(word: &[u8]) -> Option<u8>
    ensures { result ≡ number_in 255 word.now }
{
    let number = read_decimal(word)?.at_most(255)?;
    Some(number as u8)
}
