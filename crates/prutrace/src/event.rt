ghost use Rattle.std.specs.Prelude.{Some};
ghost use Rattle.prutrace.specs.Text.{place_text, event_text, stamped_text};

use prunum::{Width, bytes};
use std::fmt;
use textline::Hex8;

/// Where a value was read or written.
#[derive(Clone, Copy, Debug, PartialEq, Eq)]
pub enum Place {
    /// The output register.
    Reg30,
    /// The input register, of which a write signals events.
    Reg31,
    /// A byte address, as the core itself sees it.
    Addr(u32),
    /// A register of a bank of the scratchpad.
    Pad { bank: u8, reg: u8 },
}

/// One step that can be seen from outside the core.
#[derive(Clone, Copy, Debug, PartialEq, Eq)]
pub enum Event {
    Read {
        place: Place,
        width: Width,
        value: u32,
    },
    Write {
        place: Place,
        width: Width,
        value: u32,
    },
    /// The entry of a timed region, by its number.
    Enter(u16),
    /// The end of a timed region, by its number.
    Leave(u16),
    /// The beginning of a delay of so many cycles.
    DelayIn(u32),
    /// The end of a delay of so many cycles.
    DelayOut(u32),
    Halted,
}

/// An event with the number of its cycle, counted from 0.
#[derive(Clone, Copy, Debug, PartialEq, Eq)]
pub struct Stamped {
    pub event: Event,
    pub cycle: u32,
}

impl fmt::Display for Place {
    ghost output = { λ p. Some (place_text p) };

    fn fmt<W: fmt::Write>(&self, f: &mut fmt::Formatter<W>) -> fmt::Result {
        match *self {
            Place::Reg30 => write!(f, "R30"),
            Place::Reg31 => write!(f, "R31"),
            Place::Addr(address) => write!(f, "{}", Hex8(address)),
            Place::Pad { bank, reg } => write!(f, "P{bank}.{reg}"),
        }
    }
}

impl fmt::Display for Event {
    ghost output = { λ e. Some (event_text e) };

    fn fmt<W: fmt::Write>(&self, f: &mut fmt::Formatter<W>) -> fmt::Result {
        match *self {
            Event::Read {
                place,
                width,
                value,
            } => write!(f, "R {place} {} {}", bytes(width), Hex8(value)),
            Event::Write {
                place,
                width,
                value,
            } => write!(f, "W {place} {} {}", bytes(width), Hex8(value)),
            Event::Enter(region) => write!(f, "E {region}"),
            Event::Leave(region) => write!(f, "L {region}"),
            Event::DelayIn(cycles) => write!(f, "I {cycles}"),
            Event::DelayOut(cycles) => write!(f, "O {cycles}"),
            Event::Halted => write!(f, "H"),
        }
    }
}

impl fmt::Display for Stamped {
    ghost output = { λ s. Some (stamped_text s) };

    fn fmt<W: fmt::Write>(&self, f: &mut fmt::Formatter<W>) -> fmt::Result {
        let cycle = self.cycle;
        let event = self.event;
        write!(f, "{cycle} {event}")
    }
}
