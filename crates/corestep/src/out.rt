//! What a word is given, and what it gives.

ghost use Rattle.std.specs.Prelude.{◌≡◌, ◌≤◌, ◌<◌, ◌++◌, ◌∷◌, [], ℕ, List, length, take, ◌↔◌, IsTrue};
ghost use Rattle.corestep.specs.declared.out.Stop.TheVariants.{Going};

use prutrace::Event;
use std::marker::Model;

/// How a core stands.
#[derive(Clone, Copy, Debug, PartialEq, Eq)]
pub enum Stop {
    Going,
    Halted,
    /// Its counter is past the code.
    Stuck,
}

impl Stop {
    pub fn is_going(self) -> bool
        ensures { IsTrue result ↔ (self ≡ Going) }
    {
        matches!(self, Stop::Going)
    }
}

/// What the next word reads or writes besides registers.
#[derive(Clone, Copy, Debug, PartialEq, Eq)]
pub enum Need {
    /// No word stands at the counter.
    Stuck,
    Plain,
    /// Bytes of memory, from an address on.
    Access {
        addr: u32,
        len: u8,
        store: bool,
    },
    /// Registers of a bank of the scratchpad, 0 to 2.
    Pad {
        bank: u8,
        reg: u8,
        count: u8,
        store: bool,
    },
}

/// What a word reads outside its core: R31, the bytes of a load that isn't private, the first of them first, and the registers of an XIN.
#[derive(Clone, Copy, Debug)]
pub struct Input {
    pub r31: u32,
    pub bytes: [u8; 124],
    pub pads: [u32; 4],
}

/// At most 40 events in their order.
#[derive(Debug, Drop)]
pub struct Events {
    events: [Event; 40],
    count: usize,
}

impl Model for Events {
    ghost use Rattle.std.specs.Prelude.{◌≤◌, List, take};
    ghost use Rattle.prutrace.specs.declared.event.Event.{Event};

    ghost Value = { List Event };

    ghost view = { λ e. take e.count e.events };

    ghost invariant = { λ e. e.count ≤ 40 };
}

impl Events {
    pub fn new() -> Events
        ensures { result ≡ [] }
    {
        Events {
            events: [Event::Halted; 40],
            count: 0,
        }
    }

    pub fn clear(&mut self)
        ensures { self.new ≡ [] }
    {
        self.count = 0;
    }

    pub fn push(&mut self, event: Event)
        requires { length self.old < 40 }
        ensures { self.new ≡ self.old ++ event ∷ [] }
    {
        self.events[self.count] = event;
        self.count += 1;
    }

    pub fn as_slice(&self) -> &[Event]
        ensures { result.now ≡ self.now }
    {
        &self.events[..self.count]
    }
}

/// At most 124 bytes.
#[derive(Debug, Drop)]
pub struct Stored {
    bytes: [u8; 124],
    count: usize,
}

impl Model for Stored {
    ghost Value = { List ℕ };

    ghost view = { λ s. take s.count s.bytes };

    ghost invariant = { λ s. s.count ≤ 124 };
}

impl Stored {
    pub fn new() -> Stored
        ensures { result ≡ [] }
    {
        Stored {
            bytes: [0; 124],
            count: 0,
        }
    }

    pub fn clear(&mut self)
        ensures { self.new ≡ [] }
    {
        self.count = 0;
    }

    pub fn set(&mut self, bytes: &[u8])
        requires { length bytes.now ≤ 124 }
        ensures { self.new ≡ bytes.now }
    {
        self.count = bytes.len();
        self.bytes[..bytes.len()].copy_from_slice(bytes);
    }

    pub fn as_slice(&self) -> &[u8]
        ensures { result.now ≡ self.now }
    {
        &self.bytes[..self.count]
    }
}

/// What a word gives: its events in their order, and how the core stands after it. Of a store that isn't private also its address and
/// bytes; of every other word these are 0 and none. One value serves for many words: each writes it anew, whatever it held.
#[derive(Debug, Drop)]
pub struct StepOut {
    pub events: Events,
    pub at: u32,
    pub stored: Stored,
    pub stop: Stop,
}

impl StepOut {
    /// Without any event.
    pub fn new() -> StepOut
        ensures { result ≡ record { events = []; at = 0; stored = []; stop = Going } }
    {
        StepOut {
            events: Events::new(),
            at: 0,
            stored: Stored::new(),
            stop: Stop::Going,
        }
    }

    /// As new, but for how the core stands.
    pub(crate) fn clear(&mut self, stop: Stop)
        ensures { self.new ≡ record { events = []; at = 0; stored = []; stop = stop } }
    {
        self.events.clear();
        self.at = 0;
        self.stored.clear();
        self.stop = stop;
    }
}
