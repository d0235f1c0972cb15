ghost use Rattle.std.specs.Prelude.{◌≡◌};

use prunum::Width;
use std::marker::Model;

/// What some bytes of an object hold at first.
#[derive(Clone, Copy)]
pub enum FirstPart {
    /// A number, lowest byte first
    Number { width: Width, value: u32 },
    /// The address of a byte of an object
    Address { object: u32, offset: u16 },
    /// So many zeros
    Zeros(u32),
}

/// A part of the core's private memory: an object of the source, or a local whose address is taken.
#[derive(Drop)]
pub struct Object {
    bytes: u32,
    first: Vec<FirstPart>,
}

impl Model for Object {
    ghost use Rattle.midcode.specs.Stored.{Stored};

    ghost Value = { Stored };

    ghost view = { λ a. record { bytes = a.bytes; first = a.first.items } };
}

impl Object {
    /// An object of so many bytes. Behind what it holds at first are zeros.
    pub fn new(bytes: u32, first: Vec<FirstPart>) -> Object
        ensures { result ≡ record { bytes = bytes; first = first.items } }
    {
        Object { bytes, first }
    }

    pub fn bytes(&self) -> u32
        ensures { result ≡ self.now.bytes }
    {
        self.bytes
    }

    /// What it holds at first, from its first byte on.
    pub fn first(&self) -> &[FirstPart]
        ensures { result.now ≡ self.now.first }
    {
        self.first.as_slice()
    }
}
