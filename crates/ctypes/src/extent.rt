//! How much room types take.

ghost use Rattle.std.specs.Prelude.{◌≡◌, ◌+◌, ◌*◌, ◌%◌, ◌^◌, ◌<◌, ◌≤◌, length, IfOk};
ghost use Rattle.prunum.specs.Width.{byte_count};

use crate::leaves::{push_moved, wider};
use crate::round::rounded;
use cprogram::{Layout, Leaf, Scalar, Table};
use prunum::{Width, bytes};
use std::alloc::{AllocError, Global};
use std::marker::Model;

/// The leaves of a type, its size, and the greatest width among its leaves, of which its address is a multiple.
#[derive(Debug, Drop)]
pub struct Extent {
    leaves: Vec<Leaf>,
    bytes: u32,
    widest: Width,
}

impl Model for Extent {
    ghost use Rattle.ctypes.specs.Room.{Room, IsRoom};

    ghost Value = { Room };

    ghost view = { λ a. record { leaves = a.leaves.items; bytes = a.bytes; widest = a.widest } };

    ghost invariant = { λ a. IsRoom (record { leaves = a.leaves.items; bytes = a.bytes; widest = a.widest }) };
}

impl Extent {
    ghost use Rattle.ctypes.specs.Room.{Room, room_of_scalar, opened, member_at, joined, closed};

    pub fn of_scalar(alloc: Global, scalar: Scalar) -> Result<Extent, AllocError>
        ensures { IfOk result (λ e. e ≡ room_of_scalar scalar) }
    {
        let leaves = Vec::from_slice(alloc, &[Leaf { scalar, offset: 0 }])?;
        let widest = scalar.width();
        Ok(Extent {
            leaves,
            bytes: bytes(widest),
            widest,
        })
    }

    /// That of a struct that has no member yet.
    pub fn opened(alloc: Global) -> Extent
        ensures { result ≡ opened }
    {
        Extent {
            leaves: Vec::new(alloc),
            bytes: 0,
            widest: Width::B1,
        }
    }

    /// The size in bytes.
    pub fn bytes(&self) -> u32
        ensures { result ≡ self.now.bytes }
    {
        self.bytes
    }

    pub fn leaves(&self) -> &[Leaf]
        ensures { result.now ≡ self.now.leaves }
    {
        &self.leaves
    }

    /// Its address is a multiple of this width.
    pub fn widest(&self) -> Width
        ensures { result ≡ self.now.widest }
    {
        self.widest
    }

    /// Where one more member of a struct begins.
    pub fn member_at(&self, member: &Extent) -> u32
        requires { self.now.bytes + 8 < 2 ^ 32 }
        ensures { result ≡ member_at self.now member.now }
    {
        rounded(self.bytes, bytes(member.widest))
    }

    /// A struct with one more member.
    pub fn joined(self, member: &Extent) -> Result<Extent, AllocError>
        requires { self.bytes + member.now.bytes + 8 < 2 ^ 32 }
        ensures { IfOk result (λ e. e ≡ joined self member.now) }
    {
        let at = self.member_at(member);
        let Extent {
            mut leaves,
            bytes: _,
            widest,
        } = self;
        push_moved(&mut leaves, &member.leaves, at)?;
        Ok(Extent {
            leaves,
            bytes: at + member.bytes,
            widest: wider(widest, member.widest),
        })
    }

    /// A struct behind its last member.
    pub fn closed(self) -> Extent
        requires { self.bytes + 8 < 2 ^ 32 }
        ensures { result ≡ closed self }
    {
        let Extent {
            leaves,
            bytes: end,
            widest,
        } = self;
        Extent {
            leaves,
            bytes: rounded(end, bytes(widest)),
            widest,
        }
    }

    /// The layout of so many of it in a row.
    pub fn layout(self, count: u32) -> Layout
        requires some_leaf { 0 < length self.leaves }
        requires closed { self.bytes % byte_count self.widest ≡ 0 }
        requires some_element { 0 < count }
        requires small { self.bytes * count ≤ 7664 }
        ensures { result ≡ record { leaves = self.leaves; bytes = self.bytes; count = count } }
    {
        let Extent {
            leaves,
            bytes,
            widest: _,
        } = self;
        Layout::new(Table::new(leaves), bytes, count)
    }
}
