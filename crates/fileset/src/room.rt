ghost use Rattle.std.specs.Prelude.{◌≡◌, ◌+◌, ◌≤◌, ◌↔◌, [], ◌++◌, length, take, IfOk, IsTrue};

use prunum::Memory;
use std::alloc::Global;
use std::marker::Model;

/// Bytes in a room that was taken from memory once.
#[derive(Drop)]
pub struct Room {
    taken: Vec<u8>,
    size: usize,
}

impl Model for Room {
    ghost use Rattle.std.specs.Prelude.{◌≤◌, vec_len, vec_capacity};
    ghost use Rattle.fileset.specs.Room.{Space};

    ghost Value = { Space };

    ghost view = { λ r. record { taken = r.taken.items; size = r.size } };

    ghost invariant = { λ r. (vec_len r.taken ≤ r.size) × (r.size ≤ vec_capacity r.taken) };
}

impl Room {
    pub fn new(alloc: Global, size: usize) -> Result<Room, Memory>
        ensures { IfOk result (λ room. room ≡ record { taken = []; size = size }) }
    {
        let taken = Vec::with_capacity(alloc, size)?;
        Ok(Room { taken, size })
    }

    pub fn taken(&self) -> &[u8]
        ensures { result.now ≡ self.now.taken }
    {
        self.taken.as_slice()
    }

    pub fn fits(&self, bytes: &[u8]) -> bool
        ensures { IsTrue result ↔ (length self.now.taken + length bytes.now ≤ self.now.size) }
    {
        bytes.len() <= self.size - self.taken.len()
    }

    /// Takes the bytes for which there is room, and drops the others.
    pub fn fill(&mut self, bytes: &[u8])
        ensures { self.new ≡ record self.old { taken = take self.old.size (self.old.taken ++ bytes.now) } }
    {
        let count = bytes.len().min(self.size - self.taken.len());
        let _ = self.taken.extend_from_slice(&bytes[..count]);
    }
}
