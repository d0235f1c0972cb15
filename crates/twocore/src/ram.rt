//! Memories.

ghost use Rattle.std.specs.Prelude.{◌≡◌, ◌+◌, ◌≤◌, IfOk, length, slice_index, take};
ghost use Rattle.corestep.specs.Core.{zeros};
ghost use Rattle.corestep.specs.Fields.{with_bytes};
ghost use Rattle.twocore.specs.Memory as spec;

use prunum::Memory;
use std::alloc::Global;
use std::marker::Model;

/// The bytes of a memory of a size.
#[derive(Debug, Drop)]
pub struct Ram<const SIZE: usize> {
    bytes: Vec<u8>,
}

impl<const SIZE: usize> Model for Ram<SIZE> {
    ghost use Rattle.std.specs.Prelude.{◌≡◌, List, ℕ, length};

    ghost Value = { List ℕ };

    ghost view = { λ a. a.bytes.items };

    ghost invariant = { λ a. length a.bytes.items ≡ SIZE };
}

/// Writes bytes from a place on, where there is room for them.
pub fn write(list: &mut [u8], at: usize, bytes: &[u8])
    requires { at + length bytes.now ≤ length list.old }
    ensures { list.new ≡ with_bytes at bytes.now list.old }
{
    list[at..at + bytes.len()].copy_from_slice(bytes);
}

/// Writes bytes from a place on. Those that run out of the memory are lost.
fn put(memory: &mut [u8], at: usize, bytes: &[u8])
    ensures value { memory.new ≡ spec.put memory.old at bytes.now }
    ensures size { length memory.new ≡ length memory.old }
{
    if at < memory.len() {
        let room = memory.len() - at;
        write(memory, at, front(bytes, room));
    }
}

/// At most so many bytes.
pub fn front(bytes: &[u8], most: usize) -> &[u8]
    ensures value { result.now ≡ take most bytes.now }
    ensures few { length result.now ≤ most }
{
    if bytes.len() <= most {
        bytes
    } else {
        &bytes[..most]
    }
}

#[tactic(auto, unfolding(corestep::specs::Core::zeros))]
fn zeros(alloc: Global, size: usize) -> Result<Vec<u8>, Memory>
    ensures value { IfOk result (λ bytes. bytes.items ≡ zeros size) }
    ensures size { IfOk result (λ bytes. length bytes.items ≡ size) }
{
    Ok(vec![in alloc; 0u8; size]?)
}

#[tactic(auto, unfolding(corestep::specs::Core::zeros))]
fn clear(bytes: &mut [u8])
    ensures value { bytes.new ≡ zeros (length bytes.old) }
    ensures size { length bytes.new ≡ length bytes.old }
{
    bytes.fill(0);
}

impl<const SIZE: usize> Ram<SIZE> {
    /// All bytes are 0.
    pub fn new(alloc: Global) -> Result<Ram<SIZE>, Memory>
        ensures { IfOk result (λ ram. ram ≡ zeros SIZE) }
    {
        Ok(Ram {
            bytes: zeros(alloc, SIZE)?,
        })
    }

    /// Makes all bytes 0.
    pub fn clear(&mut self)
        ensures { self.new ≡ zeros SIZE }
    {
        clear(&mut self.bytes);
    }

    /// A byte, and 0 behind the end.
    pub fn get(&self, at: usize) -> u8
        ensures { result ≡ slice_index self.now at }
    {
        self.bytes.get(at).copied().unwrap_or(0)
    }

    /// Writes bytes from a place on. Those that run out of the memory are lost.
    pub fn put(&mut self, at: usize, bytes: &[u8])
        ensures { self.new ≡ spec.put self.old at bytes.now }
    {
        put(&mut self.bytes, at, bytes);
    }
}
