ghost use Rattle.std.specs.Prelude.{◌≡◌, ◌+◌, [], take, Some, Option, OnOk, OnErr, IfOk};
ghost use Rattle.std.specs.Option.{option_copied};
ghost use Rattle.fileset.specs.Told.{IsSameButFor};
ghost use Rattle.fileset.specs.FileMap.{held_in};

use prunum::Memory;
use std::alloc::{AllocError, Global};
use std::collections::BTreeMap;
use std::marker::Model;

/// Files in memory. It keeps its allocator.
#[derive(Drop)]
pub struct FileMap {
    alloc: Global,
    files: BTreeMap<String, Vec<u8>>,
}

impl Model for FileMap {
    ghost use Rattle.std.specs.Prelude.{map, string_bytes};
    ghost use Rattle.fileset.specs.FileMap.{NamedFiles};

    ghost Value = { NamedFiles };

    ghost view = { λ m. map (λ e. (string_bytes e.0, e.1.items)) m.files.entries };
}

impl FileMap {
    pub fn new(alloc: Global) -> FileMap
        ensures { result ≡ [] }
    {
        FileMap {
            alloc,
            files: BTreeMap::new(alloc),
        }
    }

    pub fn get(&self, name: &str) -> Option<&[u8]>
        ensures { option_copied result ≡ held_in self.now name.now }
    {
        let bytes = self.files.get(name)?;
        Some(bytes.as_slice())
    }

    /// Makes the named file hold the bytes.
    pub fn set(&mut self, name: &str, bytes: &[u8]) -> Result<(), Memory>
        ensures written { OnOk result (held_in self.new name.now ≡ Some bytes.now) }
        ensures others { OnOk result (IsSameButFor name.now (held_in self.old) (held_in self.new)) }
        ensures refused { OnErr result (self.new ≡ self.old) }
    {
        let name = String::from_str(self.alloc, name)?;
        let bytes = Vec::from_slice(self.alloc, bytes)?;
        self.files.insert(name, bytes)?;
        Ok(())
    }
}

/// The first bytes, one more than `max` at most.
pub fn front(alloc: Global, bytes: &[u8], max: usize) -> Result<Vec<u8>, AllocError>
    ensures { IfOk result (λ front. front.items ≡ take (max + 1) bytes.now) }
{
    let count = bytes.len().min(max.saturating_add(1));
    Vec::from_slice(alloc, &bytes[..count])
}
