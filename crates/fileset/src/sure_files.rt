ghost use Rattle.std.specs.Prelude.{◌≡◌, ◌≢◌, ◌+◌, [], take, Option, Some, IfOk, OnOk, OnErr, Err};
ghost use Rattle.std.specs.Option.{option_copied};
ghost use Rattle.fileset.specs.Told.{content, IsSameButFor};
ghost use Rattle.fileset.specs.FileMap.{held_in};

use crate::fault::FileFault;
use crate::file_map::{FileMap, front};
use crate::files::Files;
use prunum::Memory;
use std::alloc::Global;
use std::marker::Model;

/// Files in memory that never fail. A file that isn't held has no bytes.
#[derive(Drop)]
pub struct SureFiles {
    files: FileMap,
}

impl Model for SureFiles {
    ghost use Rattle.fileset.specs.FileMap.{NamedFiles};

    ghost Value = { NamedFiles };

    ghost view = { λ s. s.files };
}

impl SureFiles {
    /// Holds no file.
    pub fn new(alloc: Global) -> SureFiles
        ensures { result ≡ [] }
    {
        SureFiles {
            files: FileMap::new(alloc),
        }
    }

    /// Makes the named file hold the bytes.
    pub fn add(&mut self, name: &str, bytes: &[u8]) -> Result<(), Memory>
        ensures added { OnOk result (held_in self.new name.now ≡ Some bytes.now) }
        ensures others { OnOk result (IsSameButFor name.now (held_in self.old) (held_in self.new)) }
        ensures refused { OnErr result (self.new ≡ self.old) }
    {
        self.files.set(name, bytes)
    }

    /// The bytes of the named file.
    pub fn get(&self, name: &str) -> Option<&[u8]>
        ensures { option_copied result ≡ held_in self.now name.now }
    {
        self.files.get(name)
    }
}

impl Files for SureFiles {
    ghost told = { λ s. Some (held_in s) };

    ghost faults = { λ _. 0 };

    fn read(&mut self, alloc: Global, name: &str, max: usize) -> Result<Vec<u8>, FileFault>
        ensures bytes { IfOk result (λ bytes. bytes.items ≡ take (max + 1) (content (held_in self.old) name.now)) }
        ensures same { self.new ≡ self.old }
        ensures sure { result ≢ Err FileFault.Failed }
    {
        let bytes = self.files.get(name).unwrap_or(&[]);
        Ok(front(alloc, bytes, max)?)
    }

    fn write(&mut self, name: &str, bytes: &[u8]) -> Result<(), FileFault>
        ensures written { OnOk result (held_in self.new name.now ≡ Some bytes.now) }
        ensures others { IsSameButFor name.now (held_in self.old) (held_in self.new) }
        ensures kept { OnErr result (self.new ≡ self.old) }
        ensures sure { result ≢ Err FileFault.Failed }
    {
        self.files.set(name, bytes).map_err(|_| FileFault::Memory)
    }
}

#[cfg(test)]
mod tests {
    use super::*;
    use std::test::Fail;

    #[test]
    fn never_fails(rt: HostRuntime) -> Result<(), Fail> {
        let alloc = rt.alloc();
        let mut files = SureFiles::new(alloc);
        files.add("a", b"first")?;
        files.write("b", b"second")?;
        for (name, want) in [("a", "first"), ("b", "second"), ("c", "")] {
            assert_eq!(rt; files.read(alloc, name, 9)?.as_slice(), want.as_bytes());
        }
        assert_eq!(rt; files.get("b").ok_or("no file")?, b"second".as_slice());
        assert!(rt; files.get("c").is_none());
        Ok(())
    }
}
