ghost use Rattle.std.specs.Prelude.{◌≡◌, ◌⊎◌, ◌↔◌, ◌+◌, ◌≤◌, [], take, Option, Some, IsNone, IfOk, OnOk, OnErr, IsErrOf};
ghost use Rattle.std.specs.Option.{option_copied};
ghost use Rattle.fileset.specs.Told.{content, IsSameButFor};
ghost use Rattle.fileset.specs.Faults.{is_failed};
ghost use Rattle.fileset.specs.FileMap.{held_in};
ghost use Rattle.fileset.specs.CallPlan.{FailsNext, after_call};

use crate::call_plan::CallPlan;
use crate::fault::FileFault;
use crate::file_map::{FileMap, front};
use crate::files::Files;
use prunum::Memory;
use std::alloc::Global;
use std::marker::Model;

/// Files in memory, of which the calls with the listed numbers fail.
#[derive(Drop)]
pub struct MemFiles {
    files: FileMap,
    plan: CallPlan,
}

impl Model for MemFiles {
    ghost use Rattle.fileset.specs.MemFiles.{PlannedFiles};

    ghost Value = { PlannedFiles };

    ghost view = { λ m. record { files = m.files; plan = m.plan } };
}

impl MemFiles {
    /// Holds no file. Reads and writes are counted together from 1, and those whose numbers are in `fails` fail.
    pub fn new(alloc: Global, fails: Vec<u32>) -> MemFiles
        ensures files { result.files ≡ [] }
        ensures plan { result.plan ≡ record { fails = fails.items; calls = 0; faults = 0 } }
    {
        MemFiles {
            files: FileMap::new(alloc),
            plan: CallPlan::new(fails),
        }
    }

    /// Makes the named file hold the bytes. It is not counted as a call.
    pub fn add(&mut self, name: &str, bytes: &[u8]) -> Result<(), Memory>
        ensures added { OnOk result (held_in self.new.files name.now ≡ Some bytes.now) }
        ensures others { OnOk result (IsSameButFor name.now (held_in self.old.files) (held_in self.new.files)) }
        ensures uncounted { self.new.plan ≡ self.old.plan }
        ensures refused { OnErr result (self.new ≡ self.old) }
    {
        self.files.set(name, bytes)
    }

    /// The bytes of the named file. No call is counted.
    pub fn get(&self, name: &str) -> Option<&[u8]>
        ensures { option_copied result ≡ held_in self.now.files name.now }
    {
        self.files.get(name)
    }

    fn read_front(&self, alloc: Global, name: &str, max: usize) -> Result<Vec<u8>, FileFault>
        ensures bytes { IfOk result (λ bytes. bytes.items ≡ take (max + 1) (content (held_in self.now.files) name.now)) }
        ensures fails { IsErrOf result FileFault.Failed ↔ (FailsNext self.now.plan ⊎ IsNone (held_in self.now.files name.now)) }
    {
        if self.plan.fails_next() {
            return Err(FileFault::Failed);
        }
        let bytes = self.get(name).ok_or(FileFault::Failed)?;
        Ok(front(alloc, bytes, max)?)
    }
}

impl Files for MemFiles {
    ghost told = { λ m. Some (held_in m.files) };

    ghost faults = { λ m. m.plan.faults };

    fn read(&mut self, alloc: Global, name: &str, max: usize) -> Result<Vec<u8>, FileFault>
        ensures bytes { IfOk result (λ bytes. bytes.items ≡ take (max + 1) (content (held_in self.old.files) name.now)) }
        ensures same { self.new.files ≡ self.old.files }
        ensures fails { IsErrOf result FileFault.Failed ↔ (FailsNext self.old.plan ⊎ IsNone (held_in self.old.files name.now)) }
        ensures plan { self.new.plan ≡ after_call (is_failed result) self.old.plan }
        ensures grows { self.old.plan.faults ≤ self.new.plan.faults }
    {
        let answer = self.read_front(alloc, name, max);
        self.plan.count(matches!(answer, Err(FileFault::Failed)));
        answer
    }

    fn write(&mut self, name: &str, bytes: &[u8]) -> Result<(), FileFault>
        ensures written { OnOk result (held_in self.new.files name.now ≡ Some bytes.now) }
        ensures others { IsSameButFor name.now (held_in self.old.files) (held_in self.new.files) }
        ensures kept { OnErr result (self.new.files ≡ self.old.files) }
        ensures fails { IsErrOf result FileFault.Failed ↔ FailsNext self.old.plan }
        ensures plan { self.new.plan ≡ after_call (is_failed result) self.old.plan }
        ensures grows { self.old.plan.faults ≤ self.new.plan.faults }
    {
        let fails = self.plan.fails_next();
        self.plan.count(fails);
        if fails {
            return Err(FileFault::Failed);
        }
        self.files.set(name, bytes).map_err(|_| FileFault::Memory)
    }
}

#[cfg(test)]
mod tests {
    use super::*;
    use std::test::Fail;

    #[test]
    fn fails_as_planned(rt: HostRuntime) -> Result<(), Fail> {
        let alloc = rt.alloc();
        let mut files = MemFiles::new(alloc, vec![in alloc; 3, 4]?);
        files.add("a", b"first")?;
        assert_eq!(rt; files.read(alloc, "a", 2)?.as_slice(), b"fir".as_slice());

        // the calls from 2 on: what is written, or a read; the file; the answer; what the file then holds
        let calls = [
            (Some("second"), "a", Ok(()), Some("second")),
            (Some("lost"), "a", Err(FileFault::Failed), Some("second")),
            (None, "a", Err(FileFault::Failed), Some("second")),
            (None, "b", Err(FileFault::Failed), None),
            (Some(""), "b", Ok(()), Some("")),
            (None, "a", Ok(()), Some("second")),
        ];
        for (written, name, want, held) in calls {
            let answer = match written {
                Some(text) => files.write(name, text.as_bytes()),
                None => files.read(alloc, name, 9).map(|_| ()),
            };
            assert_eq!(rt; answer, want, "{written:?} at {name}");
            assert_eq!(rt; files.get(name), held.map(str::as_bytes), "{name}");
        }
        Ok(())
    }
}
