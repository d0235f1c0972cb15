ghost use Rattle.std.specs.Prelude.{◌≡◌, ◌≢◌, ℕ, ◌+◌, ◌≤◌, List, length, take, Option, Some, IfOk, OnOk, OnErr, IsErrOf};
ghost use Rattle.fileset.specs.Told.{Held, Tells, content, IsSameFiles, IsSameButFor, IsCutShort};
ghost use Rattle.fileset.specs.Faults.{HasCause};

use crate::fault::FileFault;
use std::alloc::Global;

/// Files under their names.
pub trait Files {
    /// The bytes under each name, where the files tell them. Files that don't tell before a call don't tell after it.
    ghost told: { Self → Option Held };

    /// How often a call has failed. It never falls.
    ghost faults: { Self → ℕ };

    /// The file's first bytes, one more than `max` at most: a longer answer than `max` says that the file is longer.
    /// A missing file is a failure, or has no bytes. No file changes.
    fn read(&mut self, alloc: Global, name: &str, max: usize) -> Result<Vec<u8>, FileFault>
        ensures bytes { IfOk result (λ bytes. Tells (told self.old) (told self.new)
            (λ before _. bytes.items ≡ take (max + 1) (content before name.now))) }
        ensures within { IfOk result (λ bytes. length bytes.items ≤ max + 1) }
        ensures same { Tells (told self.old) (told self.new) IsSameFiles }
        ensures cause { HasCause (faults self.old) (faults self.new) result };

    /// Makes the file hold the bytes. No other file changes.
    fn write(&mut self, name: &str, bytes: &[u8]) -> Result<(), FileFault>
        ensures written { OnOk result (Tells (told self.old) (told self.new)
            (λ _ after. after name.now ≡ Some bytes.now)) }
        ensures others { Tells (told self.old) (told self.new) (IsSameButFor name.now) }

        // After a failure the file is as it was, or holds a front of the bytes.
        ensures failed { OnErr result (Tells (told self.old) (told self.new)
            (λ before after. IsCutShort bytes.now (before name.now) (after name.now))) }
        ensures memory { IsErrOf result FileFault.Memory → Tells (told self.old) (told self.new) IsSameFiles }
        ensures cause { HasCause (faults self.old) (faults self.new) result };
}
