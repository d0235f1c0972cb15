ghost use Rattle.std.specs.Prelude.{◌≡◌, ℕ, ◌≤◌, List, ◌++◌, Option, OnOk, OnErr};
ghost use Rattle.fileset.specs.Told.{Tells, AppendsFront};
ghost use Rattle.fileset.specs.Faults.{Rose};

use crate::fault::Failed;

/// Where lines for the user go.
pub trait Sink {
    /// The bytes taken so far, where the sink tells them. One that doesn't tell before a call doesn't tell after it.
    ghost told: { Self → Option (List ℕ) };

    /// How often a call has failed. It never falls.
    ghost faults: { Self → ℕ };

    /// Takes the bytes. After a failure it has taken a front of them.
    fn put(&mut self, bytes: &[u8]) -> Result<(), Failed>
        ensures put { OnOk result (Tells (told self.old) (told self.new)
            (λ before after. after ≡ before ++ bytes.now)) }
        ensures failed { OnErr result (Tells (told self.old) (told self.new)
            (λ before after. AppendsFront before bytes.now after)) }
        ensures grows { faults self.old ≤ faults self.new }
        ensures cause { OnErr result (Rose (faults self.old) (faults self.new)) };
}
