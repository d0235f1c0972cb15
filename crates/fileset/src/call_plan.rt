ghost use Rattle.std.specs.Prelude.{◌≡◌, ◌≤◌, ◌↔◌, IsTrue};
ghost use Rattle.fileset.specs.CallPlan.{FailsNext, after_call};

use std::marker::Model;

/// Counts calls, of which those with the listed numbers are to fail.
#[derive(Drop)]
pub struct CallPlan {
    fails: Vec<u32>,
    calls: u64,
    faults: u64,
}

impl Model for CallPlan {
    ghost use Rattle.fileset.specs.CallPlan.{Plan};

    ghost Value = { Plan };

    ghost view = { λ p. record { fails = p.fails.items; calls = p.calls; faults = p.faults } };
}

impl CallPlan {
    pub fn new(fails: Vec<u32>) -> CallPlan
        ensures { result ≡ record { fails = fails.items; calls = 0; faults = 0 } }
    {
        CallPlan {
            fails,
            calls: 0,
            faults: 0,
        }
    }

    /// Whether the next call is to fail.
    pub fn fails_next(&self) -> bool
        ensures { IsTrue result ↔ FailsNext self.now }
    {
        let number = self.calls.saturating_add(1);
        self.fails.iter().any(|listed| u64::from(*listed) == number)
    }

    /// Counts a call.
    pub fn count(&mut self, failed: bool)
        ensures counted { self.new ≡ after_call failed self.old }
        ensures grows { self.old.faults ≤ self.new.faults }
    {
        self.calls = self.calls.saturating_add(1);
        if failed {
            self.faults = self.faults.saturating_add(1);
        }
    }
}
