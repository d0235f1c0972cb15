ghost use Rattle.std.specs.Prelude.{◌≡◌, ◌<◌, ◌^◌};
ghost use Rattle.std.specs.List.{AllByRecursion};
ghost use Rattle.hostscript.specs.Acts.{IsAct, InOrder};

use crate::action::Act;
use std::marker::Model;

/// The acts of a script, each in its ranges. Their cycles do not fall.
#[derive(Debug, Drop)]
pub struct Acts {
    items: Vec<Act>,
}

impl Model for Acts {
    ghost use Rattle.std.specs.Prelude.{List};
    ghost use Rattle.std.specs.List.{AllByRecursion};
    ghost use Rattle.hostscript.specs.declared.action.Act.{Act};

    ghost Value = { List Act };

    ghost use Rattle.hostscript.specs.Acts.{IsAct, InOrder};

    ghost view = { λ a. a.items.items };

    ghost invariant = { λ a. AllByRecursion IsAct a.items.items × InOrder a.items.items };
}

impl Acts {
    /// The acts of a vector, which takes no memory.
    pub fn from_vec(acts: Vec<Act>) -> Acts
        requires ranges { AllByRecursion IsAct acts.items }
        requires order { InOrder acts.items }
        ensures { result ≡ acts.items }
    {
        Acts { items: acts }
    }

    /// The vector again, which takes no memory.
    pub fn into_vec(self) -> Vec<Act>
        ensures acts { result.items ≡ self }
        ensures ranges { AllByRecursion IsAct self }
        ensures order { InOrder self }
    {
        self.items
    }

    /// The acts in their order.
    pub fn as_slice(&self) -> &[Act]
        ensures acts { result.now ≡ self.now }
        ensures ranges { AllByRecursion IsAct self.now }
        ensures order { InOrder self.now }
    {
        self.items.as_slice()
    }
}

/// Arbitration numbers of a core: the cycles that its accesses of shared memory wait, one after the other.
#[derive(Debug, Drop)]
pub struct Numbers {
    items: Vec<u8>,
}

impl Model for Numbers {
    ghost use Rattle.std.specs.Prelude.{List, ℕ};

    ghost Value = { List ℕ };

    ghost view = { λ a. a.items.items };
}

impl Numbers {
    /// The numbers of a vector, which takes no memory.
    pub fn from_vec(numbers: Vec<u8>) -> Numbers
        ensures { result ≡ numbers.items }
    {
        Numbers { items: numbers }
    }

    /// The vector again, which takes no memory.
    pub fn into_vec(self) -> Vec<u8>
        ensures { result.items ≡ self }
    {
        self.items
    }

    /// The numbers in their order.
    pub fn as_slice(&self) -> &[u8]
        ensures { result.now ≡ self.now }
    {
        self.items.as_slice()
    }
}

/// What happens from outside: acts by cycles, and the arbitration numbers of both cores.
#[derive(Debug, Drop)]
pub struct Script {
    pub acts: Acts,
    pub arb0: Numbers,
    pub arb1: Numbers,
}
