//! A law on the definitions: what is kept of a list of faults is the least of them.

ghost use Rattle.std.specs.Prelude.{◌≡◌, [], None, IfSome};
ghost use Rattle.cfault.specs.Fault.{noted, IsLeast};

use crate::fault::{Fault, Faults};

/// The least of the faults; None where there is none.
pub fn least(all: &[Fault]) -> Option<Fault>
    ensures value { result ≡ noted all.now None }
    ensures least { IfSome result (λ f. IsLeast f all.now) }
    ensures none { result ≡ None → all.now ≡ [] }
{
    let mut faults = Faults::new();
    for fault in all {
        faults.note(*fault);
    }
    faults.least()
}
