ghost use Rattle.std.specs.Prelude.{◌≡◌};
ghost use Rattle.cfault.specs.Asked.{found, both, judged};
ghost use Rattle.cfault.specs.Fault.{noted};

use crate::fault::{Fault, Faults};

/// What a rule gets where it asks something of a part.
#[derive(Debug, Drop)]
pub enum Asked<T> {
    /// The part breaks a rule itself, and so has no type: its parents break no rule on types.
    Unsaid,
    /// The part isn't what is asked for.
    No,
    Yes(T),
}

impl<T> Asked<T> {
    /// What was found, or not.
    pub fn of(answer: Option<T>) -> Asked<T>
        ensures { result ≡ found answer }
    {
        match answer {
            None => Asked::No,
            Some(a) => Asked::Yes(a),
        }
    }
}

impl<T: Drop> Asked<T> {
    /// Both of two parts. Where one breaks a rule, nothing is asked of the other.
    pub fn and<U: Drop>(self, other: Asked<U>) -> Asked<(T, U)>
        ensures { result ≡ both self other }
    {
        match (self, other) {
            (Asked::Unsaid, _) | (_, Asked::Unsaid) => Asked::Unsaid,
            (Asked::No, _) | (_, Asked::No) => Asked::No,
            (Asked::Yes(a), Asked::Yes(b)) => Asked::Yes((a, b)),
        }
    }
}

/// Judges a rule that asks so: notes the fault where the answer is no, and gives what was asked for.
pub fn judge<T>(fault: Fault, asked: Asked<T>, faults: &mut Faults) -> Option<T>
    ensures gives { result ≡ (judged fault asked).gives }
    ensures noted { faults.new ≡ noted (judged fault asked).faults faults.old }
{
    match asked {
        Asked::Unsaid => None,
        Asked::No => {
            faults.note(fault);
            None
        }
        Asked::Yes(a) => Some(a),
    }
}
