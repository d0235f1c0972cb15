ghost use Rattle.std.specs.Prelude.{◌≡◌, None};
ghost use Rattle.cfault.specs.Fault.{first_by, is_before, earlier};

use crate::rule::rule_number;
use csyn::{Cause, Span};
use std::marker::Model;

/// A broken rule, and where: at the first token of the node that breaks it.
#[derive(Clone, Copy, Debug, PartialEq, Eq)]
pub struct Fault {
    pub span: Span,
    pub cause: Cause,
}

impl Fault {
    /// Whether it is reported rather than `other`.
    pub fn is_before(self, other: Fault) -> bool
        ensures { result ≡ is_before self other }
    {
        let by_number = rule_number(self.cause) < rule_number(other.cause);
        let in_line = first_by(self.span.column, other.span.column, by_number);
        first_by(self.span.line, other.span.line, in_line)
    }
}

// Two numbers in order, and where they are equal what comes next.
fn first_by(m: u32, n: u32, next: bool) -> bool
    ensures { result ≡ first_by m n next }
{
    if m < n {
        true
    } else if m == n {
        next
    } else {
        false
    }
}

/// The least of the faults that were noted. Contracts see it alone.
#[derive(Debug, Drop)]
pub struct Faults {
    least: Option<Fault>,
}

impl Model for Faults {
    ghost use Rattle.std.specs.Prelude.{Option};
    ghost use Rattle.cfault.specs.declared.fault.Fault.{Fault};

    ghost Value = { Option Fault };

    ghost view = { λ faults. faults.least };
}

impl Faults {
    /// No fault yet.
    pub fn new() -> Faults
        ensures { result ≡ None }
    {
        Faults { least: None }
    }

    pub fn note(&mut self, fault: Fault)
        ensures { self.new ≡ earlier self.old fault }
    {
        match self.least {
            Some(least) if !fault.is_before(least) => {}
            _ => self.least = Some(fault),
        }
    }

    /// The least fault; None where none was noted.
    pub fn least(&self) -> Option<Fault>
        ensures { result ≡ self.now }
    {
        self.least
    }
}
