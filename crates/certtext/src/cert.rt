ghost use Rattle.std.specs.Prelude.{◌≡◌};

use corestep::Table;
use std::marker::Model;

/// The bounds at a word, by the function whose entry they are counted from.
#[derive(Clone, Copy, Debug, PartialEq, Eq)]
pub struct Label {
    /// The word where the region, or the called function, begins.
    pub entry: u16,
    pub pc: u16,
    /// Cycles from the entry to the word's start, each loop that still runs being in its first turn.
    pub least: u32,
    pub most: u32,
}

/// The labels of a certificate.
#[derive(Debug, Drop)]
pub struct Labels {
    items: Vec<Label>,
}

impl Model for Labels {
    ghost use Rattle.std.specs.Prelude.{List};
    ghost use Rattle.certtext.specs.declared.cert.Label.{Label};

    ghost Value = { List Label };

    ghost view = { λ a. a.items.items };
}

impl Labels {
    /// The labels of a vector, which takes no memory.
    pub fn from_vec(labels: Vec<Label>) -> Labels
        ensures { result ≡ labels.items }
    {
        Labels { items: labels }
    }

    /// The vector again, which takes no memory.
    pub fn into_vec(self) -> Vec<Label>
        ensures { result.items ≡ self }
    {
        self.items
    }

    /// The labels in their order.
    pub fn as_slice(&self) -> &[Label]
        ensures { result.now ≡ self.now }
    {
        self.items.as_slice()
    }
}

/// The least and the greatest number of cycles that a pass of a region takes, by a cycle table.
#[derive(Debug, Drop)]
pub struct Cert {
    pub table: Table,
    pub region: u16,
    pub least: u32,
    pub most: u32,
    /// They ascend by entry, then by word.
    pub labels: Labels,
}

/// Why a region has no certificate.
#[derive(Clone, Copy, Debug, PartialEq, Eq)]
pub enum Cause {
    /// A memory word that isn't known to stay in the core's own RAM.
    Touches,
    /// A branch back without a number of turns, a jump to a register that is no return, a call that closes a cycle, or a halt.
    Unbounded,
    /// A loop that is entered, left or shared otherwise than as a whole.
    Crossed,
    /// A path takes more cycles than are certified.
    Long,
}

/// A cause, and the word that shows it.
#[derive(Clone, Copy, Debug, PartialEq, Eq)]
pub struct Refusal {
    pub cause: Cause,
    pub pc: u16,
}

/// What a certificate file says of a region.
#[derive(Debug, Drop)]
pub enum CertLine {
    Cert(Cert),
    Refused { region: u16, refusal: Refusal },
}
