//! Where jumps, branches and loops go.

ghost use Rattle.std.specs.Prelude.{pos, neg_ℤ, ◌≤ℤ◌, ◌≤◌};

use crate::field::Field;

/// The word that JMP and JAL go to: the one that a field tells, or this one. Words count from 0.
#[derive(Clone, Copy, Debug, PartialEq, Eq)]
pub enum Jump {
    Field(Field),
    Word(u16),
}

/// When a branch is taken, of its operands A and B. The comparisons have no sign.
#[derive(Clone, Copy, Debug, PartialEq, Eq, Hash)]
pub enum Condition {
    /// QBLT: B is less than A.
    Lt,
    /// QBEQ: B is A.
    Eq,
    /// QBLE: B is at most A.
    Le,
    /// QBGT: B is greater than A.
    Gt,
    /// QBNE: B is not A.
    Ne,
    /// QBGE: B is at least A.
    Ge,
    /// QBBC: bit B modulo 32 of A is 0.
    BitClear,
    /// QBBS: bit B modulo 32 of A is 1.
    BitSet,
}

/// How many words a branch goes from its own word, -512 to 511.
#[derive(Clone, Copy, Debug, PartialEq, Eq)]
pub struct BranchOffset {
    pub words: i16,
    pub ghost least: { neg_ℤ (pos 512) ≤ℤ words },
    pub ghost greatest: { words ≤ℤ pos 511 },
}

/// What LOOP runs: the next `length` words, 1 to 255, `count` times, 1 to 256.
#[derive(Clone, Copy, Debug, PartialEq, Eq)]
pub struct LoopBody {
    pub count: u16,
    pub length: u8,
    pub ghost once: { 1 ≤ count },
    pub ghost at_most: { count ≤ 256 },
    pub ghost some_word: { 1 ≤ length },
    pub ghost short: { length ≤ 255 },
}
