//! Marks on words: where regions and delays begin and end, and what a timing of the words may take as given.

ghost use Rattle.std.specs.Prelude.{◌≡◌, ◌<◌};
ghost use Rattle.isa.specs.Note.{kind_number, kind_at, value_fits, may_stand, goes_back, branch_target};

use crate::control::{BranchOffset, Jump};
use crate::inst::Inst;

/// What a note says of its word.
#[derive(Clone, Copy, Debug, PartialEq, Eq, Hash)]
pub enum NoteKind {
    /// A region begins; the value is its number.
    Enter,
    /// A delay begins; the value is its cycles.
    DelayIn,
    /// A delay ends; the value is its cycles.
    DelayOut,
    /// A region ends; the value is its number.
    Leave,
    /// The word's access stays in the core's own RAM.
    Own,
    /// The word returns to its function's caller.
    Return,
    /// The loop that the word's branch closes is run so many times.
    Turns,
}

/// A note on a word of an image. Words count from 0.
#[derive(Clone, Copy, Debug, PartialEq, Eq)]
pub struct Note {
    pub word: u16,
    pub kind: NoteKind,
    pub value: u32,
}

impl NoteKind {
    /// The kind's number in files, 1 to 7.
    pub fn number(self) -> u8
        ensures value { result ≡ kind_number self }
        ensures bound { result < 8 }
    {
        match self {
            NoteKind::Enter => 1,
            NoteKind::DelayIn => 2,
            NoteKind::DelayOut => 3,
            NoteKind::Leave => 4,
            NoteKind::Own => 5,
            NoteKind::Return => 6,
            NoteKind::Turns => 7,
        }
    }

    /// The kind with this number.
    pub fn from_number(n: u8) -> Option<NoteKind>
        ensures { result ≡ kind_at n }
    {
        match n {
            1 => Some(NoteKind::Enter),
            2 => Some(NoteKind::DelayIn),
            3 => Some(NoteKind::DelayOut),
            4 => Some(NoteKind::Leave),
            5 => Some(NoteKind::Own),
            6 => Some(NoteKind::Return),
            7 => Some(NoteKind::Turns),
            _ => None,
        }
    }

    /// Whether a note of this kind may have the value.
    pub fn allows(self, value: u32) -> bool
        ensures { result ≡ value_fits self value }
    {
        match self {
            NoteKind::Enter | NoteKind::Leave => value < 64,
            NoteKind::DelayIn | NoteKind::DelayOut => 1 <= value && value <= 1_000_000,
            NoteKind::Own | NoteKind::Return => value == 0,
            NoteKind::Turns => 1 <= value,
        }
    }

    /// Whether a note of this kind may stand on the instruction, which is the word `at`.
    pub fn may_stand(self, at: u16, i: &Inst) -> bool
        ensures { result ≡ may_stand self at i.now }
    {
        match self {
            NoteKind::Own => matches!(i, Inst::Load { .. } | Inst::Store { .. }),
            NoteKind::Return => matches!(i, Inst::Jmp { to: Jump::Field(_) }),
            NoteKind::Turns => goes_back(at, i),
            NoteKind::Enter | NoteKind::DelayIn | NoteKind::DelayOut | NoteKind::Leave => true,
        }
    }
}

/// Whether it is a branch or a JMP to a number whose target isn't behind it.
fn goes_back(at: u16, i: &Inst) -> bool
    ensures { result ≡ goes_back at i.now }
{
    match *i {
        Inst::Branch { offset, .. } | Inst::Qba { offset } => offset.target(at) <= at,
        Inst::Jmp { to: Jump::Word(n) } => n <= at,
        _ => false,
    }
}

impl BranchOffset {
    /// The word that a branch at the word `at` goes to. Words are counted modulo 65,536.
    pub fn target(self, at: u16) -> u16
        ensures { result ≡ branch_target at self }
    {
        (i32::from(at) + i32::from(self.words)).rem_euclid(1 << 16) as u16
    }
}
