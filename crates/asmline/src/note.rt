//! Notes as texts.

ghost use Rattle.std.specs.Prelude.{◌≡◌};
ghost use Rattle.asmline.specs.Lines.{kind_name, kind_in};

use isa::NoteKind;

/// The word that a kind of note is written with.
pub fn kind_name(kind: NoteKind) -> &'static str
    ensures { result.now ≡ kind_name kind }
{
    match kind {
        NoteKind::Enter => "enter",
        NoteKind::DelayIn => "delayin",
        NoteKind::DelayOut => "delayout",
        NoteKind::Leave => "leave",
        NoteKind::Own => "own",
        NoteKind::Return => "return",
        NoteKind::Turns => "turns",
    }
}

/// The kind of note that the word names.
#[tactic(auto, unfolding(crate::specs::Lines::kind_in))]
pub fn read_kind(word: &[u8]) -> Option<NoteKind>
    ensures { result ≡ kind_in word.now }
{
    if word == b"enter".as_slice() {
        Some(NoteKind::Enter)
    } else if word == b"delayin".as_slice() {
        Some(NoteKind::DelayIn)
    } else if word == b"delayout".as_slice() {
        Some(NoteKind::DelayOut)
    } else if word == b"leave".as_slice() {
        Some(NoteKind::Leave)
    } else if word == b"own".as_slice() {
        Some(NoteKind::Own)
    } else if word == b"return".as_slice() {
        Some(NoteKind::Return)
    } else if word == b"turns".as_slice() {
        Some(NoteKind::Turns)
    } else {
        None
    }
}
