//! The parts that hold an image.

ghost use Rattle.std.specs.Prelude.{◌≡◌, ◌++◌, OnOk};
ghost use Rattle.std.specs.List.{flat_map};
ghost use Rattle.elfwrite.specs.Written as written;

use crate::bytes::{put_code, put_filled, put_halves, put_words};
use isa::{Image, Note};
use prunum::Memory;

fn put_note(out: &mut Vec<u8>, note: &Note) -> Result<(), Memory>
    ensures { OnOk result (out.new.items ≡ out.old.items ++ written.note_bytes note.now) }
{
    put_halves(out, &[u64::from(note.word)])?;
    out.extend_from_slice(&[note.kind.number(), 0])?;
    put_words(out, &[u64::from(note.value)])
}

fn put_notes(out: &mut Vec<u8>, notes: &[Note]) -> Result<(), Memory>
    ensures { OnOk result (out.new.items ≡ out.old.items ++ flat_map written.note_bytes notes.now) }
{
    for note in notes {
        put_note(out, note)?;
    }
    Ok(())
}

/// The words, the data and the notes.
pub fn put_image(out: &mut Vec<u8>, image: &Image) -> Result<(), Memory>
    ensures { OnOk result (out.new.items ≡ out.old.items ++ written.image_bytes image.now) }
{
    put_code(out, image.words())?;
    put_filled(out, image.init())?;
    put_notes(out, image.notes())
}
