ghost use Rattle.std.specs.Prelude.{◌≡◌, [], ◌∷◌, ◌++◌, OnOk};
ghost use Rattle.modefiles.specs.Writing.{named};

use modefiles::{Name, Output};
use prunum::Memory;

/// What is to be written: the files, in their order, and the lines for the user.
#[derive(Debug, Drop)]
pub struct Work {
    pub outputs: Vec<Output>,
    pub lines: String,
}

/// Puts a file behind the others.
pub fn push_output(outputs: &mut Vec<Output>, name: Name, bytes: Vec<u8>) -> Result<(), Memory>
    ensures { OnOk result (named outputs.new.items ≡ named outputs.old.items ++ ((name, bytes.items) ∷ [])) }
{
    match outputs.push(Output { name, bytes }) {
        Ok(()) => Ok(()),
        Err(_) => Err(Memory),
    }
}
