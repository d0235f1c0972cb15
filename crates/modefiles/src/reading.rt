ghost use Rattle.std.specs.Prelude.{◌≡◌, ℕ, List, [], ◌∷◌, ◌≤◌, ◌++◌, length, OnOk, IfOk, IfErr};
ghost use Rattle.fileset.specs.Told.{Tells, content, IsSameFiles};
ghost use Rattle.modefiles.specs.Reading.{AreWithin, InputFails, bytes_of, contents};

use crate::fault::InputFault;
use crate::input::Input;
use crate::name::Name;
use fileset::{FileFault, Files};
use prunum::Memory;
use std::alloc::Global;

// A file with a byte more than its most is read that far.
fn read_input<F: Files>(alloc: Global, files: &mut F, input: &Input) -> Result<Vec<u8>, InputFault>
    ensures bytes { IfOk result (λ bytes. Tells (F.told files.old) (F.told files.new)
        (λ before _. bytes.items ≡ content before input.now.name)) }
    ensures within { IfOk result (λ bytes. length bytes.items ≤ input.now.most) }
    ensures same { Tells (F.told files.old) (F.told files.new) IsSameFiles }
    ensures err { IfErr result (InputFails (input.now ∷ []) (F.told files.old) (F.told files.new)
        (F.faults files.old) (F.faults files.new)) }
    ensures grows { F.faults files.old ≤ F.faults files.new }
{
    let most = input.most as usize;
    match files.read(alloc, input.name.as_str(), most) {
        Ok(bytes) if bytes.len() > most => {
            let name = Name::of(alloc, input.name.as_str())?;
            Err(InputFault::TooLong {
                name,
                max: input.most,
            })
        }
        Ok(bytes) => Ok(bytes),
        Err(FileFault::Memory) => Err(InputFault::NoMemory),
        Err(FileFault::Failed) => {
            let name = Name::of(alloc, input.name.as_str())?;
            Err(InputFault::Failed(name))
        }
    }
}

fn push(texts: &mut Vec<Vec<u8>>, bytes: Vec<u8>) -> Result<(), Memory>
    ensures { OnOk result (texts.new.items ≡ texts.old.items ++ (bytes ∷ [])) }
{
    match texts.push(bytes) {
        Ok(()) => Ok(()),
        Err(_) => Err(Memory),
    }
}

// Reads these behind the texts.
fn read_behind<F: Files>(
    alloc: Global,
    files: &mut F,
    inputs: &[Input],
    texts: &mut Vec<Vec<u8>>,
) -> Result<(), InputFault>
    ensures bytes { OnOk result (Tells (F.told files.old) (F.told files.new)
        (λ before _. bytes_of texts.new.items ≡ bytes_of texts.old.items ++ contents before inputs.now)) }
    ensures within { OnOk result ((behind : List (List ℕ)) × (bytes_of texts.new.items ≡ bytes_of texts.old.items ++ behind) ×
        AreWithin inputs.now behind) }
    ensures same { Tells (F.told files.old) (F.told files.new) IsSameFiles }
    ensures err { IfErr result (InputFails inputs.now (F.told files.old) (F.told files.new) (F.faults files.old) (F.faults files.new)) }
    ensures grows { F.faults files.old ≤ F.faults files.new }
{
    let Some((input, rest)) = inputs.split_first() else {
        return Ok(());
    };
    let bytes = read_input(alloc, files, input)?;
    push(texts, bytes)?;
    read_behind(alloc, files, rest, texts)
}

/// Reads the files in their order, each followed at once by the judgement of its length. No file changes.
pub fn read_all<F: Files>(
    alloc: Global,
    files: &mut F,
    inputs: &[Input],
) -> Result<Vec<Vec<u8>>, InputFault>
    ensures bytes { IfOk result (λ texts. Tells (F.told files.old) (F.told files.new)
        (λ before _. bytes_of texts.items ≡ contents before inputs.now)) }
    ensures within { IfOk result (λ texts. AreWithin inputs.now (bytes_of texts.items)) }
    ensures same { Tells (F.told files.old) (F.told files.new) IsSameFiles }
    ensures err { IfErr result (InputFails inputs.now (F.told files.old) (F.told files.new) (F.faults files.old) (F.faults files.new)) }
    ensures grows { F.faults files.old ≤ F.faults files.new }
{
    let mut texts = Vec::new(alloc);
    read_behind(alloc, files, inputs, &mut texts)?;
    Ok(texts)
}
