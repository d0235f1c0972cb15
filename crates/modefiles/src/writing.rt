ghost use Rattle.std.specs.Prelude.{◌≤◌, [], ◌∷◌, OnOk, IfErr};
ghost use Rattle.std.specs.Vec.Iter.{into_iter_items};
ghost use Rattle.fileset.specs.Told.{Tells};
ghost use Rattle.modefiles.specs.Writing.{HoldsFile, Wrote, OutputFails, named};

use crate::fault::OutputFault;
use crate::output::Output;
use fileset::{FileFault, Files};
use std::vec::IntoIter;

fn write_output<F: Files>(files: &mut F, output: Output) -> Result<(), OutputFault>
    ensures ok { OnOk result (Tells (F.told files.old) (F.told files.new) (HoldsFile (output.name, output.bytes.items))) }
    ensures err { IfErr result (OutputFails (named (output ∷ [])) (F.told files.old) (F.told files.new)
        (F.faults files.old) (F.faults files.new)) }
    ensures grows { F.faults files.old ≤ F.faults files.new }
{
    match files.write(output.name.as_str(), &output.bytes) {
        Ok(()) => Ok(()),
        Err(FileFault::Memory) => Err(OutputFault::NoMemory),
        Err(FileFault::Failed) => Err(OutputFault::Failed(output.name)),
    }
}

fn write_rest<F: Files>(files: &mut F, outputs: &mut IntoIter<Output>) -> Result<(), OutputFault>
    ensures ok { OnOk result (Tells (F.told files.old) (F.told files.new) (Wrote (named (into_iter_items outputs.old)))) }
    ensures err { IfErr result (OutputFails (named (into_iter_items outputs.old)) (F.told files.old) (F.told files.new)
        (F.faults files.old) (F.faults files.new)) }
    ensures grows { F.faults files.old ≤ F.faults files.new }
{
    let Some(output) = outputs.next() else {
        return Ok(());
    };
    write_output(files, output)?;
    write_rest(files, outputs)
}

/// Writes the files in their order. Where one fails, those before it are written and those behind it are untouched.
pub fn write_all<F: Files>(files: &mut F, outputs: Vec<Output>) -> Result<(), OutputFault>
    ensures ok { OnOk result (Tells (F.told files.old) (F.told files.new) (Wrote (named outputs.items))) }
    ensures err { IfErr result (OutputFails (named outputs.items) (F.told files.old) (F.told files.new)
        (F.faults files.old) (F.faults files.new)) }
    ensures grows { F.faults files.old ≤ F.faults files.new }
{
    let mut rest = outputs.into_iter();
    write_rest(files, &mut rest)
}
