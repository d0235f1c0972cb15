ghost use Rattle.std.specs.Prelude.{◌≡◌, OnOk, IfErr};
ghost use Rattle.modefiles.specs.Writing.{HasTaken, PutFails, sink_name};

use crate::fault::OutputFault;
use crate::name::Name;
use fileset::Sink;

/// Puts lines for the user to the sink, whose name is given, so that a fault wants no memory to say so.
pub fn put_lines<S: Sink>(out: &mut S, name: Name, lines: &[u8]) -> Result<(), OutputFault>
    requires { name ≡ sink_name }
    ensures ok { OnOk result (HasTaken lines.now (S.told out.old) (S.told out.new)) }
    ensures err { IfErr result (PutFails lines.now (S.told out.old) (S.told out.new) (S.faults out.old) (S.faults out.new)) }
{
    match out.put(lines) {
        Ok(()) => Ok(()),
        Err(_) => Err(OutputFault::Failed(name)),
    }
}
