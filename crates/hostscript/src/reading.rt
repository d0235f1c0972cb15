ghost use Rattle.std.specs.Prelude.{◌≡◌, ◌+◌, ◌<◌, ◌^◌, List, length, IfOk, OnOk, IfErr};
ghost use Rattle.textline.specs.Lines.{lines_of};
ghost use Rattle.hostscript.specs.declared.line.Saying.{Saying};
ghost use Rattle.hostscript.specs.declared.script.Script.{Script};
ghost use Rattle.hostscript.specs.Scripts.{AreGood, IsLineFault, IsScript, IsFaultOf, Gives, IsWhole, script_text};
ghost use Rattle.hostscript.specs.Drafts.{Holds, Adds};
ghost use Rattle.hostscript.specs.Acts.{InOrder};
ghost use Rattle.hostscript.specs.Lines.{Says};

use crate::draft::Draft;
use crate::fault::{LineFault, ScriptFault};
use crate::line::read_line;
use crate::script::{Acts, Numbers, Script};
use std::alloc::Global;
use textline::Lines;

/// Reads the text of a script. The last line may lack its end.
pub fn read_script(alloc: Global, bytes: &[u8]) -> Result<Script, ScriptFault>
    requires { length bytes.now < 2 ^ 31 }
    // What is read is what the text says.
    ensures found { IfOk result (λ script. IsScript bytes.now script) }
    // What is a script is read, unless memory runs out.
    ensures only { (script : Script) → IsScript bytes.now script → Gives script result }
    ensures printed { (script : Script) → IsWhole script → bytes.now ≡ script_text script → Gives script result }
    // A fault is the first bad line, with its cause.
    ensures fault { IfErr result (IsFaultOf bytes.now) }
{
    read_lines(alloc, bytes)
}

fn read_lines(alloc: Global, bytes: &[u8]) -> Result<Script, ScriptFault>
    requires { length bytes.now < 2 ^ 31 }
    ensures found { IfOk result (λ script. IsScript bytes.now script) }
    ensures fault { IfErr result (IsFaultOf bytes.now) }
{
    let draft = read_draft(alloc, bytes)?;
    Ok(Script {
        acts: Acts::from_vec(draft.acts),
        arb0: Numbers::from_vec(draft.arb0),
        arb1: Numbers::from_vec(draft.arb1),
    })
}

fn read_draft(alloc: Global, bytes: &[u8]) -> Result<Draft, ScriptFault>
    requires { length bytes.now < 2 ^ 31 }
    ensures found { IfOk result (λ draft. (said : List Saying) × AreGood (lines_of bytes.now) said × Holds draft said) }
    ensures fault { IfErr result (IsFaultOf bytes.now) }
{
    let mut draft = Draft::new(alloc);
    let mut lines = Lines::of(bytes);
    'lines: loop {
        let number = lines.number();
        let Some(line) = lines.next_line() else {
            break;
        };
        if let Err(fault) = add_line(alloc, &mut draft, line) {
            return Err(fault.at(number));
        }
    }
    Ok(draft)
}

fn add_line(alloc: Global, draft: &mut Draft, line: &[u8]) -> Result<(), LineFault>
    ensures ok { OnOk result ((said : Saying) × Says line.now said × Adds said draft.old draft.new) }
    ensures order { OnOk result (InOrder draft.old.acts.items → InOrder draft.new.acts.items) }
    ensures fault { IfErr result (IsLineFault draft.old.acts.items line.now) }
{
    draft.add(read_line(alloc, line)?)
}
