//! What holds of every run of the machine.

ghost use Rattle.std.specs.Prelude.{◌≡◌, ◌+◌, ℕ, false};
ghost use Rattle.isa.specs.declared.inst.Inst.{Inst};
ghost use Rattle.isa.specs.Image.{Contents};
ghost use Rattle.corestep.specs.declared.table.Table.{Table};
ghost use Rattle.corestep.specs.Cost.{cost};
ghost use Rattle.hostscript.specs.declared.script.Script.{Script};
ghost use Rattle.twocore.specs.declared.setup.Setup.{Setup};
ghost use Rattle.twocore.specs.declared.side.Side.{Side};
ghost use Rattle.twocore.specs.Word.{access_at, waits, cycles_of};
ghost use Rattle.twocore.specs.Machine.{M, Machine, cycles, at_start_of, restarted};
ghost use Rattle.twocore.specs.Stamps.{Ascends};
ghost use Rattle.twocore.specs.Alone.{AreGiven, InEach, SparesZero, SparesOne, RunsAlone};

/// Each core runs alone. After any number of cycles a core, with its registers, its LOOP, its private RAM, its count of instructions
/// and its events without their cycles, is where the core by itself comes to over the values of its own Read events, as long as nobody
/// else writes its private RAM.
pub fn alone_laws()
    ensures zero { (table : Table) (image0 image1 : Contents) (script : Script) (n : ℕ) → AreGiven image0 image1 script
        → InEach SparesZero n (at_start_of table image0 image1 script)
        → RunsAlone image0 (cycles n (at_start_of table image0 image1 script)).zero
        (cycles n (at_start_of table image0 image1 script)).trace0 }
    ensures one { (table : Table) (image0 image1 : Contents) (script : Script) (n : ℕ) → AreGiven image0 image1 script
        → InEach SparesOne n (at_start_of table image0 image1 script)
        → RunsAlone image1 (cycles n (at_start_of table image0 image1 script)).one
        (cycles n (at_start_of table image0 image1 script)).trace1 }
{}

/// A word without an access of the shared side or outside takes its table's cycles, whatever the other core does.
pub fn own_laws()
    ensures { (setup : Setup) (side : Side) (i : Inst) → waits side.core i ≡ false
        → cycles_of setup side i ≡ cost setup.table i (access_at side.core i) 0 }
{}

/// The cycles of a trace don't fall, for every run.
pub fn stamp_laws()
    ensures { (table : Table) (image0 image1 : Contents) (script : Script) (n : ℕ)
        → Ascends (M table image0 image1 script n).trace0 × Ascends (M table image0 image1 script n).trace1 }
{}

/// After any number of cycles a restart brings back the machine at its start.
pub fn restart_laws()
    ensures { (table : Table) (image0 image1 : Contents) (script : Script) (n : ℕ)
        → restarted (cycles n (at_start_of table image0 image1 script)) ≡ at_start_of table image0 image1 script }
{}

/// So many cycles, and then more, are all of them at once.
pub fn cycle_laws()
    ensures { (a b : ℕ) (m : Machine) → cycles a (cycles b m) ≡ cycles (a + b) m }
{}
