ghost use Rattle.std.specs.Prelude.{◌≡◌, ◌+◌, ℕ, List, Option};
ghost use Rattle.isa.specs.Image.{Contents};
ghost use Rattle.corestep.specs.declared.onward.Turning.{Turning};
ghost use Rattle.corestep.specs.declared.table.Table.{Table};
ghost use Rattle.behaviour.specs.Machine.{Reaches};
ghost use Rattle.corerun.specs.Code.{code_of_words};
ghost use Rattle.corerun.specs.Solo.{Alone, alone_step};
ghost use Rattle.corepath.specs.Loops.{Loop};
ghost use Rattle.corepath.specs.Path.{Path, Ends};
ghost use Rattle.corepath.specs.Pass.{Open, Passing, IsPass};
ghost use Rattle.corepath.specs.Certificate.{Answers};

/// A pass of a run of one core that keeps the notes and is closed is a part of the run, and goes along a path: in each function that runs,
/// from its entry to the core's counter, with the function's cycles as its sum. So a whole pass takes the sum of a path to the region's
/// end.
pub fn pass_laws()
    ensures run { (table : Table) (image : Contents) (region : ℕ) (loops : List Loop) (from : Alone) (calls : List Open)
        (e began : ℕ) (t : Option Turning) (k : Loop → ℕ) (c : ℕ) (now : Alone)
        → Passing table image region loops from calls e began t k c now
        → Reaches (alone_step image) from now }
    ensures along { (table : Table) (image : Contents) (region : ℕ) (loops : List Loop) (from : Alone) (calls : List Open)
        (e began : ℕ) (t : Option Turning) (k : Loop → ℕ) (c : ℕ) (now : Alone)
        → Passing table image region loops from calls e began t k c now
        → (s : ℕ) × Path table (code_of_words image) region loops e now.core.pc t k s × (c ≡ began + s) }
    ensures whole { (table : Table) (image : Contents) (region : ℕ) (loops : List Loop) (from : Alone) (cycles : ℕ)
        → IsPass table image region loops from cycles → Ends table (code_of_words image) region loops from.core.pc cycles }
{}
