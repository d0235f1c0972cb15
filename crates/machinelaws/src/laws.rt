ghost use Rattle.std.specs.Prelude.{◌≡◌, ◌<◌, ◌≤◌, ◌+◌, ◌*◌, ℕ, true};
ghost use Rattle.std.specs.List.{AllByRecursion};
ghost use Rattle.isa.specs.Image.{Contents};
ghost use Rattle.corestep.specs.declared.table.Table.{Table};
ghost use Rattle.corestep.specs.declared.out.Stop.TheVariants.{Going};
ghost use Rattle.hostscript.specs.declared.script.Script.{Script};
ghost use Rattle.twocore.specs.Machine.{cycles, at_start_of};
ghost use Rattle.twocore.specs.Alone.{behind_acts};
ghost use Rattle.machinelaws.specs.Least as spec;

use corestep::Table;

/// How many cycles a word takes at most where no wait is longer than this.
pub fn dearest(table: Table, wait: u8) -> u32
    ensures { result ≡ spec.dearest table wait }
{
    let cycles = match table {
        Table::One => 52,
        Table::Two => 73,
    };
    cycles + u32::from(wait)
}

/// A core that is running has done at least as many instructions as the most expensive word allows: where it had started in cycle `s`,
/// one more of such words would have ended behind cycle `n`. For every pair of images, script and table.
pub fn least_laws()
    ensures zero { (table : Table) (image0 image1 : Contents) (script : Script) (wait s n : ℕ)
        → AllByRecursion (λ w. w ≤ wait) script.arb0
        → (behind_acts (cycles s (at_start_of table image0 image1 script))).own.started ≡ true
        → (cycles n (at_start_of table image0 image1 script)).zero.stop ≡ Going
        → n < s + spec.dearest table wait * ((cycles n (at_start_of table image0 image1 script)).zero.count + 1) }
    ensures one { (table : Table) (image0 image1 : Contents) (script : Script) (wait s n : ℕ)
        → AllByRecursion (λ w. w ≤ wait) script.arb1
        → (behind_acts (cycles s (at_start_of table image0 image1 script))).other.started ≡ true
        → (cycles n (at_start_of table image0 image1 script)).one.stop ≡ Going
        → n < s + spec.dearest table wait * ((cycles n (at_start_of table image0 image1 script)).one.count + 1) }
{}
