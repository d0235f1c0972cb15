//! Certificate files.

ghost use Rattle.std.specs.Prelude.{◌≡◌, ◌↔◌, ◌+◌, ◌<◌, ◌^◌, [], ◌∷◌, ◌++◌, List, length, IsTrue, IfOk, IfErr, Some};
ghost use Rattle.corestep.specs.declared.table.Table.{Table};
ghost use Rattle.certtext.specs.declared.cert.CertLine.{CertLine};
ghost use Rattle.certtext.specs.declared.edition.Edition.{Edition};
ghost use Rattle.certtext.specs.declared.fault.CertsFault.TheVariants.{Line, Memory};
ghost use Rattle.certtext.specs.declared.saying.Saying.{Saying};
ghost use Rattle.certtext.specs.Texts.{edition_text};
ghost use Rattle.certtext.specs.Files.{IsFile, IsFaultOf};
ghost use Rattle.certtext.specs.Reading.{IsRest, Fails, FailsFirst};
ghost use Rattle.certtext.specs.Certs.{AreRead, IsSaidOf, IsPrinted, Gives, AreCerts, certs_text, lines_of_core};

use crate::cert::CertLine;
use crate::edition::{Edition, read_edition};
use crate::fault::CertsFault;
use crate::group::{certs_of, left_out, of_core};
use crate::order::Place;
use crate::saying::Saying;
use corestep::Table;
use std::alloc::Global;
use textline::Lines;

/// What a certificate file says of a core.
#[derive(Debug, Drop)]
pub struct CertFile {
    /// The cycle table that the file is by.
    pub table: Table,
    pub lines: Vec<CertLine>,
    /// How many refusals of the first edition the second has no line for.
    pub left_out: u32,
}

/// What a file says behind its first line.
#[derive(Drop)]
struct Said {
    edition: Edition,
    lines: Vec<Saying>,
}

/// Reads what a certificate file, of either edition, says of the core, 0 or 1. A fault is the first line that no certificate file has
/// behind the lines before it; each line has its end.
pub fn read_certs(alloc: Global, bytes: &[u8], core: u8) -> Result<CertFile, CertsFault>
    requires few { length bytes.now < 2 ^ 31 }
    requires core { core < 2 }
    // What is read is what stands there.
    ensures found { IfOk result (AreRead bytes.now core) }
    // Its numbers are in their ranges, and its regions and labels ascend.
    ensures whole { IfOk result (λ file. AreCerts file.table file.lines.items) }
    // What is a certificate file is read, unless memory runs out.
    ensures only { (edition : Edition) (said : List Saying) → IsFile bytes.now edition said → Gives (IsSaidOf edition said core) result }
    // What is printed is read again as the same.
    ensures printed { (table : Table) (zero one : List CertLine) → AreCerts table zero → AreCerts table one
        → bytes.now ≡ certs_text table zero one → Gives (IsPrinted table (lines_of_core core zero one)) result }
    // A fault is the first bad line.
    ensures fault { IfErr result (IsFaultOf bytes.now) }
{
    read_core(alloc, bytes, core)
}

fn read_core(alloc: Global, bytes: &[u8], core: u8) -> Result<CertFile, CertsFault>
    requires { length bytes.now < 2 ^ 31 }
    ensures found { IfOk result (AreRead bytes.now core) }
    ensures fault { IfErr result (IsFaultOf bytes.now) }
{
    let said = read_said(alloc, bytes)?;
    let table = said.edition.table();
    let of_core = of_core(&said.lines, core);
    let lines = certs_of(alloc, table, of_core)?;
    Ok(CertFile {
        table,
        lines,
        left_out: left_out(of_core),
    })
}

fn read_said(alloc: Global, bytes: &[u8]) -> Result<Said, CertsFault>
    requires { length bytes.now < 2 ^ 31 }
    ensures found { IfOk result (λ said. IsFile bytes.now said.edition said.lines.items) }
    ensures few { IfOk result (λ said. length said.lines.items < 2 ^ 32) }
    ensures fault { IfErr result (IsFaultOf bytes.now) }
{
    let mut lines = Lines::of(bytes);
    let edition = read_first(&mut lines)?;
    let said = read_rest(alloc, edition, &mut lines)?;
    Ok(Said {
        edition,
        lines: said,
    })
}

/// The line that names the edition.
fn read_first(lines: &mut Lines<'_>) -> Result<Edition, CertsFault>
    ensures text { IfOk result (λ edition. lines.old.text ≡ edition_text edition ++ 10 ∷ lines.new.text) }
    ensures number { IfOk result (λ _. lines.new.number ≡ lines.old.number + 1) }
    ensures fault { IfErr result (FailsFirst lines.old.text lines.old.number) }
{
    let number = lines.number();
    let Some(line) = lines.next_whole() else {
        return Err(CertsFault::Line(number));
    };
    let Some(edition) = read_edition(line) else {
        return Err(CertsFault::Line(number));
    };
    Ok(edition)
}

/// The lines behind it, up to the end.
fn read_rest(
    alloc: Global,
    edition: Edition,
    lines: &mut Lines<'_>,
) -> Result<Vec<Saying>, CertsFault>
    ensures rest { IfOk result (λ said. IsRest edition lines.old.text said.items) }
    ensures few { IfOk result (λ said. length said.items < 2 ^ 32) }
    ensures fault { IfErr result (Fails edition lines.old.text lines.old.number) }
{
    let mut said = Vec::new(alloc);
    let mut place = Place::first();
    'said: loop {
        let at = lines.number();
        let Some(line) = lines.next_whole() else {
            return if ends(place, lines) {
                Ok(said)
            } else {
                Err(CertsFault::Line(at))
            };
        };
        let Some(next) = place.read_next(edition, line) else {
            return Err(CertsFault::Line(at));
        };
        said.push(next)?;
        place = place.then(next);
    }
}

/// Whether a whole file is behind.
fn ends(place: Place, lines: &Lines<'_>) -> bool
    ensures { IsTrue result ↔ (place.core ≡ Some 1) × (lines.now.text ≡ []) }
{
    place.names_last() && lines.is_end()
}
