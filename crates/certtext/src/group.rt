//! The certificates that lines say.

ghost use Rattle.std.specs.Prelude.{◌≡◌, ◌<◌, ◌≤◌, ◌^◌, length, IfOk};
ghost use Rattle.certtext.specs.Certs.{names, of_core, first_labels, certs_in, left_out};

use crate::cert::{Cert, CertLine, Label, Labels};
use crate::saying::Saying;
use corestep::Table;
use prunum::Memory;
use std::alloc::Global;

/// What is said behind the line that names the core.
pub fn of_core(said: &[Saying], core: u8) -> &[Saying]
    ensures part { result.now ≡ of_core core said.now }
    ensures shorter { length result.now ≤ length said.now }
{
    let mut rest = said;
    'lines: while let Some((first, behind)) = rest.split_first() {
        rest = behind;
        if names(*first, core) {
            return rest;
        }
    }
    rest
}

fn names(said: Saying, core: u8) -> bool
    ensures { result ≡ names core said }
{
    match said {
        Saying::Core(named) => named == core,
        _ => false,
    }
}

/// The certificates and refusals of a core, by this table.
pub fn certs_of(alloc: Global, table: Table, said: &[Saying]) -> Result<Vec<CertLine>, Memory>
    ensures { IfOk result (λ lines. lines.items ≡ certs_in table said.now) }
{
    let mut lines = Vec::new(alloc);
    let mut rest = said;
    'lines: while let Some((first, behind)) = rest.split_first() {
        rest = behind;
        match *first {
            Saying::Core(_) => return Ok(lines),
            Saying::Certified {
                region,
                least,
                most,
            } => {
                let labels = Labels::from_vec(first_labels(alloc, rest)?);
                lines.push(CertLine::Cert(Cert {
                    table,
                    region,
                    least,
                    most,
                    labels,
                }))?;
            }
            Saying::Refused { region, refusal } => lines.push(CertLine::Refused {
                region,
                refusal,
            })?,
            Saying::Labelled(_) | Saying::Unbalanced { .. } => {}
        }
    }
    Ok(lines)
}

/// The labels that stand first.
fn first_labels(alloc: Global, said: &[Saying]) -> Result<Vec<Label>, Memory>
    ensures { IfOk result (λ labels. labels.items ≡ first_labels said.now) }
{
    let mut labels = Vec::new(alloc);
    let mut rest = said;
    'labels: while let Some((Saying::Labelled(label), behind)) = rest.split_first() {
        labels.push(*label)?;
        rest = behind;
    }
    Ok(labels)
}

/// How many regions of a core are left out.
pub fn left_out(said: &[Saying]) -> u32
    requires { length said.now < 2 ^ 32 }
    ensures { result ≡ left_out said.now }
{
    let mut count = 0;
    let mut rest = said;
    'lines: while let Some((first, behind)) = rest.split_first() {
        rest = behind;
        match first {
            Saying::Core(_) => return count,
            Saying::Unbalanced { .. } => count += 1,
            _ => {}
        }
    }
    count
}
