ghost use Rattle.std.specs.Prelude.{◌≡◌, ◌++◌, ◌∷◌, [], Some, IfOk, OnOk};
ghost use Rattle.std.specs.String.{string_bytes};
ghost use Rattle.textline.specs.Lines.{text_of};
ghost use Rattle.certtext.specs.declared.edition.Edition.TheVariants.{Second};
ghost use Rattle.certtext.specs.Texts.{edition_text, core_text, cause_text};
ghost use Rattle.certtext.specs.Certs.{cert_lines, region_lines, certs_lines, certs_text};

use crate::cert::{Cause, Cert, CertLine};
use corestep::Table;
use prunum::Memory;
use std::alloc::Global;
use std::fmt;
use std::fmt::Write;

impl fmt::Display for Cause {
    ghost output = { λ c. Some (cause_text c) };

    fn fmt<W: fmt::Write>(&self, f: &mut fmt::Formatter<W>) -> fmt::Result {
        match *self {
            Cause::Touches => write!(f, "touches"),
            Cause::Unbounded => write!(f, "unbounded"),
            Cause::Crossed => write!(f, "crossed"),
            Cause::Long => write!(f, "long"),
        }
    }
}

/// The text of both cores' certificates and refusals, in the second edition.
pub fn print_certs(
    alloc: Global,
    table: Table,
    zero: &[CertLine],
    one: &[CertLine],
) -> Result<Vec<u8>, Memory>
    ensures { IfOk result (λ text. text.items ≡ certs_text table zero.now one.now) }
{
    let mut text = String::new(alloc);
    push_first(&mut text, table)?;
    push_core(&mut text, 0, zero)?;
    push_core(&mut text, 1, one)?;
    Ok(text.into_bytes())
}

// Puts the first line behind the text.
fn push_first(text: &mut String, table: Table) -> Result<(), Memory>
    ensures { OnOk result (string_bytes text.new ≡ string_bytes text.old ++ text_of (edition_text (Second table) ∷ [])) }
{
    match table {
        Table::One => writeln!(text, "certs 2 1")?,
        Table::Two => writeln!(text, "certs 2 2")?,
    }
    Ok(())
}

// Puts one core's lines behind the text.
fn push_core(text: &mut String, core: u8, lines: &[CertLine]) -> Result<(), Memory>
    ensures { OnOk result (string_bytes text.new ≡ string_bytes text.old ++ text_of (core_text core ∷ certs_lines lines.now)) }
{
    writeln!(text, "core {core}")?;
    for line in lines {
        push_region(text, line)?;
    }
    Ok(())
}

// Puts a region's lines behind the text.
fn push_region(text: &mut String, line: &CertLine) -> Result<(), Memory>
    ensures { OnOk result (string_bytes text.new ≡ string_bytes text.old ++ text_of (region_lines line.now)) }
{
    match line {
        CertLine::Cert(cert) => push_cert(text, cert),
        CertLine::Refused { region, refusal } => {
            writeln!(text, "none {region} {} {}", refusal.cause, refusal.pc)?;
            Ok(())
        }
    }
}

fn push_cert(text: &mut String, cert: &Cert) -> Result<(), Memory>
    ensures { OnOk result (string_bytes text.new ≡ string_bytes text.old ++ text_of (cert_lines cert.now)) }
{
    writeln!(text, "cert {} {} {}", cert.region, cert.least, cert.most)?;
    let labels = cert.labels.as_slice();
    for label in labels {
        writeln!(
            text,
            "at {} {} {} {}",
            label.entry, label.pc, label.least, label.most
        )?;
    }
    Ok(())
}
