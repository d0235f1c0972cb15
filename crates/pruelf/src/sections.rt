ghost use Rattle.std.specs.Prelude.{◌≡◌, ◌<◌, ◌≤◌, ◌^◌, IfOk};
ghost use Rattle.pruelf.specs.Fields.{Gives};
ghost use Rattle.pruelf.specs.Front.{begun, loaded_in, named_in, noted_in, section_in, sections_in};

use crate::fault::{LoadCause, LoadFault};
use crate::fields::{fixed, within};
use crate::form::Form;
use crate::plan::Plan;
use crate::segments::LoadSizes;
use crate::span::Span;
use prunum::Width;

impl Plan {
    /// What is known before the section headers are read.
    pub fn begun(sections_at: u32, segments: LoadSizes) -> Plan
        ensures { result ≡ begun sections_at segments }
    {
        Plan {
            sections_at,
            code: segments.code,
            data_at: segments.data_at,
            init: segments.init,
            memory: segments.memory,
            notes: 0,
            table: 0,
            symbols: 0,
            names: 0,
        }
    }
}

/// A section header of this form, whose size is in the span.
#[tactic(auto, unfolding(crate::specs::Front::section_in))]
fn section(form: Form, span: Span, end: usize, bytes: &[u8]) -> Result<(u32, &[u8]), LoadFault>
    requires end { end < 2 ^ 31 }
    requires unit { 0 < span.unit }
    ensures value { Gives (λ x. (x.0, x.1.now)) result (section_in form span end bytes.now) }
    ensures within { IfOk result (λ x. x.0 ≤ span.most) }
{
    let cause = LoadCause::Section;
    let rest = fixed(cause, Width::B4, &form.fields_before(), end, bytes)?;
    let (size, rest) = within(cause, span, end, rest)?;
    let rest = fixed(cause, Width::B4, &form.fields_behind(), end, rest)?;
    Ok((size, rest))
}

/// The null section, and the sections that are loaded, whose sizes the program headers tell.
#[tactic(auto, unfolding(crate::specs::Front::loaded_in))]
fn loaded(p: Plan, end: usize, bytes: &[u8]) -> Result<&[u8], LoadFault>
    requires { end < 2 ^ 31 }
    ensures { Gives (λ x. x.now) result (loaded_in p end bytes.now) }
{
    let init = u64::from(p.init);
    let zero = u64::from(p.memory).saturating_sub(init);
    let rest = fixed(LoadCause::Section, Width::B4, &[0; 10], end, bytes)?;
    let (_, rest) = section(Plan::code_form(), Span::only(u64::from(p.code)), end, rest)?;
    let (_, rest) = section(p.data_form(), Span::only(init), end, rest)?;
    let (_, rest) = section(p.zero_form(), Span::only(zero), end, rest)?;
    Ok(rest)
}

/// The notes and the resource table.
#[tactic(auto, unfolding(crate::specs::Front::noted_in))]
fn noted(p: Plan, end: usize, bytes: &[u8]) -> Result<(Plan, &[u8]), LoadFault>
    requires { end < 2 ^ 31 }
    ensures value { Gives (λ x. (x.0, x.1.now)) result (noted_in p end bytes.now) }
    ensures table { IfOk result (λ x. x.0.table ≤ p.sections_at) }
{
    let (notes, rest) = section(p.notes_form(), p.notes_span(), end, bytes)?;
    let p = Plan { notes, ..p };
    let (table, rest) = section(p.table_form(), p.table_span(), end, rest)?;
    Ok((Plan { table, ..p }, rest))
}

/// The symbols, their names and the sections' names.
#[tactic(auto, unfolding(crate::specs::Front::named_in))]
fn named(p: Plan, end: usize, bytes: &[u8]) -> Result<(Plan, &[u8]), LoadFault>
    requires { end < 2 ^ 31 }
    ensures value { Gives (λ x. (x.0, x.1.now)) result (named_in p end bytes.now) }
    ensures table { IfOk result (λ x. x.0.table ≡ p.table) }
{
    let (symbols, rest) = section(p.symbols_form(), p.symbols_span(), end, bytes)?;
    let p = Plan { symbols, ..p };
    let (names, rest) = section(p.names_form(), p.names_span(), end, rest)?;
    let p = Plan { names, ..p };
    let (_, rest) = section(p.section_names_form(), Span::only(71), end, rest)?;
    Ok((p, rest))
}

/// The section headers: how long each part is.
#[tactic(auto, unfolding(crate::specs::Front::sections_in))]
pub fn sections(p: Plan, end: usize, bytes: &[u8]) -> Result<(Plan, &[u8]), LoadFault>
    requires { end < 2 ^ 31 }
    ensures value { Gives (λ x. (x.0, x.1.now)) result (sections_in p end bytes.now) }
    ensures table { IfOk result (λ x. x.0.table ≤ p.sections_at) }
{
    let rest = loaded(p, end, bytes)?;
    let (p, rest) = noted(p, end, rest)?;
    named(p, end, rest)
}
