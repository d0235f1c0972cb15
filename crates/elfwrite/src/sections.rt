//! The section headers.

ghost use Rattle.std.specs.Prelude.{◌≡◌, ◌++◌, OnOk};
ghost use Rattle.std.specs.List.{flat_map};
ghost use Rattle.elfwrite.specs.Written as written;

use crate::bytes::put_words;
use pruelf::{Form, Plan};
use prunum::Memory;

fn put_section(out: &mut Vec<u8>, form: &Form, size: u64) -> Result<(), Memory>
    ensures { OnOk result (out.new.items ≡ out.old.items ++ written.section_bytes form.now size) }
{
    let [name, kind, flags, address, offset] = form.fields_before();
    let [link, info, alignment, entry_size] = form.fields_behind();
    put_words(
        out,
        &[
            name, kind, flags, address, offset, size, link, info, alignment, entry_size,
        ],
    )
}

/// Each section's header, and its size.
#[tactic(auto, unfolding(crate::specs::Written::sections))]
fn sections_of(p: &Plan) -> [(Form, u64); 8]
    ensures { result ≡ written.sections p.now }
{
    let init = u64::from(p.init);
    let zero = u64::from(p.memory).saturating_sub(init);
    [
        (Plan::code_form(), u64::from(p.code)),
        (p.data_form(), init),
        (p.zero_form(), zero),
        (p.notes_form(), u64::from(p.notes)),
        (p.table_form(), u64::from(p.table)),
        (p.symbols_form(), u64::from(p.symbols)),
        (p.names_form(), u64::from(p.names)),
        (p.section_names_form(), 71),
    ]
}

fn put_headers(out: &mut Vec<u8>, sections: &[(Form, u64)]) -> Result<(), Memory>
    ensures { OnOk result (out.new.items ≡ out.old.items ++ flat_map (λ x. written.section_bytes x.0 x.1) sections.now) }
{
    for section in sections {
        put_section(out, &section.0, section.1)?;
    }
    Ok(())
}

/// The section headers, the null one before them.
#[tactic(auto, unfolding(crate::specs::Written::sections_bytes))]
pub fn put_sections(out: &mut Vec<u8>, p: &Plan) -> Result<(), Memory>
    ensures { OnOk result (out.new.items ≡ out.old.items ++ written.sections_bytes p.now) }
{
    out.extend_from_slice(&[0; 40])?;
    put_headers(out, &sections_of(p))
}
