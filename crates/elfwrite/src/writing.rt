//! An executable as a whole.

ghost use Rattle.std.specs.Prelude.{◌≡◌, ◌<◌, ◌^◌, ◌++◌, [], length, IfOk, OnOk, Ok};
ghost use Rattle.pruelf.specs.Executable.{image_in};
ghost use Rattle.restable.specs.Tables.{table};
ghost use Rattle.elfwrite.specs.Written as written;

use crate::extra::Extra;
use crate::front::put_front;
use crate::image::put_image;
use crate::ranges::image_is_ranged;
use crate::sections::put_sections;
use crate::symbols::{names, put_besides, put_strings};
use isa::Image;
use pruelf::Plan;
use prunum::Memory;
use std::alloc::Global;

/// How long the parts are, those of the symbols' names told.
fn plan_of(image: &Image, extra: &Extra, names: usize) -> Plan
    requires names { names ≡ length (written.names_bytes extra.now.symbols) }
    requires small { written.CanBeWritten image.now extra.now }
    ensures { result ≡ written.plan_of image.now extra.now }
{
    let init = image.init().len();
    let measured = Plan {
        sections_at: 0,
        code: (4 * image.words().len()) as u32,
        data_at: image.data_at(),
        init: init as u32,
        memory: init as u32 + image.zero(),
        notes: (8 * image.notes().len()) as u32,
        table: extra.table().len() as u32,
        symbols: (16 + 16 * extra.symbols().len()) as u32,
        names: names as u32,
    };
    Plan {
        sections_at: (measured.section_names_offset() + 72) as u32,
        ..measured
    }
}

fn put_parts(out: &mut Vec<u8>, image: &Image, extra: &Extra, names: &[u8]) -> Result<(), Memory>
    requires names { names.now ≡ written.names_bytes extra.now.symbols }
    requires small { length names.now < 2 ^ 32 }
    ensures { OnOk result (out.new.items ≡ out.old.items ++ written.parts_bytes image.now extra.now) }
{
    put_image(out, image)?;
    put_besides(out, extra)?;
    put_strings(out, extra, names)
}

/// The executable of an image, with its symbols and its resource table. What is written is read again as the same image.
pub fn write_exec(alloc: Global, image: &Image, extra: &Extra) -> Result<Vec<u8>, Memory>
    requires { written.CanBeWritten image.now extra.now }
    ensures bytes { IfOk result (λ v. v.items ≡ written.executable image.now extra.now) }
    ensures again { IfOk result (λ v. image_in v.items ≡ Ok image.now) }
    ensures small { IfOk result (λ v. length v.items < 2 ^ 31) }
{
    image_is_ranged(image);
    let names = names(alloc, extra.symbols())?;
    let p = plan_of(image, extra, names.len());
    let mut out = Vec::new(alloc);
    put_front(&mut out, &p)?;
    put_parts(&mut out, image, extra, &names)?;
    put_sections(&mut out, &p)?;
    Ok(out)
}

/// The executable of an image, with no symbols and the resource table of no traces. What is written is read again as the same image.
pub fn write_image(alloc: Global, image: &Image) -> Result<Vec<u8>, Memory>
    ensures bytes { IfOk result (λ v. v.items ≡ written.executable image.now (record { symbols = []; table = table [] })) }
    ensures again { IfOk result (λ v. image_in v.items ≡ Ok image.now) }
    ensures small { IfOk result (λ v. length v.items < 2 ^ 31) }
{
    let extra = Extra::empty(alloc)?;
    image_is_ranged(image);
    write_exec(alloc, image, &extra)
}
