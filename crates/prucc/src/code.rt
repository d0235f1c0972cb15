ghost use Rattle.std.specs.Prelude.{◌≡◌, IfOk, map};
ghost use Rattle.isa.specs.Row.{word_of};
ghost use Rattle.prucc.specs.Code.{output_register, code_of};

use isa::{Field, Inst, Part, encode};
use prunum::Memory;
use std::alloc::Global;

fn output_register() -> Field
    ensures { result ≡ output_register }
{
    Field {
        reg: 30,
        part: Part::All,
    }
}

/// The words of a source that writes these numbers: a load of each into the output register, and the halt.
pub fn words_of(alloc: Global, writes: &[u16]) -> Result<Vec<u32>, Memory>
    ensures { IfOk result (λ words. words.items ≡ map word_of (code_of writes.now)) }
{
    let mut words = Vec::new(alloc);
    for n in writes {
        words.push(encode(&Inst::Ldi {
            d: output_register(),
            n: *n,
        }))?;
    }
    words.push(encode(&Inst::Halt))?;
    Ok(words)
}
