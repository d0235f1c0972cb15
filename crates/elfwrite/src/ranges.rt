//! What the types of parts say of their numbers and names.

ghost use Rattle.std.specs.Prelude.{◌<◌, ◌^◌, All, IsTrue};
ghost use Rattle.std.specs.List.{AllByRecursion};
ghost use Rattle.isa.specs.Image.{IsImage};
ghost use Rattle.restable.specs.Tables.{IsTrace};
ghost use Rattle.elfwrite.specs.Ranged.{IsRanged};
ghost use Rattle.elfwrite.specs.Written.{IsSymbol, is_defined};

use isa::{Image, Note};
use pruelf::Sym;
use restable::Trace;

/// Words are numbers of four bytes.
fn words_are_ranged(words: &[u32])
    ensures { AllByRecursion (λ w. w < 2 ^ 32) words.now }
{}

/// So are the values of notes.
fn notes_are_ranged(notes: &[Note])
    ensures { AllByRecursion (λ n. n.value < 2 ^ 32) notes.now }
{
    for note in notes {
        value_is_ranged(note.value);
    }
}

fn value_is_ranged(value: u32)
    ensures { value < 2 ^ 32 }
{}

/// The numbers of an image are of their types, and it is an image.
pub fn image_is_ranged(image: &Image)
    ensures ranged { IsRanged image.now }
    ensures image { IsImage image.now }
{
    words_are_ranged(image.words());
    notes_are_ranged(image.notes());
}

fn symbol_is_kept(symbol: &Sym)
    requires { IsTrue (is_defined symbol.now.part) }
    ensures { IsSymbol symbol.now }
{
    value_is_ranged(symbol.value);
    value_is_ranged(symbol.size);
    symbol.name.as_slice();
}

/// What the types of symbols keep, of symbols that are defined.
pub fn symbols_are_kept(symbols: &[Sym])
    requires { All (λ s. IsTrue (is_defined s.part)) symbols.now }
    ensures { AllByRecursion IsSymbol symbols.now }
{
    for symbol in symbols {
        symbol_is_kept(symbol);
    }
}

fn trace_is_kept(trace: &Trace)
    ensures { IsTrace trace.now }
{
    value_is_ranged(trace.addr);
    value_is_ranged(trace.len);
    trace.name.as_slice();
}

/// What the types of traces keep.
pub fn traces_are_kept(traces: &[Trace])
    ensures { AllByRecursion IsTrace traces.now }
{
    for trace in traces {
        trace_is_kept(trace);
    }
}
