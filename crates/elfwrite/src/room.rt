//! Whether an executable is short enough to be written.

ghost use Rattle.std.specs.Prelude.{◌≡◌, ◌↔◌, ◌+◌, ◌≤◌, ◌^◌, IsTrue, length, min};
ghost use Rattle.pruelf.specs.Layout as layout;
ghost use Rattle.elfwrite.specs.Written as written;

use crate::extra::Extra;
use isa::Image;
use pruelf::Sym;

/// More bytes than an executable has.
const MOST: usize = 1 << 31;

/// So many bytes and the name's with its byte of 0, or 2^31 where that is more.
fn added(total: usize, symbol: &Sym) -> usize
    requires { total ≤ 2 ^ 31 }
    ensures { result ≡ min (total + length symbol.now.name + 1) (2 ^ 31) }
{
    (total + symbol.name.as_slice().len().min(MOST) + 1).min(MOST)
}

/// How long the symbols' names are together, or 2^31 where that is more.
fn length_of_names(symbols: &[Sym]) -> usize
    ensures { result ≡ min (length (written.names_bytes symbols.now)) (2 ^ 31) }
{
    let mut total = 1;
    for symbol in symbols {
        total = added(total, symbol);
    }
    total
}

/// How many bytes fill a part to a multiple of 4.
fn filling(length: usize) -> usize
    ensures { result ≡ layout.padding length }
{
    (4 - length % 4) % 4
}

/// Whether the executable has fewer than 2^31 bytes.
pub fn can_be_written(image: &Image, extra: &Extra) -> bool
    ensures { IsTrue result ↔ written.CanBeWritten image.now extra.now }
{
    let names = length_of_names(extra.symbols());
    let table = extra.table().len();
    let symbols = extra.symbols().len();
    let notes = image.notes().len();
    let init = image.init().len();
    if names >= MOST || table >= MOST || symbols >= MOST || notes >= MOST {
        return false;
    }
    let loaded = 116 + 4 * image.words().len() + init + filling(init);
    let behind = 8 * notes + table + 16 + 16 * symbols + names + filling(names);
    loaded + behind + 432 < MOST
}
