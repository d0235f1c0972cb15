//! A word by its bytes, as the word table has it.

ghost use Rattle.std.specs.Prelude.{◌≡◌};
ghost use Rattle.isa.specs.Row.{joined};
ghost use Rattle.isa.specs.Decoded.{split};

/// Bits 31 to 24, 23 to 16, 15 to 8 and 7 to 0 of a word.
#[derive(Clone, Copy)]
pub(crate) struct Row {
    pub(crate) top: u8,
    pub(crate) third: u8,
    pub(crate) second: u8,
    pub(crate) low: u8,
}

impl Row {
    pub(crate) fn new(top: u8, third: u8, second: u8, low: u8) -> Row
        ensures { result ≡ record { top = top; third = third; second = second; low = low } }
    {
        Row {
            top,
            third,
            second,
            low,
        }
    }
}

pub(crate) fn joined(r: Row) -> u32
    ensures { result ≡ joined r }
{
    u32::from_be_bytes([r.top, r.third, r.second, r.low])
}

pub(crate) fn split(w: u32) -> Row
    ensures { result ≡ split w }
{
    let [top, third, second, low] = w.to_be_bytes();
    Row::new(top, third, second, low)
}
