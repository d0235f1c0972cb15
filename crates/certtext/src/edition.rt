//! The line that a certificate file begins with.

ghost use Rattle.std.specs.Prelude.{◌≡◌, Some, IfSome};
ghost use Rattle.certtext.specs.declared.edition.Edition.{Edition};
ghost use Rattle.certtext.specs.Texts.{edition_text, table_of};
ghost use Rattle.certtext.specs.Fields.{edition_in};

use corestep::Table;

/// The form of a file.
#[derive(Clone, Copy)]
pub enum Edition {
    /// One number stands for both bounds, and the cycle table is the first.
    First,
    /// Both bounds, by this cycle table.
    Second(Table),
}

impl Edition {
    pub fn table(self) -> Table
        ensures { result ≡ table_of self }
    {
        match self {
            Edition::First => Table::One,
            Edition::Second(table) => table,
        }
    }
}

/// The edition of a file that begins with this line.
pub fn read_edition(line: &[u8]) -> Option<Edition>
    ensures text { IfSome result (λ edition. line.now ≡ edition_text edition) }
    ensures only { (edition : Edition) → line.now ≡ edition_text edition → result ≡ Some edition }
{
    named_edition(line)
}

#[tactic(auto, unfolding(crate::specs::Fields::edition_in))]
fn named_edition(line: &[u8]) -> Option<Edition>
    ensures { result ≡ edition_in line.now }
{
    if line == b"certs 1".as_slice() {
        Some(Edition::First)
    } else if line == b"certs 2 1".as_slice() {
        Some(Edition::Second(Table::One))
    } else if line == b"certs 2 2".as_slice() {
        Some(Edition::Second(Table::Two))
    } else {
        None
    }
}
