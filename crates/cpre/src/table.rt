//! Words by their spelling.
ghost use Rattle.std.specs.Prelude.{◌≡◌, map};
ghost use Rattle.csyn.specs.Table.{spelled};
ghost use Rattle.cpre.specs.Directive as directive;
ghost use Rattle.cpre.specs.Standard as standard;

use crate::directive::Directive;
use csyn::StandardInteger;

/// The words of directives that are no keywords.
pub const DIRECTIVES: [(&[u8], Directive); 5] = [
    (b"define", Directive::Define),
    (b"include", Directive::Include),
    (b"ifdef", Directive::Ifdef),
    (b"ifndef", Directive::Ifndef),
    (b"endif", Directive::Endif),
];

/// The type names of `<stdint.h>` (C99 7.18.1.1).
pub const STANDARD_INTEGERS: [(&[u8], StandardInteger); 6] = [
    (b"int8_t", StandardInteger::Int8),
    (b"uint8_t", StandardInteger::Uint8),
    (b"int16_t", StandardInteger::Int16),
    (b"uint16_t", StandardInteger::Uint16),
    (b"int32_t", StandardInteger::Int32),
    (b"uint32_t", StandardInteger::Uint32),
];

fn exact<T: Copy>(table: &[(&[u8], T)], word: &[u8]) -> Option<T>
    ensures { result ≡ spelled (map (λ e. (e.0.now, e.1)) table.now) word.now }
{
    let mut rest = table;
    while let [entry, others @ ..] = rest {
        if entry.0 == word {
            return Some(entry.1);
        }
        rest = others;
    }
    None
}

/// The directive that is named so.
#[tactic(auto, unfolding(crate::specs::Directive::directive_named))]
pub fn directive_named(word: &[u8]) -> Option<Directive>
    ensures { result ≡ directive.directive_named word.now }
{
    exact(&DIRECTIVES, word)
}

/// The type of `<stdint.h>` that is named so.
#[tactic(auto, unfolding(crate::specs::Standard::standard_named))]
pub fn standard_named(word: &[u8]) -> Option<StandardInteger>
    ensures { result ≡ standard.standard_named word.now }
{
    exact(&STANDARD_INTEGERS, word)
}
