//! Whole sources.
ghost use Rattle.std.specs.Prelude.{◌≡◌, ◌<◌, ◌≤◌, ◌^◌, length, IfOk, IfErr};
ghost use Rattle.cgrammar.specs.Text.{Written, IsText};
ghost use Rattle.creader.specs.Entries.{entries};
ghost use Rattle.creader.specs.Machine.{most_steps};
ghost use Rattle.creader.specs.Source.{EndsOnce, IsFaultOf};

use crate::read_fault::ReadFault;
use crate::reader::{Entry, Reader};
use cgrammar::Kind;
use csyn::Token;
use std::alloc::Global;

/// The productions of a source in the order in which they end: each behind those of its parts, and `Source` last. The
/// last of the tokens, and no other, is the end token.
/// Err(Token(place)): some source begins with the tokens before that place, and none with the token there as well.
/// Err(Memory): no memory is left.
pub fn read_entries(alloc: Global, tokens: &[Token]) -> Result<Vec<Entry>, ReadFault>
    requires short { length tokens.now < 2 ^ 31 }
    requires ends { EndsOnce tokens.now }
    ensures entries { IfOk result (λ made. (written : Written) × IsText written tokens.now × (made.items ≡ entries 0 written)) }
    ensures few { IfOk result (λ made. length made.items ≤ most_steps (length tokens.now)) }
    ensures fault { IfErr result (IsFaultOf tokens.now) }
{
    let mut reader = Reader::new(alloc)?;
    for (place, token) in tokens.iter().enumerate() {
        if !reader.feed(Kind::of(token))? {
            return Err(ReadFault::Token(place));
        }
    }
    if !reader.finish()? {
        return Err(ReadFault::Token(tokens.len()));
    }
    Ok(reader.entries)
}
