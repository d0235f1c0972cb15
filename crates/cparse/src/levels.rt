//! How deep the nodes of a source stand.
ghost use Rattle.std.specs.Prelude.{◌≡◌, ◌++◌, OnOk, IfOk, replicate, slice_get};
ghost use Rattle.cgrammar.specs.Text.{Written, IsProper};
ghost use Rattle.creader.specs.Entries as source;
ghost use Rattle.cparse.specs.Nodes.{deep};

use creader::Entry;
use csyn::MAX_LEVELS;
use std::alloc::{AllocError, Global};

/// A node below so many others stands too deep.
const ALL_LEVELS: usize = MAX_LEVELS as usize;

/// Puts a level on top for each of this many parts.
fn push_level(levels: &mut Vec<usize>, level: usize, parts: usize) -> Result<(), AllocError>
    ensures { OnOk result (levels.new.items ≡ levels.old.items ++ replicate parts level) }
{
    for _part in 0..parts {
        levels.push(level)?;
    }
    Ok(())
}

/// The place of the first token of the first node that stands at level 257, if there is one. The entries are gone over from the last
/// one, with the level above each part that is still to come.
pub fn first_deep(alloc: Global, entries: &[Entry]) -> Result<Option<usize>, AllocError>
    ensures { IfOk result (λ found. (written : Written) → IsProper written → entries.now ≡ source.entries 0 written
        → found ≡ slice_get (deep 0 0 written) 0) }
{
    let mut levels = Vec::new(alloc);
    levels.push(0)?;
    let mut found = None;
    let mut left = entries;
    while let Some((entry, others)) = left.split_last() {
        let level = levels.pop().unwrap_or(0);
        let own = entry.production.is_node();
        if own && level == ALL_LEVELS {
            found = Some(entry.first);
        }
        let below = if own { level + 1 } else { level };
        push_level(&mut levels, below, entry.production.children())?;
        left = others;
    }
    Ok(found)
}
