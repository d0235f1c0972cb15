//! From the productions of a source to its units.
ghost use Rattle.std.specs.Prelude.{◌≡◌, ◌+◌, ◌<◌, ◌≤◌, ◌^◌, length, reverse, take, drop, IfOk};
ghost use Rattle.std.specs.Option.{option_map};
ghost use Rattle.std.specs.Prelude.{Some};
ghost use Rattle.cgrammar.specs.Text.{Written, IsText};
ghost use Rattle.creader.specs.Entries.{entries as entries_at};
ghost use Rattle.cparts.specs.declared.value.Value.{Value};
ghost use Rattle.cparse.specs.Nodes.{nodes};
ghost use Rattle.cparse.specs.Tree.{value as value_of};
ghost use Rattle.cparts.specs.Value.{bare_value};

use caction::make;
use cparts::{MakeFault, Value};
use creader::Entry;
use csyn::Token;
use std::alloc::{AllocError, Global};
use std::collections::LinkedList;

/// Takes the last values off the stack, in order.
fn take_parts(
    alloc: Global,
    values: &mut LinkedList<Value>,
    count: usize,
) -> Result<LinkedList<Value>, AllocError>
    ensures parts { IfOk result (λ parts. parts ≡ reverse (take count values.old)) }
    ensures left { IfOk result (λ _. values.new ≡ drop count values.old) }
{
    let mut parts = LinkedList::new(alloc);
    for _part in 0..count {
        if let Some(value) = values.pop_front() {
            parts.push_front(value)?;
        }
    }
    Ok(parts)
}

/// The values that are part of no other yet, the last first, and how many nodes have ended.
#[derive(Drop)]
pub struct Builder {
    values: LinkedList<Value>,
    nodes: u32,
}

impl Builder {
    ghost use Rattle.std.specs.Prelude.{◌≡◌, ◌+◌, ◌<◌, ◌≤◌, ◌^◌, length, reverse, take, drop, IfOk};
    ghost use Rattle.std.specs.Option.{option_map};
    ghost use Rattle.cparse.specs.Builder as specs;

    /// Whether the production could be made of the last values.
    fn step(&mut self, alloc: Global, tokens: &[Token], entry: Entry) -> Result<bool, AllocError>
        requires few { self.old.nodes + 1 < 2 ^ 32 }
        requires order { entry.first ≤ entry.end }
        requires within { entry.end ≤ length tokens.now }
        requires short { length tokens.now < 2 ^ 32 }
        ensures { IfOk result (λ is_made. specs.Steps tokens.now entry is_made (specs.built_of self.old) (specs.built_of self.new)) }
    {
        let parts = take_parts(alloc, &mut self.values, entry.production.children())?;
        let own = &tokens[entry.first..entry.end];
        let value = match make(alloc, entry.production, self.nodes, own, parts) {
            Ok(value) => value,
            Err(MakeFault::Parts) => return Ok(false),
            Err(MakeFault::Memory) => return Err(AllocError),
        };
        self.values.push_front(value)?;
        if entry.production.is_node() {
            self.nodes += 1;
        }
        Ok(true)
    }
}

/// The value of a source, of which these are the productions, and how many nodes it has.
pub fn build(
    alloc: Global,
    tokens: &[Token],
    entries: &[Entry],
) -> Result<(Option<Value>, u32), AllocError>
    requires source { (written : Written) × IsText written tokens.now × (entries.now ≡ entries_at 0 written) }
    requires short { length tokens.now < 2 ^ 31 }
    requires few { length entries.now < 2 ^ 31 }
    ensures { IfOk result (λ made. (written : Written) (value : Value) → IsText written tokens.now
        → entries.now ≡ entries_at 0 written → value_of 0 written ≡ Some value
        → (option_map bare_value made.0 ≡ Some value) × (made.1 ≡ nodes written)) }
{
    let mut builder = Builder {
        values: LinkedList::new(alloc),
        nodes: 0,
    };
    for entry in entries {
        if !builder.step(alloc, tokens, *entry)? {
            return Ok((None, builder.nodes));
        }
    }
    let value = builder.values.pop_front();
    Ok((value, builder.nodes))
}
