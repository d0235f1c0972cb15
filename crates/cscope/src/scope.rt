ghost use Rattle.std.specs.Prelude.{◌≡◌, ◌<◌, [], ◌∷◌, drop, IfOk, OnOk, OnErr};

use crate::entry::{Entry, NameId};
use crate::slot::Slot;
use std::alloc::{AllocError, Global};
use std::marker::Model;

/// The declarations that hold at a place. Contracts see how many names the source has, and the declarations, the nearest first.
#[derive(Debug, Drop)]
pub struct Scope {
    slots: Vec<Slot>,
    // by name
    nearest: Vec<Option<usize>>,
}

impl Model for Scope {
    ghost use Rattle.std.specs.Prelude.{length};
    ghost use Rattle.cscope.specs.Scope.{Declared};
    ghost use Rattle.cscope.specs.Slots.{entries, IsScope};

    ghost Value = { Declared };

    ghost view = { λ a. record { names = length a.nearest.items; entries = entries a.slots.items } };

    ghost invariant = { λ a. IsScope a.slots.items a.nearest.items };
}

impl Scope {
    ghost use Rattle.cscope.specs.Scope.{Declared, found, left, top};

    /// Nothing is declared yet, of so many names.
    pub fn new(alloc: Global, names: usize) -> Result<Scope, AllocError>
        ensures { IfOk result (λ s. s ≡ record { names = names; entries = [] }) }
    {
        Ok(Scope {
            slots: Vec::new(alloc),
            nearest: vec![in alloc; None; names]?,
        })
    }

    /// How many names the source has.
    pub fn names(&self) -> usize
        ensures { result ≡ self.now.names }
    {
        self.nearest.len()
    }

    /// The nearest declaration of the name.
    pub fn find(&self, name: NameId) -> Option<Entry>
        requires { name.0 < self.now.names }
        ensures { result ≡ found name.0 self.now.entries }
    {
        match self.nearest[name.0 as usize] {
            None => None,
            Some(at) => Some(self.slots[at].entry),
        }
    }

    /// Declares a name nearer than all before.
    pub fn declare(&mut self, entry: Entry) -> Result<(), AllocError>
        requires { entry.name.0 < self.old.names }
        ensures ok { OnOk result (self.new ≡ record { names = self.old.names; entries = entry ∷ self.old.entries }) }
        ensures err { OnErr result (self.new ≡ self.old) }
    {
        let name = entry.name.0 as usize;
        let at = self.slots.len();
        let hidden = self.nearest[name];
        self.slots.push(Slot { entry, hidden })?;
        self.nearest[name] = Some(at);
        Ok(())
    }

    /// The nearest declaration of all.
    fn top(&self) -> Option<Entry>
        ensures { result ≡ top self.now.entries }
    {
        match self.slots.last() {
            None => None,
            Some(slot) => Some(slot.entry),
        }
    }

    /// Forgets the nearest declaration of all, where there is one.
    fn pop(&mut self)
        ensures { self.new ≡ record { names = self.old.names; entries = drop 1 self.old.entries } }
    {
        if let Some(slot) = self.slots.pop() {
            self.nearest[slot.entry.name.0 as usize] = slot.hidden;
        }
    }

    /// Leaves all blocks that are deeper: forgets what was declared in them.
    #[tactic(auto, using(crate::proofs::Left::left_steps))]
    pub fn leave(&mut self, depth: u32)
        ensures { self.new ≡ record { names = self.old.names; entries = left depth self.old.entries } }
    {
        while let Some(entry) = self.top() {
            if entry.depth <= depth {
                return;
            }
            self.pop();
        }
    }
}
