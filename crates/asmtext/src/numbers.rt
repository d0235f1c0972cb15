//! The numbers that labels are printed with.

ghost use Rattle.std.specs.Prelude.{◌≡◌, ◌+◌, [], ℕ, List, IfOk, OnOk, fold};
ghost use Rattle.asmtext.specs.Held.{labels_held};
ghost use Rattle.asmtext.specs.Printing.{labels_aimed, labels_told, with_label, labels_of, label_number, number_aimed};
ghost use Rattle.branchfit.specs.Fits.{named};

use indexmap::IndexSet;
use isa::{Item, Target};
use prunum::Memory;
use std::alloc::Global;

/// The labels of a program, each once, by first appearance.
#[derive(Drop)]
pub struct Numbers {
    by_appearance: IndexSet<u32>,
}

/// A number, or the greatest in place of a larger one.
fn named(number: usize) -> u32
    ensures { result ≡ named number }
{
    number.min(u32::MAX as usize) as u32
}

/// The number behind an index.
fn counted(index: usize) -> u32
    ensures { result ≡ named (index + 1) }
{
    named(index.saturating_add(1))
}

impl Numbers {
    fn new(alloc: Global) -> Numbers
        ensures { labels_held result ≡ [] }
    {
        Numbers {
            by_appearance: IndexSet::new(alloc),
        }
    }

    /// The labels of these items.
    pub fn of(alloc: Global, items: &[Item]) -> Result<Numbers, Memory>
        ensures { IfOk result (λ numbers. labels_held numbers ≡ labels_of items.now) }
    {
        let mut numbers = Numbers::new(alloc);
        for item in items {
            numbers.add_item(item)?;
        }
        Ok(numbers)
    }

    /// The label's number, from 1.
    pub fn number(&self, label: u32) -> u32
        ensures { result ≡ label_number (labels_held self.now) label }
    {
        match self.by_appearance.get_index_of(&label) {
            Some(index) => counted(index),
            None => 0,
        }
    }

    /// The number of the label that a target is, and 0 where it is none.
    pub fn number_aimed(&self, target: &Target) -> u32
        ensures { result ≡ number_aimed (labels_held self.now) target.now }
    {
        match *target {
            Target::Label(label) => self.number(label),
            Target::Symbol { .. } => 0,
        }
    }

    fn add(&mut self, label: u32) -> Result<(), Memory>
        ensures { OnOk result (labels_held self.new ≡ with_label (labels_held self.old) label) }
    {
        self.by_appearance.insert(label)?;
        Ok(())
    }

    fn add_target(&mut self, target: &Target) -> Result<(), Memory>
        ensures { OnOk result (labels_held self.new ≡ fold with_label (labels_held self.old) (labels_aimed target.now)) }
    {
        match *target {
            Target::Label(label) => self.add(label),
            Target::Symbol { .. } => Ok(()),
        }
    }

    fn add_item(&mut self, item: &Item) -> Result<(), Memory>
        ensures { OnOk result (labels_held self.new ≡ fold with_label (labels_held self.old) (labels_told item.now)) }
    {
        match item {
            Item::Label(label) => self.add(*label),
            Item::Aimed { target, .. } => self.add_target(target),
            Item::Note { .. } | Item::Source(_) | Item::Whole(_) => Ok(()),
        }
    }
}
