//! The numbers of labels.

ghost use Rattle.std.specs.Prelude.{◌≡◌, ◌≤◌, ◌+◌, ◌*◌, ◌<◌, ◌^◌, ◌++◌, [], ℕ, List, IfOk, OnOk, length, fold};
ghost use Rattle.std.specs.List.{flat_map};
ghost use Rattle.asmtext.specs.Held.{told, all_told, names_held};
ghost use Rattle.asmtext.specs.Labels.{with_name, name_aimed, names_told, names_of, number_in};
ghost use Rattle.std.specs.Prelude.{option_to_list};
ghost use Rattle.asmline.specs.Said.{said_by};

use asmline::{Line, Statement};
use indexmap::IndexSet;
use prunum::Memory;
use std::alloc::Global;

/// The names of the labels, each once, by first appearance.
#[derive(Drop)]
pub struct Names<'a> {
    by_appearance: IndexSet<&'a [u8]>,
}

impl<'a> Names<'a> {
    fn new(alloc: Global) -> Names<'a>
        ensures { names_held result ≡ [] }
    {
        Names {
            by_appearance: IndexSet::new(alloc),
        }
    }

    /// The names that these lines tell.
    pub fn of(alloc: Global, lines: &[Option<Line<'a>>]) -> Result<Names<'a>, Memory>
        ensures { IfOk result (λ names. names_held names ≡ names_of (all_told lines.now)) }
    {
        let mut names = Names::new(alloc);
        for line in lines {
            names.add_line(line)?;
        }
        Ok(names)
    }

    /// The label's number, from 1, or the greatest in place of a larger one. It is 0 where there is no such label.
    pub fn number(&self, name: &[u8]) -> u32
        requires { length (names_held self.now) < 2 ^ 32 }
        ensures { result ≡ number_in (names_held self.now) name.now }
    {
        match self.by_appearance.get_index_of(name) {
            Some(index) => index as u32 + 1,
            None => 0,
        }
    }

    fn add(&mut self, name: &'a [u8]) -> Result<(), Memory>
        ensures { OnOk result (names_held self.new ≡ with_name (names_held self.old) name.entry.now) }
    {
        self.by_appearance.insert(name)?;
        Ok(())
    }

    fn add_label(&mut self, line: &Line<'a>) -> Result<(), Memory>
        ensures { OnOk result (names_held self.new ≡ fold with_name (names_held self.old) (option_to_list (said_by line.now).label)) }
    {
        match line.label {
            Some(name) => self.add(name),
            None => Ok(()),
        }
    }

    fn add_aimed(&mut self, line: &Line<'a>) -> Result<(), Memory>
        ensures { OnOk result (names_held self.new ≡ fold with_name (names_held self.old) (name_aimed (said_by line.now).saying)) }
    {
        match line.statement {
            Statement::Aimed { name, .. } => self.add(name),
            Statement::Nothing | Statement::Note { .. } | Statement::Whole(_) => Ok(()),
        }
    }

    fn add_line(&mut self, line: &Option<Line<'a>>) -> Result<(), Memory>
        ensures { OnOk result (names_held self.new ≡ fold with_name (names_held self.old) (names_told (told line.now))) }
    {
        let Some(line) = line else {
            return Ok(());
        };
        self.add_label(line)?;
        self.add_aimed(line)
    }
}
