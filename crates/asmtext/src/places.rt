//! Where labels stand.

ghost use Rattle.std.specs.Prelude.{◌≡◌, ℕ, List, Some, None, IfOk, OnOk, if◌then◌else◌};
ghost use Rattle.std.specs.Str.{bytes_eq};
ghost use Rattle.asmtext.specs.Held.{told, all_told, held, or_else};
ghost use Rattle.asmtext.specs.Labels.{stands_on, first_place};

use asmline::Line;
use indexmap::IndexMap;
use prunum::Memory;
use std::alloc::Global;

/// The first line, from 0, on which each label stands.
#[derive(Drop)]
pub struct Places<'a> {
    by_name: IndexMap<&'a [u8], usize>,
}

impl<'a> Places<'a> {
    fn new(alloc: Global) -> Places<'a>
        ensures { (name : List ℕ) → held result name ≡ None }
    {
        Places {
            by_name: IndexMap::new(alloc),
        }
    }

    /// The places of these lines' labels.
    pub fn of(alloc: Global, lines: &[Option<Line<'a>>]) -> Result<Places<'a>, Memory>
        ensures { IfOk result (λ places. (name : List ℕ) → held places name ≡ first_place (all_told lines.now) name) }
    {
        let mut places = Places::new(alloc);
        let mut number = 0;
        for line in lines {
            places.put_line(number, line)?;
            number += 1;
        }
        Ok(places)
    }

    /// The first line on which the label stands.
    pub fn get(&self, name: &[u8]) -> Option<usize>
        ensures { result ≡ held self.now name.now }
    {
        self.by_name.get(name).copied()
    }

    fn put_new(&mut self, name: &'a [u8], number: usize) -> Result<(), Memory>
        requires { held self.old name.now ≡ None }
        ensures { OnOk result ((other : List ℕ)
            → held self.new other ≡ or_else (held self.old other) (if bytes_eq name.entry.now other then Some number else None)) }
    {
        self.by_name.insert(name, number)?;
        Ok(())
    }

    /// Puts a label on a line, where it stands on none yet.
    fn put(&mut self, name: &'a [u8], number: usize) -> Result<(), Memory>
        ensures { OnOk result ((other : List ℕ)
            → held self.new other ≡ or_else (held self.old other) (if bytes_eq name.entry.now other then Some number else None)) }
    {
        match self.get(name) {
            Some(_) => Ok(()),
            None => self.put_new(name, number),
        }
    }

    fn put_line(&mut self, number: usize, line: &Option<Line<'a>>) -> Result<(), Memory>
        ensures { OnOk result ((other : List ℕ)
            → held self.new other ≡ or_else (held self.old other) (if stands_on other (told line.now) then Some number else None)) }
    {
        let Some(line) = line else {
            return Ok(());
        };
        match line.label {
            Some(name) => self.put(name, number),
            None => Ok(()),
        }
    }
}
