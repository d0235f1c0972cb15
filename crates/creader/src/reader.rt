//! Reading tokens by the rules.
ghost use Rattle.std.specs.Prelude.{◌≡◌, ◌++◌, List, OnOk, IfOk};
ghost use Rattle.creader.specs.Reader as specs;

use crate::part::{Move, Part, Rule, Symbol};
use crate::table::rule;
use cgrammar::{Kind, Production, Terminal};
use std::alloc::{AllocError, Global};
use std::collections::LinkedList;

/// A production that is used in a source, and for which tokens. `first` and `end` are equal where it is of none.
#[derive(Clone, Copy, Debug, PartialEq, Eq)]
pub struct Entry {
    pub production: Production,
    /// The place of its first token in the tokens of the source, counted from 0.
    pub first: usize,
    /// The place behind its last token.
    pub end: usize,
}

/// What is still to do, and what has been made of the tokens so far.
#[derive(Drop)]
pub struct Reader {
    /// The next first.
    pub symbols: LinkedList<Symbol>,
    /// Where each value begins that has been made and is no part of another yet.
    pub firsts: Vec<usize>,
    /// The productions in the order in which they end.
    pub entries: Vec<Entry>,
    /// How many tokens have been taken.
    pub place: usize,
}

/// What a step did.
#[derive(Clone, Copy, Debug, PartialEq, Eq)]
pub enum Progress {
    /// It took the token.
    Taken,
    /// It left the token for the next step.
    Moved,
    /// The token can't stand here.
    Stuck,
}

impl Reader {
    ghost use Rattle.std.specs.Prelude.{◌≡◌, ◌+◌, ◌<◌, ◌^◌, ◌++◌, List, OnOk, IfOk};
    ghost use Rattle.creader.specs.Rules.{chosen};
    ghost use Rattle.creader.specs.Reader as specs;

    /// At the beginning of a source.
    pub fn new(alloc: Global) -> Result<Self, AllocError>
        ensures { IfOk result (λ reader. specs.held reader ≡ specs.at_start) }
    {
        let mut reader = Reader {
            symbols: LinkedList::new(alloc),
            firsts: Vec::new(alloc),
            entries: Vec::new(alloc),
            place: 0,
        };
        reader.push(&[
            Symbol::Read(Part::Units),
            Symbol::Take(Terminal::End),
            Symbol::Reduce(Production::Source),
        ])?;
        Ok(reader)
    }

    fn take(&mut self) -> Result<(), AllocError>
        requires { self.old.place < 2 ^ 32 }
        ensures { OnOk result (specs.held self.new ≡ specs.taken (specs.held self.old)) }
    {
        self.firsts.push(self.place)?;
        self.place += 1;
        Ok(())
    }

    fn reduce(&mut self, production: Production) -> Result<(), AllocError>
        ensures { OnOk result (specs.held self.new ≡ specs.reduced production (specs.held self.old)) }
    {
        let below = self.firsts.len().saturating_sub(production.parts());
        let first = self.firsts.get(below).copied().unwrap_or(self.place);
        self.firsts.truncate(below);
        self.firsts.push(first)?;
        self.entries.push(Entry {
            production,
            first,
            end: self.place,
        })?;
        Ok(())
    }

    /// Puts the symbols in front, the first of them first.
    fn push(&mut self, symbols: &[Symbol]) -> Result<(), AllocError>
        ensures { OnOk result (specs.held self.new ≡ specs.pushed symbols.now (specs.held self.old)) }
    {
        if let [symbol, others @ ..] = symbols {
            self.push(others)?;
            self.symbols.push_front(*symbol)?;
        }
        Ok(())
    }

    fn follow(&mut self, rule: Option<Rule>) -> Result<Progress, AllocError>
        requires { self.old.place < 2 ^ 32 }
        ensures { IfOk result (λ progress. specs.followed (chosen rule.entry) (specs.held self.old) ≡ (progress, specs.held self.new)) }
    {
        let Some((_, movement, symbols)) = rule else {
            return Ok(Progress::Stuck);
        };
        self.push(symbols)?;
        match movement {
            Move::Take => {
                self.take()?;
                Ok(Progress::Taken)
            }
            Move::Stay => Ok(Progress::Moved),
        }
    }

    /// One step before a token of this kind.
    fn step(&mut self, kind: Kind) -> Result<Progress, AllocError>
        requires { self.old.place < 2 ^ 32 }
        ensures { IfOk result (λ progress. specs.step kind (specs.held self.old) ≡ (progress, specs.held self.new)) }
    {
        match self.symbols.pop_front() {
            None => Ok(Progress::Stuck),
            Some(Symbol::Reduce(production)) => {
                self.reduce(production)?;
                Ok(Progress::Moved)
            }
            Some(Symbol::Take(terminal)) => {
                if !terminal.accepts(kind) {
                    return Ok(Progress::Stuck);
                }
                self.take()?;
                Ok(Progress::Taken)
            }
            Some(Symbol::Read(part)) => self.follow(rule(part, kind)),
        }
    }

    /// Takes a token of this kind, if it can stand here.
    pub fn feed(&mut self, kind: Kind) -> Result<bool, AllocError>
        requires { self.old.place < 2 ^ 32 }
        ensures { IfOk result (λ taken. specs.Feeds kind taken (specs.held self.old) (specs.held self.new)) }
    {
        'steps: loop {
            match self.step(kind)? {
                Progress::Moved => {}
                Progress::Taken => return Ok(true),
                Progress::Stuck => return Ok(false),
            }
        }
    }

    /// Does what is left to do without a token, and says whether that was all.
    pub fn finish(&mut self) -> Result<bool, AllocError>
        ensures { IfOk result (λ ended. specs.finished (specs.held self.old).symbols (specs.held self.old) ≡ (ended, specs.held self.new)) }
    {
        while let Some(symbol) = self.symbols.pop_front() {
            let Symbol::Reduce(production) = symbol else {
                return Ok(false);
            };
            self.reduce(production)?;
        }
        Ok(true)
    }
}
