//! Assembly programs with labels and symbols, and the words that are made of them.

ghost use Rattle.std.specs.Prelude.{◌≡◌, ◌<◌, IfSome, Some};
ghost use Rattle.isa.specs.declared.program.Relocation.{Relocation};
ghost use Rattle.isa.specs.Fitted.{Fitted};
ghost use Rattle.isa.specs.Relocations.{relocation_number};

use crate::inst::Inst;
use crate::note::{Note, NoteKind};
use std::marker::Model;

/// What a symbol's place is put into.
#[derive(Clone, Copy, Debug, PartialEq, Eq, Hash)]
pub enum Relocation {
    /// 1: four bytes of data
    Address,
    /// 2: the low 16 bits, in an LDI
    Low,
    /// 3: the high 16 bits, in an LDI
    High,
    /// 4: the word's number, in a JMP or JAL to a number
    Word,
}

impl Relocation {
    /// Its number in files, 1 to 4.
    pub fn number(self) -> u8
        ensures value { result ≡ relocation_number self }
        ensures bound { result < 5 }
    {
        match self {
            Relocation::Address => 1,
            Relocation::Low => 2,
            Relocation::High => 3,
            Relocation::Word => 4,
        }
    }

    /// The relocation with this number, and None where there is none.
    pub fn from_number(n: u8) -> Option<Relocation>
        ensures found { IfSome result (λ k. relocation_number k ≡ n) }
        ensures only { (k : Relocation) → relocation_number k ≡ n → result ≡ Some k }
    {
        match n {
            1 => Some(Relocation::Address),
            2 => Some(Relocation::Low),
            3 => Some(Relocation::High),
            4 => Some(Relocation::Word),
            _ => None,
        }
    }
}

/// Where an instruction goes, or what it takes a part of.
#[derive(Clone, Copy, Debug, PartialEq, Eq)]
pub enum Target {
    Label(u32),
    Symbol { symbol: u32, kind: Relocation },
}

/// A line of an assembly program.
#[derive(Clone, Copy, Debug, PartialEq, Eq)]
pub enum Item {
    /// The place of the next word.
    Label(u32),
    /// A note on the next word.
    Note { kind: NoteKind, value: u32 },
    /// The next word's line in the source.
    Source(u32),
    /// An instruction without a target, or with a field as its target.
    Whole(Inst),
    /// An instruction with a target. The number in `inst` that it stands for is the least that its type has.
    Aimed { inst: Inst, target: Target },
}

/// An assembly program.
#[derive(Debug, Drop)]
pub struct AsmProgram {
    items: Vec<Item>,
}

impl Model for AsmProgram {
    ghost use Rattle.std.specs.Prelude.{List};
    ghost use Rattle.isa.specs.declared.program.Item.{Item};

    ghost Value = { List Item };

    ghost view = { λ a. a.items.items };
}

impl AsmProgram {
    /// The program of these items.
    pub fn new(items: Vec<Item>) -> AsmProgram
        ensures { result ≡ items.items }
    {
        AsmProgram { items }
    }

    /// Its items.
    pub fn items(&self) -> &[Item]
        ensures { result.now ≡ self.now }
    {
        self.items.as_slice()
    }

    /// Its items, out of it.
    pub fn into_items(self) -> Vec<Item>
        ensures { result.items ≡ self }
    {
        self.items
    }
}

/// A place that a symbol is put into: a word, or a byte of data.
#[derive(Clone, Copy, Debug, PartialEq, Eq)]
pub struct Ref {
    pub word: u32,
    pub symbol: u32,
    pub kind: Relocation,
}

/// The line in the source that a word was made of.
#[derive(Clone, Copy, Debug, PartialEq, Eq)]
pub struct Line {
    pub word: u16,
    pub line: u32,
}

/// What is made of an assembly program: words, notes, the places of symbols and the lines of words.
#[derive(Debug, Drop)]
pub struct Words {
    words: Vec<u32>,
    notes: Vec<Note>,
    refs: Vec<Ref>,
    lines: Vec<Line>,
}

impl Model for Words {
    ghost use Rattle.isa.specs.Fitted.{Fitted};

    ghost Value = { Fitted };

    ghost view = { λ a. record { words = a.words.items; notes = a.notes.items; refs = a.refs.items; lines = a.lines.items } };
}

impl Words {
    /// The words with these notes, places of symbols and lines.
    pub fn new(words: Vec<u32>, notes: Vec<Note>, refs: Vec<Ref>, lines: Vec<Line>) -> Words
        ensures { result ≡ record { words = words.items; notes = notes.items; refs = refs.items; lines = lines.items } }
    {
        Words {
            words,
            notes,
            refs,
            lines,
        }
    }

    /// The words, from word 0 on.
    pub fn words(&self) -> &[u32]
        ensures { result.now ≡ self.now.words }
    {
        self.words.as_slice()
    }

    /// The notes on them.
    pub fn notes(&self) -> &[Note]
        ensures { result.now ≡ self.now.notes }
    {
        self.notes.as_slice()
    }

    /// The places of symbols.
    pub fn refs(&self) -> &[Ref]
        ensures { result.now ≡ self.now.refs }
    {
        self.refs.as_slice()
    }

    /// The lines in the source that they were made of.
    pub fn lines(&self) -> &[Line]
        ensures { result.now ≡ self.now.lines }
    {
        self.lines.as_slice()
    }

    /// Its lists, out of it.
    pub fn into_parts(self) -> (Vec<u32>, Vec<Note>, Vec<Ref>, Vec<Line>)
        ensures words { result.0.items ≡ self.words }
        ensures notes { result.1.items ≡ self.notes }
        ensures refs { result.2.items ≡ self.refs }
        ensures lines { result.3.items ≡ self.lines }
    {
        (self.words, self.notes, self.refs, self.lines)
    }
}
