ghost use Rattle.std.specs.Prelude.{◌≡◌};
ghost use Rattle.csyn.specs.Tree.{IsTree};

use crate::span::Span;
use crate::unit::Units;
use std::marker::Model;

/// The most tokens that a source is made of, the end token aside.
pub const MAX_TOKENS: u32 = 100_000;

/// The most levels that a tree has.
pub const MAX_LEVELS: u32 = 256;

/// A source as a tree. It was made of at most 100,000 tokens, the end token aside, and has at most 256 levels.
#[derive(Drop)]
pub struct Tree {
    units: Units,
    tokens: u32,
    nodes: u32,
    end: Span,
}

impl Model for Tree {
    ghost use Rattle.std.specs.Coded.{codes};
    ghost use Rattle.csyn.specs.Tree.{Contents, IsTree};
    ghost use Rattle.csyn.specs.contracts.unit.Units as declared_units;

    ghost Value = { Contents };

    ghost coded = { Prim.hlevel (codes, declared_units.the_row.coded) };

    ghost view = { λ a. record { units = a.units; tokens = a.tokens; nodes = a.nodes; end = a.end } };

    ghost invariant = { λ a. IsTree a.units a.tokens };
}

impl Tree {
    /// The tree of these units. They have `nodes` nodes, and the source ends at `end`.
    pub fn new(units: Units, tokens: u32, nodes: u32, end: Span) -> Tree
        requires { IsTree units tokens }
        ensures { result ≡ record { units = units; tokens = tokens; nodes = nodes; end = end } }
    {
        Tree {
            units,
            tokens,
            nodes,
            end,
        }
    }

    pub fn units(&self) -> &Units
        ensures value { result.now ≡ self.now.units }
        ensures tree { IsTree self.now.units self.now.tokens }
    {
        &self.units
    }

    /// How many tokens it was made of, the end token aside.
    pub fn tokens(&self) -> u32
        ensures value { result ≡ self.now.tokens }
        ensures tree { IsTree self.now.units self.now.tokens }
    {
        self.tokens
    }

    /// How many nodes it has.
    pub fn nodes(&self) -> u32
        ensures { result ≡ self.now.nodes }
    {
        self.nodes
    }

    /// Where the source ends.
    pub fn end(&self) -> Span
        ensures { result ≡ self.now.end }
    {
        self.end
    }
}
