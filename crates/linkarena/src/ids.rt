ghost use Rattle.std.specs.Prelude.{ℕ};

use std::marker::Model;

/// A list of an arena.
#[derive(Clone, Copy, Debug, PartialEq, Eq)]
pub struct ListId {
    pub(crate) index: usize,
}

impl Model for ListId {
    ghost Value = { ℕ };

    ghost view = { λ a. a.index };

    ghost inverse = { λ n. record { index = n } };
}

/// A node of an arena. Once the node is taken out, the arena may give its id to another.
#[derive(Clone, Copy, Debug, PartialEq, Eq)]
pub struct NodeId {
    pub(crate) key: usize,
}

impl Model for NodeId {
    ghost Value = { ℕ };

    ghost view = { λ a. a.key };

    ghost inverse = { λ n. record { key = n } };
}
