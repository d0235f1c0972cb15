use crate::span::Span;

/// What each node of a tree bears.
#[derive(Clone, Copy, Debug, PartialEq, Eq)]
pub struct Mark {
    /// Its place among the nodes of the tree in the order in which they end, from 0.
    pub number: u32,
    /// The first token of its own production. Parentheses around the node are no part of it.
    pub span: Span,
    /// How many tokens it was made of, its own and its parts'.
    pub tokens: u32,
}
