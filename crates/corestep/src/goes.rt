//! Where a core goes on behind a word, before the words' numbers and LOOP are looked at.

#[derive(Clone, Copy, Debug, PartialEq, Eq)]
pub enum Goes {
    /// To the next word.
    Behind,
    /// To the word with this number.
    Number(u16),
    /// To the branch's own target.
    Target,
    /// To the next word, and in LOOP's turns from then on.
    Around,
    /// It halts.
    Nowhere,
}
