/// Why a run stopped before it was done.
#[derive(Clone, Copy, Debug, PartialEq, Eq)]
pub enum Stop<U> {
    /// The next value is to be read, and all that were given are used up.
    Dry,
    /// The budget is used up, and the run would go on.
    More,
    /// The program ended.
    Ended,
    /// The next step is one that its level leaves undefined: a step of C, an operation that is wild.
    Undefined(U),
    /// No step is there, which no valid program comes to.
    Stuck,
}
