/// A name of a source, by its number among the source's names.
#[derive(Clone, Copy, Debug, PartialEq, Eq, PartialOrd, Ord, Hash)]
pub struct NameId(pub u32);

/// What a name stands for, by its number among those of its kind.
#[derive(Clone, Copy, Debug, PartialEq, Eq)]
pub enum Named {
    /// A declared file object.
    Object(u32),
    /// A parameter or local of the function at hand.
    Local(u32),
    /// A declared function.
    Function(u32),
}

/// A declaration of a name, and how many blocks are open round it.
#[derive(Clone, Copy, Debug, PartialEq, Eq)]
pub struct Entry {
    pub name: NameId,
    pub depth: u32,
    pub named: Named,
}
