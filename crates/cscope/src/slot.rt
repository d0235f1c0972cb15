use crate::entry::Entry;

/// A declaration, and the place of the one that it hides.
#[derive(Clone, Copy, Debug)]
pub struct Slot {
    pub entry: Entry,
    pub hidden: Option<usize>,
}
