/// What stands at a place of a form.
#[derive(Clone, Copy, Debug, PartialEq, Eq)]
pub enum Place {
    /// The name of a file. The empty word is one too.
    File,
    /// A number in decimal, without sign or leading zeros.
    Number { least: u32, most: u32 },
}
