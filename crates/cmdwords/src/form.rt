use crate::place::Place;

/// The form of a mode's words: its name, its places in their order, and the names of its options, of which each may be
/// given once, as `--name VALUE` or `--name=VALUE`.
#[derive(Clone, Copy, Debug)]
pub struct Form<'a> {
    pub mode: &'a str,
    pub places: &'a [Place],
    pub options: &'a [&'a str],
}
