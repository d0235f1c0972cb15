ghost use Rattle.std.specs.Prelude.{◌≤◌};

use prunum::Width;

/// What a function takes and gives: the first `count` of these widths, and its value's, if it has one.
#[derive(Clone, Copy)]
pub struct Signature {
    pub params: [Width; 8],
    pub count: u8,
    pub result: Option<Width>,
    pub ghost few: { count ≤ 8 },
}
