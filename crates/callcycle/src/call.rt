ghost use Rattle.std.specs.Prelude.{◌≡◌, ◌↔◌, IsTrue};
ghost use Rattle.callcycle.specs.Calls.{calls_of, IsUpTo};

use csyn::Span;

/// A call in a function.
#[derive(Clone, Copy, Debug, PartialEq, Eq)]
pub struct Call {
    /// The number of the function that is called.
    pub callee: u32,
    /// Where the call stands in the source.
    pub place: Span,
}

// Whether the first place is the second or stands before it.
pub fn is_up_to(first: Span, second: Span) -> bool
    ensures { IsTrue result ↔ IsUpTo first second }
{
    first.line < second.line || (first.line == second.line && first.column <= second.column)
}

/// The calls in a function; none where the number is no function's.
pub fn calls_of(functions: &[Vec<Call>], function: usize) -> &[Call]
    ensures { result.now ≡ calls_of functions.now function }
{
    match functions.get(function) {
        Some(calls) => calls.as_slice(),
        None => &[],
    }
}
