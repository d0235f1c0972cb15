ghost use Rattle.std.specs.Prelude.{◌≡◌, ◌+◌, ◌<◌, ◌≤◌, ◌^◌, length};
ghost use Rattle.clex.specs.Span as spans;

use csyn::Span;

/// The place behind bytes that begin at a place.
pub fn after_bytes(span: Span, bytes: &[u8]) -> Span
    requires line { span.line + length bytes.now < 2 ^ 32 }
    requires column { span.column + length bytes.now < 2 ^ 32 }
    ensures place { result ≡ spans.after_bytes span bytes.now }
    ensures line { result.line ≤ span.line + length bytes.now }
    ensures column { result.column ≤ span.column + length bytes.now }
{
    let Span {
        mut line,
        mut column,
    } = span;
    let mut rest = bytes;
    while let [b, behind @ ..] = rest {
        if *b == b'\n' {
            line += 1;
            column = 1;
        } else {
            column += 1;
        }
        rest = behind;
    }
    Span { line, column }
}
