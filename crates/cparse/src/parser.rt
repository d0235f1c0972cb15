//! From the tokens of a source to its tree.
ghost use Rattle.std.specs.Prelude.{◌≡◌, ◌<◌, ◌≤◌, length, slice_get, IfOk, IfErr, Some};
ghost use Rattle.csyn.specs.declared.cause.Cause.{Cause};
ghost use Rattle.csyn.specs.declared.span.Span.{Span};
ghost use Rattle.csyn.specs.declared.unit.Units.{Units as AllUnits};
ghost use Rattle.csyn.specs.Tree.{Contents};
ghost use Rattle.creader.specs.Source.{EndsOnce};
ghost use Rattle.cparse.specs.Parsed as parsed;

use crate::build::build;
use crate::levels::first_deep;
use cgrammar::Kind;
use cparts::Value;
use creader::{ReadFault, one_text, read_entries};
use csyn::{Cause, SourceFault, Token, Tree, Units};
use std::alloc::Global;

/// Why a token of this kind can't stand where it stands.
fn kind_cause(kind: Kind) -> Cause
    ensures { result ≡ parsed.kind_cause kind }
{
    match kind {
        Kind::Keyword(keyword) if keyword.is_excluded() => Cause::G2,
        _ => Cause::G1,
    }
}

fn units_of(value: Option<Value>) -> Units
    ensures { (units : AllUnits) → value ≡ Some (Value.Units units) → result ≡ units }
{
    match value {
        Some(Value::Units(units)) => units,
        _ => Units::End,
    }
}

/// The tree of a source, or the first rule of G1 to G3 that it breaks, and where. The tokens are at most 100,000 and the end token
/// behind them.
pub fn parse(alloc: Global, tokens: &[Token]) -> Result<Tree, SourceFault>
    requires few { length tokens.now ≤ 100001 }
    requires ends { EndsOnce tokens.now }

    // What is answered is the source's tree, and a source's tree is answered, unless memory is wanting.
    ensures tree { IfOk result (λ tree. parsed.Yields tree tokens.now) }
    ensures read { (tree : Contents) → parsed.Yields tree tokens.now → parsed.AnswersTree tree result }

    // A fault that is named is the first, and the first is named, unless memory is wanting.
    ensures broken { IfErr result (parsed.IsFaultOf tokens.now) }
    ensures named { (span : Span) (cause : Cause) → parsed.IsFault tokens.now span cause → parsed.AnswersFault span cause result }
{
    // The law that the tokens are spelled by one tree of productions at most.
    one_text();
    let entries = match read_entries(alloc, tokens) {
        Ok(entries) => entries,
        Err(ReadFault::Token(place)) => {
            let token = &tokens[place];
            let cause = kind_cause(Kind::of(token));
            return Err(SourceFault::Broken {
                span: token.span,
                cause,
            });
        }
        Err(ReadFault::Memory) => return Err(SourceFault::Memory),
    };
    if let Some(place) = first_deep(alloc, &entries)? {
        return Err(SourceFault::Broken {
            span: tokens[place].span,
            cause: Cause::G3,
        });
    }
    let (value, nodes) = build(alloc, tokens, &entries)?;
    let last = tokens.len() - 1;
    let end = tokens[last].span;
    Ok(Tree::new(units_of(value), last as u32, nodes, end))
}
