//! Whole sources.
ghost use Rattle.std.specs.Prelude.{◌≡◌, ◌+◌, ◌≤◌, ◌<◌, ◌^◌, ◌∷◌, List, length, IfOk, IfErr, Ok, Err};
ghost use Rattle.csyn.specs.declared.cause.Cause.{Cause};
ghost use Rattle.csyn.specs.declared.span.Span.{Span};
ghost use Rattle.csyn.specs.declared.token.Token.{Token};
ghost use Rattle.cpre.specs.Closing as closing;
ghost use Rattle.cpre.specs.Expansion as expansion;
ghost use Rattle.cpre.specs.Given.{Answers};
ghost use Rattle.cpre.specs.Line.{EndsOnce};

use crate::directive::{Directive, directive_of};
use crate::line::{begins, is_end, line_length};
use crate::state::State;
use csyn::{MAX_TOKENS, SourceFault, Token};
use std::alloc::Global;

/// What is known of the openings from a token on.
#[derive(Clone, Copy)]
struct Closing {
    /// How many tokens there are from the first opening on that has no `#endif`; 0 where each has one.
    unclosed: usize,
    /// How many `#endif`s close openings that stand before.
    closers: usize,
}

impl Closing {
    /// With a directive before, from whose `#` on there are so many tokens.
    fn with_directive(self, directive: Option<Directive>, count: usize) -> Closing
        requires { self.closers < 2 ^ 63 }
        ensures { result ≡ closing.with_directive directive count self }
    {
        match directive {
            Some(Directive::Ifdef | Directive::Ifndef) => {
                if self.closers == 0 {
                    return Closing {
                        unclosed: count,
                        closers: 0,
                    };
                }
                Closing {
                    unclosed: self.unclosed,
                    closers: self.closers - 1,
                }
            }
            Some(Directive::Endif) => Closing {
                unclosed: self.unclosed,
                closers: self.closers + 1,
            },
            _ => self,
        }
    }

    /// With a token before the others.
    fn before(self, token: &Token, behind: &[Token]) -> Closing
        requires known { closing.Counts self behind.now }
        requires short { length behind.now < 2 ^ 63 }
        ensures { closing.Counts result (token.now ∷ behind.now) }
    {
        if is_end(&token.kind) {
            return Closing {
                unclosed: self.unclosed,
                closers: 0,
            };
        }
        if !begins(token) {
            return self;
        }
        let (line, _) = behind.split_at(line_length(behind));
        self.with_directive(directive_of(line), behind.len() + 1)
    }
}

/// How many tokens there are from the first opening on that has no `#endif`; 0 where each has one.
fn first_unclosed(tokens: &[Token]) -> usize
    ensures { result ≡ closing.unclosed tokens.now }
{
    let mut known = Closing {
        unclosed: 0,
        closers: 0,
    };
    let mut place = tokens.len();
    while place > 0 {
        place -= 1;
        let (_, rest) = tokens.split_at(place);
        let [token, behind @ ..] = rest else {
            return known.unclosed;
        };
        known = known.before(token, behind);
    }
    known.unclosed
}

fn read(alloc: Global, tokens: &[Token]) -> Result<Vec<Token>, SourceFault>
    ensures exact { Answers (λ out. out.items) result (expansion.expansion tokens.now) }
    ensures few { IfOk result (λ out. length out.items ≤ MAX_TOKENS + 1) }
{
    let unclosed = first_unclosed(tokens);
    let mut state = State::new(alloc);
    let mut rest = tokens;
    while let [token, behind @ ..] = rest {
        if is_end(&token.kind) {
            return Ok(state.finish(alloc, token)?);
        }
        if begins(token) {
            let (line, left) = behind.split_at(line_length(behind));
            if let Err(fault) = state.directive(line, rest.len() != unclosed) {
                return Err(fault.at(token.span));
            }
            rest = left;
        } else {
            if let Err(fault) = state.token(alloc, token) {
                return Err(fault.at(token.span));
            }
            rest = behind;
        }
    }
    Ok(state.into_made())
}

/// The tokens that a source expands to; or the first rule of P1 to P7 that it breaks, and where.
pub fn expand(alloc: Global, tokens: &[Token]) -> Result<Vec<Token>, SourceFault>
    // What is answered is the expansion, and the expansion is answered, unless memory is wanting.
    ensures expanded { IfOk result (λ out. expansion.Expands tokens.now out.items) }
    ensures read { (out : List Token) → expansion.Expands tokens.now out → Answers (λ out. out.items) result (Ok out) }

    // A fault that is named is the first, and the first is named, unless memory is wanting.
    ensures broken { IfErr result (expansion.IsFaultOf tokens.now) }
    ensures named { (span : Span) (cause : Cause) → expansion.IsFault tokens.now span cause
        → Answers (λ out. out.items) result (Err (span, cause)) }

    // It ends with the end token, as the source does, and has no more tokens than may be parsed.
    ensures ends { EndsOnce tokens.now → IfOk result (λ out. EndsOnce out.items) }
    ensures few { IfOk result (λ out. length out.items ≤ MAX_TOKENS + 1) }
{
    read(alloc, tokens)
}
