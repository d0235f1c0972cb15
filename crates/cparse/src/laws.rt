ghost use Rattle.std.specs.Prelude.{List, ◌≡◌, ◌⊎◌, ℕ};
ghost use Rattle.cgrammar.specs.Text.{Written};
ghost use Rattle.creader.specs.Source.{EndsOnce};
ghost use Rattle.cparse.specs.Nodes.{IsFirstDeep};
ghost use Rattle.csyn.specs.declared.cause.Cause.{Cause};
ghost use Rattle.csyn.specs.declared.span.Span.{Span};
ghost use Rattle.csyn.specs.declared.token.Token.{Token};
ghost use Rattle.csyn.specs.Tree.{Contents};
ghost use Rattle.cparse.specs.Parsed.{Yields, Same, IsFault};

use creader::{one_text, text_or_fault};

/// The least place at which a node begins that stands too deep is one place.
pub fn one_first_deep()
    ensures { (written : Written) (a b : ℕ) → IsFirstDeep written a → IsFirstDeep written b → a ≡ b }
{}

/// A list of tokens has one tree at most, boxes aside, or one first fault, and not both.
pub fn one_reading()
    ensures tree { (tokens : List Token) (a b : Contents) → Yields a tokens → Yields b tokens → Same a b }
    ensures fault { (tokens : List Token) (s t : Span) (c d : Cause) → IsFault tokens s c → IsFault tokens t d → (s ≡ t) × (c ≡ d) }
    ensures either { (tokens : List Token) (tree : Contents) (s : Span) (c : Cause) → IsFault tokens s c → Yields tree tokens → ⊥ }
{
    one_text();
}

/// A list of tokens that ends with its end token has a tree or a first fault.
pub fn tree_or_fault()
    ensures { (tokens : List Token) → EndsOnce tokens
        → ((tree : Contents) × Yields tree tokens) ⊎ ((span : Span) × (cause : Cause) × IsFault tokens span cause) }
{
    text_or_fault();
}
