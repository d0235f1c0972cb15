ghost use Rattle.std.specs.Prelude.{◌≡◌, ◌⊎◌, List};
ghost use Rattle.csyn.specs.declared.cause.Cause.{Cause};
ghost use Rattle.csyn.specs.declared.span.Span.{Span};
ghost use Rattle.csyn.specs.declared.token.Token.{Token};
ghost use Rattle.cpre.specs.Expansion.{Expands, IsFault};
ghost use Rattle.cpre.specs.Line.{EndsOnce};

/// A source is read in one way at most: it has one expansion, or one first fault, and not both.
pub fn one_reading()
    ensures tokens { (tokens out other : List Token) → Expands tokens out → Expands tokens other → out ≡ other }
    ensures fault { (tokens : List Token) (s t : Span) (c d : Cause) → IsFault tokens s c → IsFault tokens t d → (s ≡ t) × (c ≡ d) }
    ensures either { (tokens out : List Token) (s : Span) (c : Cause) → Expands tokens out → IsFault tokens s c → ⊥ }
{}

/// Each source has an expansion or a first fault.
pub fn expansion_or_fault()
    ensures { (tokens : List Token)
        → ((out : List Token) × Expands tokens out) ⊎ ((span : Span) × (cause : Cause) × IsFault tokens span cause) }
{}

/// The expansion of a source ends with the end token and has no other, where that holds of the source.
pub fn expansion_ends()
    ensures { (tokens out : List Token) → Expands tokens out → EndsOnce tokens → EndsOnce out }
{}
