ghost use Rattle.std.specs.Prelude.{◌≡◌, ◌<◌, ◌⊎◌, ◌++◌, List, ℕ, length, Some};
ghost use Rattle.csyn.specs.declared.token.Token.{Token};
ghost use Rattle.csyn.specs.declared.span.Span.{Span};
ghost use Rattle.csyn.specs.declared.cause.Cause.{Cause};
ghost use Rattle.csyn.specs.declared.token.TokenKind.{TokenKind};
ghost use Rattle.clex.specs.Spelling.{Writes};
ghost use Rattle.clex.specs.Pieces.{IsPiece};
ghost use Rattle.clex.specs.Text.{Spells, IsFault};

/// A text is read in one way at most: it has one list of tokens, or one first fault, and not both.
pub fn one_reading()
    ensures tokens { (text : List ℕ) (ts us : List Token) → Spells ts text → Spells us text → ts ≡ us }
    ensures fault { (text : List ℕ) (s t : Span) (c d : Cause) → IsFault text s c → IsFault text t d → (s ≡ t) × (c ≡ d) }
    ensures either { (text : List ℕ) (ts : List Token) (s : Span) (c : Cause) → Spells ts text → IsFault text s c → ⊥ }
{}

/// Each text has a list of tokens or a first fault.
pub fn tokens_or_fault()
    ensures { (text : List ℕ)
        → ((tokens : List Token) × Spells tokens text) ⊎ ((span : Span) × (cause : Cause) × IsFault text span cause) }
{}

/// A token is the longest: no longer front of the text is the spelling of any token.
pub fn longest_match()
    ensures { (kind other : TokenKind) (bytes left longer rest : List ℕ) → IsPiece (Some kind) bytes left
        → longer ++ rest ≡ bytes ++ left → length bytes < length longer → Writes other longer → ⊥ }
{}
