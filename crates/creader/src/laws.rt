ghost use Rattle.std.specs.Prelude.{◌≡◌, ◌-◌, ◌<◌, ◌≤◌, ◌⊎◌, ℕ, List, [], ◌∷◌, length, None};
ghost use Rattle.csyn.specs.declared.token.Token.{Token};
ghost use Rattle.creader.specs.declared.part.Symbol.{Symbol};
ghost use Rattle.cgrammar.specs.Text.{Written, IsText, IsFirstFault};
ghost use Rattle.creader.specs.Machine.{State, at, start, step, Reaches, count, most_steps};
ghost use Rattle.creader.specs.Source.{EndsOnce};

/// What is read to its end is a source, of which one value is left.
pub fn accepted_is_text()
    ensures { (tokens : List Token) (values : List Written) → Reaches (start tokens) (at [] values [])
        → (written : Written) × (values ≡ written ∷ []) × IsText written tokens }
{}

/// Each source is read to its end.
pub fn text_is_accepted()
    ensures { (tokens : List Token) (written : Written) → IsText written tokens → Reaches (start tokens) (at [] (written ∷ []) []) }
{}

/// Where reading stops, it is at the end of a source, or the next token is the first that can't stand.
pub fn first_fault()
    ensures { (tokens rest : List Token) (symbols : List Symbol) (values : List Written) → EndsOnce tokens
        → Reaches (start tokens) (at symbols values rest) → step symbols values rest ≡ None
        → ((symbols ≡ []) × (rest ≡ [])) ⊎ (IsFirstFault tokens (length tokens - length rest) × (0 < length rest)) }
{}

/// A source is the text of one tree only.
pub fn one_text()
    ensures { (tokens : List Token) (a b : Written) → IsText a tokens → IsText b tokens → a ≡ b }
{}

/// Each list of tokens that ends with its end token is a source, or has a first token that can't stand.
pub fn text_or_fault()
    ensures { (tokens : List Token) → EndsOnce tokens
        → ((written : Written) × IsText written tokens) ⊎ ((place : ℕ) × IsFirstFault tokens place) }
{}

/// Reading takes a number of steps that is linear in the number of tokens, however far it comes.
pub fn few_steps()
    ensures { (tokens : List Token) (a : State) (reading : Reaches (start tokens) a) → count reading ≤ most_steps (length tokens) }
{}
