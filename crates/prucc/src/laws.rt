ghost use Rattle.std.specs.Prelude.{◌≡◌, ◌⊎◌, ℕ, List};
ghost use Rattle.csyn.specs.declared.span.Span.{Span};
ghost use Rattle.csyn.specs.declared.cause.Cause.{Cause};
ghost use Rattle.prucc.specs.Source.{Writes, IsSourceFault, IsUnbuilt};

/// Each source writes one list of numbers, or breaks a first rule at one place, or isn't built from one place on; and only one of
/// the three.
pub fn one_verdict()
    ensures some { (source : List ℕ) → ((ks : List ℕ) × Writes source ks)
        ⊎ (((span : Span) × (cause : Cause) × IsSourceFault source span cause) ⊎ ((span : Span) × IsUnbuilt source span)) }

    ensures writes { (source ks ls : List ℕ) → Writes source ks → Writes source ls → ks ≡ ls }
    ensures fault { (source : List ℕ) (s t : Span) (c d : Cause) → IsSourceFault source s c → IsSourceFault source t d
        → (s ≡ t) × (c ≡ d) }
    ensures place { (source : List ℕ) (s t : Span) → IsUnbuilt source s → IsUnbuilt source t → s ≡ t }

    ensures writes_or_fault { (source ks : List ℕ) (s : Span) (c : Cause) → Writes source ks → IsSourceFault source s c → ⊥ }
    ensures writes_or_place { (source ks : List ℕ) (s : Span) → Writes source ks → IsUnbuilt source s → ⊥ }
    ensures fault_or_place { (source : List ℕ) (s t : Span) (c : Cause) → IsSourceFault source s c → IsUnbuilt source t → ⊥ }
{
    clex::tokens_or_fault();
    clex::one_reading();
    cpre::expansion_or_fault();
    cpre::expansion_ends();
    cpre::one_reading();
    cparse::tree_or_fault();
    cparse::one_reading();
}
