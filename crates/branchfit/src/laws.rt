//! What holds of fitted words, whoever makes them.

ghost use Rattle.std.specs.Prelude.{◌≡◌, List, ℕ, Option};
ghost use Rattle.isa.specs.declared.program.Item.{Item};
ghost use Rattle.isa.specs.Fitted.{Fitted};
ghost use Rattle.branchfit.specs.Fits.{Fits, HasLength};
ghost use Rattle.branchfit.specs.Loops.{IsLongLoop};

/// A program has one set of far branches, so one list of words, one length and one first long loop.
pub fn fit_laws()
    ensures words { (items : List Item) (these those : Fitted) → Fits items these → Fits items those → these ≡ those }
    ensures length { (items : List Item) (n m : ℕ) → HasLength items n → HasLength items m → n ≡ m }
    ensures loops { (items : List Item) (this that : Option ℕ) → IsLongLoop items this → IsLongLoop items that → this ≡ that }
{}
