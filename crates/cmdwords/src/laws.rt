ghost use Rattle.std.specs.Prelude.{◌≡◌, List};
ghost use Rattle.cmdwords.specs.Form.{Form, HasNames, HasRanges, Text};
ghost use Rattle.cmdwords.specs.Asks.{Asked, Asks};

/// A list of words is read in one way at most.
pub fn one_reading()
    ensures { (form : Form) (words : List Text) (asked other : Asked) → HasNames form → HasRanges form
        → Asks form words asked → Asks form words other → asked ≡ other }
{}
