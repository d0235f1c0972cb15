//! The helpers, and how many cycles each takes.

ghost use Rattle.std.specs.Prelude.{◌≡◌, ◌≤◌};
ghost use Rattle.helpers.specs.Numbers.{cycles_of};

/// What a helper computes of R14 and R15.
#[derive(Clone, Copy, Debug, PartialEq, Eq, Hash)]
pub enum Helper {
    /// The low 32 bits of the product.
    Mul,
    /// The quotient without sign.
    DivU,
    /// What the quotient without sign leaves over.
    RemU,
    /// The quotient of two's complement, cut towards 0.
    DivS,
    /// What the quotient of two's complement leaves over.
    RemS,
}

/// How many instructions its body does, and so how many cycles it takes: none of them accesses memory.
pub fn cycles(h: Helper) -> u32
    ensures value { result ≡ cycles_of h }
    ensures bound { result ≤ 400 }
{
    match h {
        Helper::Mul => 133,
        Helper::DivU => 197,
        Helper::RemU => 196,
        Helper::DivS => 206,
        Helper::RemS => 203,
    }
}
