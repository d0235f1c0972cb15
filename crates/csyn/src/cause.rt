ghost use Rattle.std.specs.Prelude.{◌≡◌, Some};
ghost use Rattle.csyn.specs.Cause.{cause_name};

use std::fmt;

/// The numbered rules that a source may break: L of tokens, P of the preprocessor, G of the grammar, S of names and types.
#[derive(Clone, Copy, Debug, PartialEq, Eq, PartialOrd, Ord, Hash)]
pub enum Cause {
    /// A byte begins no token.
    L1,
    /// A comment has no end.
    L2,
    /// A character constant or a string literal is malformed or has no end.
    L3,
    /// A number is malformed or above 4294967295.
    L4,
    /// A directive is none of `define`, `include`, `ifdef`, `ifndef`, `else` and `endif`.
    P1,
    /// A directive's line is malformed, or defines a function-like macro or a keyword.
    P2,
    /// A macro is defined again with other tokens.
    P3,
    /// A header is not `<stdint.h>`.
    P4,
    /// An `#else` or `#endif` has no opening, or a second `#else` stands.
    P5,
    /// An opening has no `#endif`.
    P6,
    /// The expansion has more than 100,000 tokens.
    P7,
    /// No unit of the grammar goes on so.
    G1,
    /// The same, at an excluded keyword.
    G2,
    /// A node stands at level 257.
    G3,
    /// A name, tag or member isn't declared before its use.
    S1,
    /// A name is declared twice in one scope, or a reserved name is declared.
    S2,
    /// There is no defined `main` of type void or int without parameters.
    S3,
    /// Operand types don't fit the operator, or a value doesn't convert.
    S4,
    /// A target isn't an lvalue, or is const, an array or a struct.
    S5,
    /// The number or the types of arguments are wrong.
    S6,
    /// A constant is wanted.
    S7,
    /// An array length or an object's type or size is out of range.
    S8,
    /// A volatile object and its location, or a plain one, don't fit.
    S9,
    /// The callee can reach the calling function.
    S10,
    /// A break stands outside a loop and a switch, or a continue outside a loop.
    S11,
    /// A return has a value in a void function, or none in another.
    S12,
    /// A break, continue or return leaves a region.
    S13,
    /// A delay isn't a constant 1 to 1,000,000.
    S14,
    /// A region's name is empty or repeated, or there is a 65th region.
    S15,
    /// An intrinsic's constant is out of range.
    S16,
    /// A cast is out of the profile.
    S17,
    /// A called function has no definition.
    S18,
    /// There are more than 8 parameters, or one is of struct or void type.
    S19,
    /// A struct is used as a value, or a local is static.
    S20,
    /// An initialiser has too many or wrongly nested parts.
    S21,
    /// The expression of a switch isn't of integer type.
    S22,
    /// A case isn't an integer constant, or its value is that of an earlier case of the same switch.
    S23,
    /// There is a second default in one switch.
    S24,
    /// There is a 33rd case in one switch.
    S25,
}

impl Cause {
    /// Its letter and number, as `L1`.
    pub fn name(self) -> &'static str
        ensures { result.now ≡ cause_name self }
    {
        match self {
            Cause::L1 => "L1",
            Cause::L2 => "L2",
            Cause::L3 => "L3",
            Cause::L4 => "L4",
            Cause::P1 => "P1",
            Cause::P2 => "P2",
            Cause::P3 => "P3",
            Cause::P4 => "P4",
            Cause::P5 => "P5",
            Cause::P6 => "P6",
            Cause::P7 => "P7",
            Cause::G1 => "G1",
            Cause::G2 => "G2",
            Cause::G3 => "G3",
            Cause::S1 => "S1",
            Cause::S2 => "S2",
            Cause::S3 => "S3",
            Cause::S4 => "S4",
            Cause::S5 => "S5",
            Cause::S6 => "S6",
            Cause::S7 => "S7",
            Cause::S8 => "S8",
            Cause::S9 => "S9",
            Cause::S10 => "S10",
            Cause::S11 => "S11",
            Cause::S12 => "S12",
            Cause::S13 => "S13",
            Cause::S14 => "S14",
            Cause::S15 => "S15",
            Cause::S16 => "S16",
            Cause::S17 => "S17",
            Cause::S18 => "S18",
            Cause::S19 => "S19",
            Cause::S20 => "S20",
            Cause::S21 => "S21",
            Cause::S22 => "S22",
            Cause::S23 => "S23",
            Cause::S24 => "S24",
            Cause::S25 => "S25",
        }
    }
}

impl fmt::Display for Cause {
    ghost output = { λ cause. Some (cause_name cause) };

    fn fmt<W: fmt::Write>(&self, f: &mut fmt::Formatter<W>) -> fmt::Result {
        f.write_str(self.name())
    }
}
