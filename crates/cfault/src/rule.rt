//! The order of rules at one place.

ghost use Rattle.std.specs.Prelude.{◌≡◌};
ghost use Rattle.cfault.specs.Fault.{rule_number};

use csyn::Cause;

/// The number of a rule of names and types. The other rules, which no tree breaks, have 0.
pub fn rule_number(cause: Cause) -> u8
    ensures { result ≡ rule_number cause }
{
    match cause {
        Cause::S1 => 1,
        Cause::S2 => 2,
        Cause::S3 => 3,
        Cause::S4 => 4,
        Cause::S5 => 5,
        Cause::S6 => 6,
        Cause::S7 => 7,
        Cause::S8 => 8,
        Cause::S9 => 9,
        Cause::S10 => 10,
        Cause::S11 => 11,
        Cause::S12 => 12,
        Cause::S13 => 13,
        Cause::S14 => 14,
        Cause::S15 => 15,
        Cause::S16 => 16,
        Cause::S17 => 17,
        Cause::S18 => 18,
        Cause::S19 => 19,
        Cause::S20 => 20,
        Cause::S21 => 21,
        Cause::S22 => 22,
        Cause::S23 => 23,
        Cause::S24 => 24,
        Cause::S25 => 25,
        _ => 0,
    }
}
