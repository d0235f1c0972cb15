//! What converts to what (C99 6.3).

ghost use Rattle.std.specs.Prelude.{◌≡◌};
ghost use Rattle.ctypes.specs.Convert.{promoted, common, bool_same, kind_same, const_fits, qualifiers_fit, step_fits, base_fits};
ghost use Rattle.ctypes.specs.Convert.{steps_same, type_fits, targets_fit, null_of, implied_between, cast_between, implied, cast};

use crate::base::{Base, BaseKind};
use crate::ctype::CType;
use crate::step::{Qualifiers, Step};
use cprogram::{Conversion, Integer, PointerKind, Scalar};
use csyn::Sign;
use prunum::Width;

/// What is asked of `const` where two types are compared.
#[derive(Clone, Copy, Debug, PartialEq, Eq)]
pub enum ConstRule {
    /// Both have it or none.
    Kept,
    /// The second may have it besides.
    Added,
    /// Nothing.
    Aside,
}

/// The sign of arithmetic on an integer: what is narrower than `int` becomes `int`.
pub fn promoted(integer: Integer) -> Sign
    ensures { result ≡ promoted integer }
{
    match integer.width {
        Width::B1 | Width::B2 => Sign::Signed,
        Width::B4 => integer.sign,
    }
}

/// The sign of arithmetic on two integers.
pub fn common(a: Integer, b: Integer) -> Sign
    ensures { result ≡ common a b }
{
    match promoted(a) {
        Sign::Signed => promoted(b),
        Sign::Unsigned => Sign::Unsigned,
    }
}

fn bool_same(a: bool, b: bool) -> bool
    ensures { result ≡ bool_same a b }
{
    if a { b } else { !b }
}

fn kind_same(a: BaseKind, b: BaseKind) -> bool
    ensures { result ≡ kind_same a b }
{
    match (a, b) {
        (BaseKind::Void, BaseKind::Void)
        | (BaseKind::Char, BaseKind::Char)
        | (BaseKind::SignedChar, BaseKind::SignedChar)
        | (BaseKind::UnsignedChar, BaseKind::UnsignedChar)
        | (BaseKind::Short, BaseKind::Short)
        | (BaseKind::UnsignedShort, BaseKind::UnsignedShort)
        | (BaseKind::Int, BaseKind::Int)
        | (BaseKind::UnsignedInt, BaseKind::UnsignedInt) => true,
        (BaseKind::Struct(a), BaseKind::Struct(b)) => a.0 == b.0,
        _ => false,
    }
}

fn const_fits(rule: ConstRule, a: bool, b: bool) -> bool
    ensures { result ≡ const_fits rule a b }
{
    match rule {
        ConstRule::Kept => bool_same(a, b),
        ConstRule::Added => !a || b,
        ConstRule::Aside => true,
    }
}

fn qualifiers_fit(rule: ConstRule, q: Qualifiers, r: Qualifiers) -> bool
    ensures { result ≡ qualifiers_fit rule q r }
{
    const_fits(rule, q.is_const, r.is_const) && bool_same(q.is_volatile, r.is_volatile)
}

fn step_fits(rule: ConstRule, s: Step, t: Step) -> bool
    ensures { result ≡ step_fits rule s t }
{
    match (s, t) {
        (Step::Pointer(q), Step::Pointer(r)) => qualifiers_fit(rule, q, r),
        (Step::Array(m), Step::Array(n)) => m == n,
        (Step::Pointer(_), Step::Array(_)) | (Step::Array(_), Step::Pointer(_)) => false,
    }
}

fn base_fits(rule: ConstRule, b: Base, c: Base) -> bool
    ensures { result ≡ base_fits rule b c }
{
    kind_same(b.kind, c.kind) && qualifiers_fit(rule, b.qualifiers, c.qualifiers)
}

#[tactic(auto, using(crate::proofs::Pairs::pairs))]
fn steps_same(mut ss: &[Step], mut ts: &[Step]) -> bool
    ensures { result ≡ steps_same ss.entry.now ts.entry.now }
{
    'pairs: loop {
        let [s, more @ ..] = ss else {
            return ts.is_empty();
        };
        let [t, others @ ..] = ts else {
            return false;
        };
        if !step_fits(ConstRule::Kept, *s, *t) {
            return false;
        }
        ss = more;
        ts = others;
    }
}

fn type_fits(rule: ConstRule, b: Base, ss: &[Step], c: Base, ts: &[Step]) -> bool
    ensures { result ≡ type_fits rule b ss.now c ts.now }
{
    match (ss, ts) {
        ([], []) => base_fits(rule, b, c),
        ([s, more @ ..], [t, others @ ..]) => {
            step_fits(rule, *s, *t) && steps_same(more, others) && base_fits(ConstRule::Kept, b, c)
        }
        ([], [_, ..]) | ([_, ..], []) => false,
    }
}

fn targets_fit(rule: ConstRule, b: Base, ss: &[Step], c: Base, ts: &[Step]) -> bool
    ensures { result ≡ targets_fit rule b ss.now c ts.now }
{
    match (ss, ts) {
        ([Step::Pointer(_), more @ ..], [Step::Pointer(_), others @ ..]) => {
            type_fits(rule, b, more, c, others)
        }
        _ => false,
    }
}

fn null_of(integer: Integer, kind: PointerKind) -> Conversion
    ensures { result ≡ null_of integer kind }
{
    match kind {
        PointerKind::Plain => Conversion::ToNull,
        PointerKind::Volatile => Conversion::ToAddress(integer),
    }
}

fn implied_between(is_zero: bool, fit: bool, from: Scalar, to: Scalar) -> Option<Conversion>
    ensures { result ≡ implied_between is_zero fit from to }
{
    match (from, to) {
        (Scalar::Integer(i), Scalar::Integer(j)) => Some(i.converted(j.width)),
        (Scalar::Integer(i), Scalar::Pointer(kind)) if is_zero => Some(null_of(i, kind)),
        (Scalar::Pointer(_), Scalar::Pointer(_)) if fit => Some(Conversion::Same),
        _ => None,
    }
}

fn cast_between(is_zero: bool, fit: bool, from: Scalar, to: Scalar) -> Option<Conversion>
    ensures { result ≡ cast_between is_zero fit from to }
{
    match (from, to) {
        (Scalar::Integer(i), Scalar::Integer(j)) => Some(i.converted(j.width)),
        (Scalar::Integer(i), Scalar::Pointer(PointerKind::Volatile)) => {
            Some(Conversion::ToAddress(i))
        }
        (Scalar::Integer(_), Scalar::Pointer(PointerKind::Plain)) if is_zero => {
            Some(Conversion::ToNull)
        }
        (Scalar::Pointer(PointerKind::Volatile), Scalar::Integer(j)) => {
            Some(Conversion::FromAddress(j.width))
        }
        (Scalar::Pointer(PointerKind::Volatile), Scalar::Pointer(PointerKind::Volatile)) => {
            Some(Conversion::Same)
        }
        (Scalar::Pointer(PointerKind::Plain), Scalar::Pointer(PointerKind::Plain)) if fit => {
            Some(Conversion::Same)
        }
        _ => None,
    }
}

impl CType {
    /// Whether both are pointers whose targets have one type, but for their outermost `const`.
    pub fn has_target_of(&self, other: &CType, rule: ConstRule) -> bool
        ensures { result ≡ targets_fit rule self.now.base self.now.steps other.now.base other.now.steps }
    {
        targets_fit(rule, self.base(), self.steps(), other.base(), other.steps())
    }

    /// What is implied where a value of this type becomes one of the type `to`. `is_zero` tells that it is the constant 0. None
    /// where it doesn't convert.
    pub fn implied(&self, is_zero: bool, to: &CType) -> Option<Conversion>
        ensures { result ≡ implied is_zero self.now to.now }
    {
        let fit = self.has_target_of(to, ConstRule::Added);
        match (self.scalar(), to.scalar()) {
            (Some(from), Some(to)) => implied_between(is_zero, fit, from, to),
            _ => None,
        }
    }

    /// What a cast of a value of this type to the type `to` does. None where it may not be cast.
    pub fn cast(&self, is_zero: bool, to: &CType) -> Option<Conversion>
        ensures { result ≡ cast is_zero self.now to.now }
    {
        let fit = self.has_target_of(to, ConstRule::Added);
        match (self.scalar(), to.scalar()) {
            (Some(from), Some(to)) => cast_between(is_zero, fit, from, to),
            _ => None,
        }
    }
}
