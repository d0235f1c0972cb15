ghost use Rattle.std.specs.Prelude.{◌≡◌, IfOk, OnOk, OnErr};
ghost use Rattle.ctypes.specs.Shape.{qualifiers, kind_of_target, scalar_of, decayed, pointed, target_of};

use crate::base::Base;
use crate::step::{Qualifiers, Step};
use cprogram::{PointerKind, Scalar};
use std::alloc::{AllocError, Global};
use std::marker::Model;

/// A type that a source means: steps from the outermost, and the type that they end at.
#[derive(Debug, Drop)]
pub struct CType {
    base: Base,
    steps: Vec<Step>,
}

impl Model for CType {
    ghost use Rattle.std.specs.Coded.{codes};
    ghost use Rattle.ctypes.specs.Shape.{Shape};

    ghost Value = { Shape };

    ghost view = { λ a. record { base = a.base; steps = a.steps.items } };
}

impl CType {
    /// The type with these steps, the outermost first, which are not copied.
    pub fn new(base: Base, steps: Vec<Step>) -> CType
        ensures { result ≡ record { base = base; steps = steps.items } }
    {
        CType { base, steps }
    }

    pub fn copy(&self, alloc: Global) -> Result<CType, AllocError>
        ensures { IfOk result (λ t. t ≡ self.now) }
    {
        let steps = Vec::from_slice(alloc, &self.steps)?;
        Ok(CType {
            base: self.base,
            steps,
        })
    }

    pub fn base(&self) -> Base
        ensures { result ≡ self.now.base }
    {
        self.base
    }

    /// The outermost first.
    pub fn steps(&self) -> &[Step]
        ensures { result.now ≡ self.now.steps }
    {
        &self.steps
    }

    /// Its qualifiers; those of an array are its elements'.
    pub fn qualifiers(&self) -> Qualifiers
        ensures { result ≡ qualifiers self.now.base self.now.steps }
    {
        qualifiers(self.base, &self.steps)
    }

    /// Its scalar type; None where it is void, a struct or an array.
    pub fn scalar(&self) -> Option<Scalar>
        ensures { result ≡ scalar_of self.now.base self.now.steps }
    {
        scalar_of(self.base, &self.steps)
    }

    /// What an array becomes where its value is taken: a pointer to its first element. Any other type stays as it is.
    pub fn decay(&mut self)
        ensures { self.new ≡ record { base = self.old.base; steps = decayed self.old.steps } }
    {
        if let [Step::Array(_), ..] = self.steps.as_slice() {
            self.steps[0] = Step::Pointer(Qualifiers::NONE);
        }
    }

    /// What a pointer points to, or an array is made of. None where it is neither.
    pub fn into_target(mut self) -> Option<CType>
        ensures { result ≡ target_of self }
    {
        if self.steps.is_empty() {
            return None;
        }
        let _ = self.steps.remove(0);
        Some(self)
    }

    /// Makes it a pointer to what it was.
    pub fn point(&mut self) -> Result<(), AllocError>
        ensures ok { OnOk result (self.new ≡ pointed self.old) }
        ensures err { OnErr result (self.new ≡ self.old) }
    {
        self.steps.insert(0, Step::Pointer(Qualifiers::NONE))?;
        Ok(())
    }
}

fn qualifiers(base: Base, steps: &[Step]) -> Qualifiers
    ensures { result ≡ qualifiers base steps.now }
{
    for step in steps {
        if let Step::Pointer(own) = step {
            return *own;
        }
    }
    base.qualifiers
}

fn scalar_of(base: Base, steps: &[Step]) -> Option<Scalar>
    ensures { result ≡ scalar_of base steps.now }
{
    match steps {
        [] => base.kind.integer().map(Scalar::Integer),
        [Step::Pointer(_), target @ ..] => Some(Scalar::Pointer(kind_of_target(qualifiers(
            base, target,
        )))),
        [Step::Array(_), ..] => None,
    }
}

fn kind_of_target(target: Qualifiers) -> PointerKind
    ensures { result ≡ kind_of_target target }
{
    if target.is_volatile {
        PointerKind::Volatile
    } else {
        PointerKind::Plain
    }
}
