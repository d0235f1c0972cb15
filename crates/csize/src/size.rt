//! How large types are.

ghost use Rattle.std.specs.Prelude.{◌≡◌};
ghost use Rattle.csize.specs.Elements.{leaf_element, element_at, times};
ghost use Rattle.csize.specs.Size.{base_element, one_step, steps_element, element_of, inner_element};

use crate::structure::Structure;
use cprogram::Element;
use ctypes::{Base, BaseKind, CType, Step};
use prunum::{Width, bytes};

// So many leaves in so many bytes.
#[tactic(auto, using(crate::proofs::Sizes::elements))]
fn element_at(leaves: u64, size: u64) -> Option<Element>
    ensures { result ≡ element_at leaves size }
{
    if 0 < leaves && size < 1 << 32 && leaves <= size {
        Some(Element {
            leaves: leaves as u32,
            bytes: size as u32,
        })
    } else {
        None
    }
}

// One leaf of a width.
fn leaf_element(width: Width) -> Option<Element>
    ensures { result ≡ leaf_element width }
{
    element_at(1, u64::from(bytes(width)))
}

fn times(count: u32, element: Option<Element>) -> Option<Element>
    ensures { result ≡ times count element }
{
    let element = element?;
    let count = u64::from(count);
    element_at(
        count * u64::from(element.leaves),
        count * u64::from(element.bytes),
    )
}

fn base_element(structures: &[Structure], kind: BaseKind) -> Option<Element>
    ensures { result ≡ base_element structures.now kind }
{
    match kind {
        BaseKind::Struct(id) => structures.get(id.0 as usize)?.element,
        _ => leaf_element(kind.integer()?.width),
    }
}

fn one_step(element: Option<Element>, step: Step) -> Option<Element>
    ensures { result ≡ one_step element step }
{
    match step {
        Step::Pointer(_) => leaf_element(Width::B4),
        Step::Array(count) => times(count, element),
    }
}

// From the innermost step on.
#[tactic(auto, using(crate::proofs::Sizes::steps_from_last), unfolding(crate::specs::Size::steps_element))]
fn steps_element(structures: &[Structure], base: Base, steps: &[Step]) -> Option<Element>
    ensures { result ≡ steps_element structures.now base steps.now }
{
    let mut element = base_element(structures, base.kind);
    let mut rest = steps;
    'steps: while let Some((step, front)) = rest.split_last() {
        element = one_step(element, *step);
        rest = front;
    }
    element
}

/// The size of a type. None where it is void or a struct that isn't complete yet.
pub fn element_of(structures: &[Structure], ctype: &CType) -> Option<Element>
    ensures { result ≡ element_of structures.now ctype.now }
{
    steps_element(structures, ctype.base(), ctype.steps())
}

/// The size of what a pointer points to, or an array is made of.
pub fn inner_element(structures: &[Structure], ctype: &CType) -> Option<Element>
    ensures { result ≡ inner_element structures.now ctype.now.base ctype.now.steps }
{
    match ctype.steps() {
        [_, rest @ ..] => steps_element(structures, ctype.base(), rest),
        [] => None,
    }
}
