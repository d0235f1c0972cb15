//! Which line may stand behind which.

ghost use Rattle.std.specs.Prelude.{◌≡◌, ◌<◌, ◌↔◌, IsTrue, Some, IfSome};
ghost use Rattle.certtext.specs.declared.saying.Saying.{Saying};
ghost use Rattle.certtext.specs.Texts.{Fits, saying_text};
ghost use Rattle.certtext.specs.Order.{IsBefore, MayName, MayTell, MayLabel, MayCome, start, behind_region, next};
ghost use Rattle.certtext.specs.declared.order.Before.TheVariants.{Other};

use crate::cert::Label;
use crate::edition::Edition;
use crate::saying::{Saying, read_saying};

/// What stands right before a line, as far as a label asks.
#[derive(Clone, Copy)]
pub enum Before {
    /// No certificate.
    Other,
    /// A certificate's bounds.
    Bounds,
    /// A label of a certificate.
    Label(Label),
}

/// A place between two lines.
#[derive(Clone, Copy)]
pub struct Place {
    /// The core that was named last.
    core: Option<u8>,
    /// The last region of this core.
    region: Option<u16>,
    before: Before,
}

impl Label {
    /// Whether it stands before the other: by the entry, then by the word.
    pub fn is_before(self, other: Label) -> bool
        ensures { IsTrue result ↔ IsBefore self other }
    {
        self.entry < other.entry || (self.entry == other.entry && self.pc < other.pc)
    }
}

impl Before {
    fn may_label(self, label: Label) -> bool
        ensures { IsTrue result ↔ MayLabel self label }
    {
        match self {
            Before::Other => false,
            Before::Bounds => true,
            Before::Label(before) => before.is_before(label),
        }
    }
}

impl Place {
    /// Behind the first line of a file.
    pub fn first() -> Place
        ensures { result ≡ start }
    {
        Place {
            core: None,
            region: None,
            before: Before::Other,
        }
    }

    /// Whether the last core was named.
    pub fn names_last(self) -> bool
        ensures { IsTrue result ↔ (self.core ≡ Some 1) }
    {
        self.core == Some(1)
    }

    fn may_name(self, core: u8) -> bool
        ensures { IsTrue result ↔ MayName self.core core }
    {
        match self.core {
            None => core == 0,
            Some(before) => before == 0 && core == 1,
        }
    }

    fn may_tell(self, region: u16) -> bool
        ensures { IsTrue result ↔ MayTell self region }
    {
        self.core.is_some() && ascends(self.region, region)
    }

    fn may_come(self, said: Saying) -> bool
        ensures { IsTrue result ↔ MayCome self said }
    {
        match said {
            Saying::Core(core) => self.may_name(core),
            Saying::Certified { region, .. } => self.may_tell(region),
            Saying::Labelled(label) => self.before.may_label(label),
            Saying::Refused { region, .. } => self.may_tell(region),
            Saying::Unbalanced { region, .. } => self.may_tell(region),
        }
    }

    /// The place behind this and a line.
    pub fn then(self, said: Saying) -> Place
        ensures { result ≡ next self said }
    {
        match said {
            Saying::Core(core) => Place {
                core: Some(core),
                region: None,
                before: Before::Other,
            },
            Saying::Certified { region, .. } => Place {
                core: self.core,
                region: Some(region),
                before: Before::Bounds,
            },
            Saying::Labelled(label) => Place {
                core: self.core,
                region: self.region,
                before: Before::Label(label),
            },
            Saying::Refused { region, .. } => self.without(region),
            Saying::Unbalanced { region, .. } => self.without(region),
        }
    }

    fn without(self, region: u16) -> Place
        ensures { result ≡ behind_region self region Other }
    {
        Place {
            core: self.core,
            region: Some(region),
            before: Before::Other,
        }
    }

    /// What the line says that may stand here.
    pub fn read_next(self, edition: Edition, line: &[u8]) -> Option<Saying>
        ensures fits { IfSome result (λ s. Fits edition s) }
        ensures text { IfSome result (λ s. line.now ≡ saying_text edition s) }
        ensures order { IfSome result (λ s. MayCome self s) }
        ensures only { (s : Saying) → Fits edition s → line.now ≡ saying_text edition s → MayCome self s → result ≡ Some s }
    {
        let said = read_saying(edition, line)?;
        if self.may_come(said) {
            Some(said)
        } else {
            None
        }
    }
}

fn ascends(last: Option<u16>, region: u16) -> bool
    ensures { IsTrue result ↔ IfSome last (λ before. before < region) }
{
    match last {
        None => true,
        Some(before) => before < region,
    }
}
