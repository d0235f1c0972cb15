ghost use Rattle.std.specs.Prelude.{◌≡◌, IsTrue, ◌↔◌, min, max};
ghost use Rattle.subreg.specs.Span.{Within};

/// Operations from one place to another, both among them.
#[derive(Clone, Copy)]
pub struct Area {
    pub first: usize,
    pub last: usize,
}

impl Area {
    pub fn has(&self, place: usize) -> bool
        ensures { IsTrue result ↔ Within self.now.first self.now.last place }
    {
        self.first <= place && place <= self.last
    }

    /// From the first place of both to the last.
    pub fn with(&self, other: Area) -> Area
        ensures first { result.first ≡ min self.now.first other.first }
        ensures last { result.last ≡ max self.now.last other.last }
    {
        Area {
            first: self.first.min(other.first),
            last: self.last.max(other.last),
        }
    }
}
