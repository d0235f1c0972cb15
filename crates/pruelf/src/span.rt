ghost use Rattle.std.specs.Prelude.{◌≡◌, ◌<◌};
ghost use Rattle.pruelf.specs.Fields.{allows, only};

/// The numbers that a field may have: `least`, and every `unit` more up to `most`.
#[derive(Clone, Copy, Debug)]
pub struct Span {
    pub least: u64,
    pub most: u64,
    pub unit: u64,
}

impl Span {
    /// One number alone.
    pub fn only(value: u64) -> Span
        ensures { result ≡ only value }
    {
        Span {
            least: value,
            most: value,
            unit: 1,
        }
    }

    pub fn allows(&self, number: u64) -> bool
        requires { 0 < self.now.unit }
        ensures { result ≡ allows self.now number }
    {
        self.least <= number && number <= self.most && (number - self.least) % self.unit == 0
    }
}
