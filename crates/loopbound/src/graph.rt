//! Steps between words, and the loops of the words.

ghost use Rattle.std.specs.Prelude.{◌≡◌, ◌+◌, ◌<◌, ◌^◌};
ghost use Rattle.loopbound.specs.Loops.{holds, move};
ghost use Rattle.loopbound.specs.Path.{at};
ghost use Rattle.loopbound.specs.Table.{side_of};

/// One side of bounds.
#[derive(Clone, Copy, Debug, PartialEq, Eq)]
pub enum Side {
    Least,
    Most,
}

/// What a step is to a loop.
#[derive(Clone, Copy, Debug, PartialEq, Eq)]
pub enum Move {
    /// It leaves its turns as they are.
    Stay,
    Turn,
    Leave,
}

/// The least and the greatest of some sums.
#[derive(Clone, Copy, Debug, PartialEq, Eq)]
pub struct Bounds {
    pub least: u32,
    pub most: u32,
}

/// A step from one word to another, or round a call, with the bounds of its cycles.
#[derive(Clone, Copy, Debug, PartialEq, Eq)]
pub struct Step {
    pub from: u32,
    pub to: u32,
    pub cost: Bounds,
}

/// A loop: the words from its first to its last, and how often it is run.
#[derive(Clone, Copy, Debug, PartialEq, Eq)]
pub struct Loop {
    pub first: u32,
    pub last: u32,
    /// From this word of it on a step to the first word turns it.
    pub after: u32,
    pub turns: u32,
}

/// A loop with the bounds of one turn of it, if it can be turned.
#[derive(Clone, Copy, Debug, PartialEq, Eq)]
pub struct TimedLoop {
    pub shape: Loop,
    pub turn: Option<Bounds>,
}

impl Bounds {
    /// Of a call: that of the called function, and so many cycles beside it.
    pub fn with(self, cycles: u32) -> Bounds
        requires least { self.least + cycles < 2 ^ 32 }
        requires most { self.most + cycles < 2 ^ 32 }
        ensures least { result.least ≡ self.least + cycles }
        ensures most { result.most ≡ self.most + cycles }
    {
        Bounds {
            least: self.least + cycles,
            most: self.most + cycles,
        }
    }

    pub fn at(self, side: Side) -> u32
        ensures { result ≡ at side self }
    {
        match side {
            Side::Least => self.least,
            Side::Most => self.most,
        }
    }
}

/// One side of bounds, and 0 where there are none.
pub fn side_of(side: Side, bounds: Option<Bounds>) -> u32
    ensures { result ≡ side_of side bounds }
{
    match bounds {
        Some(b) => b.at(side),
        None => 0,
    }
}

impl Loop {
    pub fn holds(&self, word: u32) -> bool
        ensures { result ≡ holds self.now word }
    {
        self.first <= word && word <= self.last
    }

    pub fn movement(&self, step: &Step) -> Move
        ensures { result ≡ move self.now step.now.from step.now.to }
    {
        if !self.holds(step.from) {
            return Move::Stay;
        }
        if !self.holds(step.to) {
            return Move::Leave;
        }
        if self.after <= step.from && step.to == self.first {
            return Move::Turn;
        }
        Move::Stay
    }
}
