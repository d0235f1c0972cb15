//! What passes between a core and what stands round it.

use corestep::{Input, StepOut};

/// What a word is given and what it gives. One value serves for the words of both cores, so that none is made anew.
#[derive(Debug, Drop)]
pub struct Passed {
    pub input: Input,
    pub out: StepOut,
}

impl Passed {
    pub fn new() -> Passed {
        Passed {
            input: Input {
                r31: 0,
                bytes: [0; 124],
                pads: [0; 4],
            },
            out: StepOut::new(),
        }
    }
}
