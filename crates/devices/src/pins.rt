ghost use Rattle.std.specs.Prelude.{◌≡◌, ◌<◌, replicate, slice_index, slice_set};

use std::marker::Model;

/// The pins of the two cores. Each reads 16 of them. What it puts out are the 32 bits of its output register: bits 0 to
/// 15 are its 16 output pins, and the upper 16 lead to no pin and are only kept, so that the register can be read back.
#[derive(Clone, Copy, Debug, PartialEq, Eq)]
pub struct Pins {
    inputs: [u16; 2],
    outputs: [u32; 2],
}

impl Model for Pins {
    ghost use Rattle.devices.specs.Ports.{Levels};

    ghost Value = { Levels };

    ghost view = { λ a. record { inputs = a.inputs; outputs = a.outputs } };

    ghost inverse = { λ levels. record { inputs = levels.inputs; outputs = levels.outputs } };
}

impl Pins {
    ghost use Rattle.devices.specs.Ports.{Levels};

    /// All pins are 0.
    pub fn new() -> Pins
        ensures { result ≡ record { inputs = replicate 2 0; outputs = replicate 2 0 } }
    {
        Pins {
            inputs: [0; 2],
            outputs: [0; 2],
        }
    }

    pub fn input(&self, core: u8) -> u16
        requires { core < 2 }
        ensures { result ≡ slice_index self.now.inputs core }
    {
        self.inputs[usize::from(core)]
    }

    pub fn set_input(&mut self, core: u8, v: u16)
        requires { core < 2 }
        ensures { self.new ≡ record self.old { inputs = slice_set self.old.inputs core v } }
    {
        self.inputs[usize::from(core)] = v;
    }

    /// The output register: its lower 16 bits are the pins.
    pub fn output(&self, core: u8) -> u32
        requires { core < 2 }
        ensures { result ≡ slice_index self.now.outputs core }
    {
        self.outputs[usize::from(core)]
    }

    pub fn set_output(&mut self, core: u8, v: u32)
        requires { core < 2 }
        ensures { self.new ≡ record self.old { outputs = slice_set self.old.outputs core v } }
    {
        self.outputs[usize::from(core)] = v;
    }
}
