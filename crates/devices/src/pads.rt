ghost use Rattle.std.specs.Prelude.{◌≡◌, ℕ, ◌<◌, List, replicate};

use std::marker::Model;

/// The scratchpad: three banks of 30 registers.
#[derive(Clone, Copy, Debug, PartialEq, Eq)]
pub struct Pads {
    banks: [[u32; 30]; 3],
}

impl Model for Pads {
    ghost Value = { List (List ℕ) };

    ghost view = { λ a. a.banks };

    ghost inverse = { λ banks. record { banks = banks } };
}

impl Pads {
    ghost use Rattle.devices.specs.Ports.{pad_at, with_pad};

    /// All registers are 0.
    pub fn new() -> Pads
        ensures { result ≡ replicate 3 (replicate 30 0) }
    {
        Pads {
            banks: [[0; 30]; 3],
        }
    }

    pub fn get(&self, bank: u8, reg: u8) -> u32
        requires bank { bank < 3 }
        requires reg { reg < 30 }
        ensures { result ≡ pad_at self.now bank reg }
    {
        self.banks[usize::from(bank)][usize::from(reg)]
    }

    pub fn set(&mut self, bank: u8, reg: u8, v: u32)
        requires bank { bank < 3 }
        requires reg { reg < 30 }
        ensures { self.new ≡ with_pad self.old bank reg v }
    {
        self.banks[usize::from(bank)][usize::from(reg)] = v;
    }
}
