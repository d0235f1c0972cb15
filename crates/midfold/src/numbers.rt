//! Numbers that registers hold, as far as they are known.

ghost use Rattle.std.specs.Prelude.{◌≡◌, ◌+◌, ◌<◌, None, map, replicate, slice_set, IfOk};
ghost use Rattle.midfold.specs.Folding.{number_at};

use midcode::VReg;
use prunum::Memory;
use std::alloc::Global;
use std::marker::Model;

/// What was noted for a register, and in which round.
#[derive(Clone, Copy)]
struct Noted {
    round: u32,
    number: Option<u32>,
}

/// For each register the number that it holds, where that is known. All are forgotten in constant time.
#[derive(Drop)]
pub struct Numbers {
    noted: Vec<Noted>,
    round: u32,
}

impl Model for Numbers {
    ghost use Rattle.std.specs.Prelude.{map, nat_le, IsTrue};
    ghost use Rattle.std.specs.List.{list_all};
    ghost use Rattle.midfold.specs.Numbers.{Table, held_in};

    ghost Value = { Table };

    ghost view = { λ n. record { held = map (held_in n.round) n.noted.items; rounds = n.round } };

    ghost invariant = { λ n. IsTrue (list_all (λ m. nat_le m.round n.round) n.noted.items) };
}

impl Numbers {
    /// For so many registers, with no number known.
    pub fn new(alloc: Global, count: usize) -> Result<Numbers, Memory>
        ensures { IfOk result (λ n. n ≡ record { held = replicate count None; rounds = 0 }) }
    {
        let none = Noted {
            round: 0,
            number: None,
        };
        Ok(Numbers {
            noted: vec![in alloc; none; count]?,
            round: 0,
        })
    }

    /// The number that is known of a register.
    pub fn get(&self, r: VReg) -> Option<u32>
        ensures { result ≡ number_at self.now.held r }
    {
        match self.noted.get(r.0 as usize) {
            None => None,
            Some(noted) => {
                if noted.round == self.round {
                    noted.number
                } else {
                    None
                }
            }
        }
    }

    /// Notes what is known of a register.
    pub fn set(&mut self, r: VReg, number: Option<u32>)
        ensures { self.new ≡ record self.old { held = slice_set self.old.held r.0 number } }
    {
        let index = r.0 as usize;
        if index < self.noted.len() {
            self.noted[index] = Noted {
                round: self.round,
                number,
            };
        }
    }

    /// Forgets all numbers.
    pub fn forget(&mut self)
        requires { self.old.rounds < 1048577 }
        ensures { self.new ≡ record { held = map (λ _. None) self.old.held; rounds = self.old.rounds + 1 } }
    {
        self.round += 1;
    }
}
