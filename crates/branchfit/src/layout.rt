//! The places of a program's instructions, and the numbers of their words.

ghost use Rattle.std.specs.Prelude.{◌≡◌, ◌≤◌, ℕ, IfOk, length, slice_get};
ghost use Rattle.branchfit.specs.Far.{AreFar};
ghost use Rattle.branchfit.specs.Aims.{spots_of};
ghost use Rattle.branchfit.specs.Laid.{number_at, is_far_at, aim_in, number_aimed, there_at};
ghost use Rattle.branchfit.specs.Laying.{IsSmall};
ghost use Rattle.branchfit.specs.Fits.{IsLayout};

use crate::far::{far_of, number_in, numbers_of};
use crate::spot::{Spot, spots_of};
use isa::Item;
use prunum::Memory;
use std::alloc::Global;
use std::marker::Model;

/// Where the instructions go, which of them are far, and the numbers of their first words.
#[derive(Drop)]
pub struct Layout {
    spots: Vec<Spot>,
    far: Vec<bool>,
    numbers: Vec<usize>,
}

impl Model for Layout {
    ghost use Rattle.branchfit.specs.Laid as laid;

    ghost Value = { laid.Layout };

    ghost view = { λ a. record { spots = a.spots.items; far = a.far.items; numbers = a.numbers.items } };
}

impl Layout {
    /// The layout of the items.
    pub fn of(alloc: Global, items: &[Item]) -> Result<Layout, Memory>
        ensures { IfOk result (IsLayout items.now) }
    {
        let spots = spots_of(alloc, items)?;
        let far = far_of(alloc, &spots)?;
        let numbers = numbers_of(alloc, &spots, &far)?;
        Ok(Layout {
            spots,
            far,
            numbers,
        })
    }

    /// The number of a place's first word.
    pub fn number_at(&self, place: usize) -> usize
        ensures { result ≡ number_at self.now place }
    {
        number_in(&self.numbers, place)
    }

    /// How many words there are.
    pub fn length(&self) -> usize
        ensures { result ≡ number_at self.now (length self.now.spots) }
    {
        self.number_at(self.spots.len())
    }

    /// The same, where there are no more than a core's code may have.
    pub fn word_at(&self, place: usize) -> u16
        requires { IsSmall self.now }
        ensures value { result ≡ number_at self.now place }
        ensures bound { result ≤ 2048 }
    {
        self.number_at(place) as u16
    }

    /// Whether the instruction at a place is a far branch.
    pub fn is_far_at(&self, place: usize) -> bool
        ensures { result ≡ is_far_at self.now place }
    {
        self.far.get(place).copied().unwrap_or(false)
    }

    fn aim_at(&self, place: usize) -> Option<usize>
        ensures { result ≡ aim_in (slice_get self.now.spots place) }
    {
        match self.spots.get(place) {
            Some(spot) => spot.aim,
            None => None,
        }
    }

    /// The number of the word that the instruction at a place goes to.
    pub fn there_at(&self, place: usize) -> usize
        ensures { result ≡ there_at self.now place }
    {
        match self.aim_at(place) {
            Some(aim) => self.number_at(aim),
            None => 0,
        }
    }

    /// The same, where there are no more words than a core's code may have.
    pub fn word_aimed_at(&self, place: usize) -> u16
        requires { IsSmall self.now }
        ensures value { result ≡ there_at self.now place }
        ensures bound { result ≤ 2048 }
    {
        match self.aim_at(place) {
            Some(aim) => self.word_at(aim),
            None => 0,
        }
    }
}
