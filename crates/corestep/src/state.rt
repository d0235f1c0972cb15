//! A core between two words.

ghost use Rattle.std.specs.Prelude.{◌≡◌, ◌<◌, ◌^◌, ◌%◌, ◌+◌, IfOk, IfSome, Some, slice_index, slice_set, length};
ghost use Rattle.corestep.specs.Core.{at_start, zeros};
ghost use Rattle.corestep.specs.Fields.{register, with_bytes};
ghost use Rattle.corestep.specs.Memory.{private_bytes};
ghost use Rattle.corestep.specs.Step.{inst_at, need_of, stepped};
ghost use Rattle.corestep.specs.Pieces.{bank_number};
ghost use Rattle.corestep.specs.declared.out.Need.TheVariants as Need;

use crate::bytes::put;
use crate::effect::act;
use crate::fields::{self, address};
use crate::marks::{notes_of, push_before, push_behind};
use crate::onward::{Turning, goes_on, stop_of};
use crate::out::{Input, Need, StepOut, Stop};
use crate::pieces::bank_number;
use isa::{Image, Inst, Transfer, decode};
use prunum::Memory;
use std::alloc::Global;
use std::marker::Model;

/// A core between two words.
#[derive(Debug, Drop)]
pub struct Core {
    pc: u16,
    turning: Option<Turning>,
    registers: [u8; 124],
    ram: Vec<u8>,
}

impl Model for Core {
    ghost use Rattle.std.specs.Prelude.{◌≡◌, length};
    ghost use Rattle.corestep.specs.Core.{State};

    ghost Value = { State };

    ghost view = { λ a. record { pc = a.pc; turning = a.turning; registers = a.registers; ram = a.ram.items } };

    ghost invariant = { λ a. length a.ram.items ≡ 0x1E00 };
}

impl Core {
    /// The core at its start, with the image's data in its RAM.
    pub fn new(alloc: Global, image: &Image) -> Result<Core, Memory>
        ensures { IfOk result (λ core. core ≡ at_start image.now) }
    {
        let ram = ram_of(alloc, image)?;
        Ok(Core {
            pc: 0,
            turning: None,
            registers: no_registers(),
            ram,
        })
    }

    /// Brings the core back to its start, with the image's data in its RAM.
    pub fn restart(&mut self, image: &Image)
        ensures { self.new ≡ at_start image.now }
    {
        self.pc = 0;
        self.turning = None;
        self.registers = no_registers();
        clear(&mut self.ram);
        put(&mut self.ram, image.data_at() as usize, image.init());
    }

    /// The number of the next word.
    pub fn pc(&self) -> u32
        ensures { result ≡ self.now.pc }
    {
        u32::from(self.pc)
    }

    /// One of R0 to R30.
    pub fn reg(&self, r: u8) -> u32
        requires { r < 31 }
        ensures { result ≡ register self.now.registers r }
    {
        fields::register(&self.registers, r)
    }

    /// A byte of the private part of its RAM.
    pub fn byte(&self, at: u32) -> u8
        requires { at < private_bytes }
        ensures { result ≡ slice_index self.now.ram at }
    {
        self.ram[at as usize]
    }

    /// Writes a byte of the private part of its RAM, and nothing else.
    pub fn set_byte(&mut self, at: u32, v: u8)
        requires { at < private_bytes }
        ensures { self.new ≡ record self.old { ram = slice_set self.old.ram at v } }
    {
        self.ram[at as usize] = v;
    }

    pub fn next(&self, image: &Image) -> Option<Inst>
        ensures value { result ≡ inst_at image.now.words self.now.pc }
        ensures within { IfSome result (λ _. self.now.pc < 2048) }
    {
        decode(*image.words().get(usize::from(self.pc))?)
    }

    pub fn need_of(&self, i: &Inst) -> Need
        ensures { result ≡ need_of self.now i.now }
    {
        match i {
            Inst::Load { access } => Need::Access {
                addr: address(&self.registers, access),
                len: access.len,
                store: false,
            },
            Inst::Store { access } => Need::Access {
                addr: address(&self.registers, access),
                len: access.len,
                store: true,
            },
            Inst::Xin { moved } => pads(moved, false),
            Inst::Xout { moved } => pads(moved, true),
            _ => Need::Plain,
        }
    }

    /// Runs the instruction that is at the counter, as `step` does.
    #[tactic(auto, unfolding(crate::specs::Step::istep))]
    pub fn step_of(&mut self, image: &Image, i: &Inst, input: &Input, out: &mut StepOut)
        requires at { inst_at image.now.words self.old.pc ≡ Some i.now }
        requires within { self.old.pc < 2048 }
        ensures core { self.new ≡ (stepped image.now self.old input.now).core }
        ensures out { out.new ≡ (stepped image.now self.old input.now).out }
    {
        let here = notes_of(image.notes(), self.pc);
        out.clear(Stop::Going);
        push_before(&mut out.events, here);
        let behind = u32::from(self.pc) + 1;
        let goes = act(&mut self.registers, &mut self.ram, behind, i, input, out);
        push_behind(&mut out.events, here);
        out.stop = stop_of(goes);
        let on = goes_on(self.pc, self.turning, i, goes);
        self.pc = on.pc;
        self.turning = on.turning;
    }
}

fn pads(moved: &Transfer, store: bool) -> Need
    ensures { result ≡ Need.Pad (bank_number moved.now.bank) moved.now.first moved.now.count store }
{
    Need::Pad {
        bank: bank_number(moved.bank),
        reg: moved.first,
        count: moved.count,
        store,
    }
}

/// The private part of the RAM with the image's data.
fn ram_of(alloc: Global, image: &Image) -> Result<Vec<u8>, Memory>
    ensures value { IfOk result (λ ram. ram.items ≡ with_bytes image.now.data_at image.now.init (zeros 0x1E00)) }
    ensures size { IfOk result (λ ram. length ram.items ≡ 0x1E00) }
{
    let mut ram = zeros(alloc, 0x1e00)?;
    put(&mut ram, image.data_at() as usize, image.init());
    Ok(ram)
}

#[tactic(auto, unfolding(crate::specs::Core::zeros))]
fn zeros(alloc: Global, count: usize) -> Result<Vec<u8>, Memory>
    ensures value { IfOk result (λ bytes. bytes.items ≡ zeros count) }
    ensures size { IfOk result (λ bytes. length bytes.items ≡ count) }
{
    Ok(vec![in alloc; 0u8; count]?)
}

/// Makes all bytes 0.
#[tactic(auto, unfolding(crate::specs::Core::zeros))]
fn clear(bytes: &mut [u8])
    ensures value { bytes.new ≡ zeros (length bytes.old) }
    ensures size { length bytes.new ≡ length bytes.old }
{
    bytes.fill(0);
}

#[tactic(auto, unfolding(crate::specs::Core::zeros))]
fn no_registers() -> [u8; 124]
    ensures { result ≡ zeros 124 }
{
    [0; 124]
}
