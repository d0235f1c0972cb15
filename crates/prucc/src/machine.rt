//! One core, word by word: the two instructions that it knows so far, and what each costs.

ghost use Rattle.std.specs.Prelude.{◌≡◌, ◌+◌, ◌^◌, ◌<◌, ◌≤◌, ◌↔◌, Some, IfSome, IsTrue, length, slice_get};
ghost use Rattle.prunum.specs.declared.width.Width.TheVariants.{B4};
ghost use Rattle.prutrace.specs.declared.event.Event.TheVariants as Event;
ghost use Rattle.prucc.specs.declared.machine.Stop.TheVariants.{Going};
ghost use Rattle.prucc.specs.Core.{IsKnown, core_at_start, with_field, given_to_input, shown_write, core_after, outcome};
ghost use Rattle.prucc.specs.Part.{first_byte, part_length, part_bytes, with_bytes};
ghost use Rattle.isa.specs.Row.{word_of, Fits};
ghost use Rattle.isa.specs.declared.inst.Inst.{Inst};

use isa::{Field, Inst, Part, decode};
use prunum::Width;
use prutrace::{Event, Place};

/// Registers R0 to R30, four bytes each.
const REGISTER_BYTES: usize = 124;

/// How a core stands.
#[derive(Clone, Copy, Debug, PartialEq, Eq)]
pub enum Stop {
    Going,
    Halted,
    /// No word that it knows stands at its counter.
    Stuck,
}

impl Stop {
    pub fn is_going(self) -> bool
        ensures { IsTrue result ↔ (self ≡ Going) }
    {
        matches!(self, Stop::Going)
    }
}

/// A core between two words.
#[derive(Clone, Copy, Debug)]
pub struct Core {
    /// The number of the next word.
    pc: usize,
    /// R0 to R30, the low byte of each first.
    registers: [u8; REGISTER_BYTES],
}

/// What one word shows, and how the core stands after it.
#[derive(Clone, Copy, Debug, PartialEq, Eq)]
pub struct StepOut {
    pub event: Option<Event>,
    pub stop: Stop,
}

/// The first byte of a part in its register.
fn first_byte(part: Part) -> usize
    ensures { result ≡ first_byte part }
{
    match part {
        Part::B0 | Part::W0 | Part::All => 0,
        Part::B1 | Part::W1 => 1,
        Part::B2 | Part::W2 => 2,
        Part::B3 => 3,
    }
}

/// How many bytes a part has.
fn part_length(part: Part) -> usize
    ensures { result ≡ part_length part }
{
    match part {
        Part::B0 | Part::B1 | Part::B2 | Part::B3 => 1,
        Part::W0 | Part::W1 | Part::W2 => 2,
        Part::All => 4,
    }
}

/// Puts a number, cut to the part, into bytes that hold the register from `at` on.
fn put_part(bytes: &mut [u8], at: usize, part: Part, n: u16)
    requires { at + 4 ≤ length bytes.old }
    ensures { bytes.new ≡ with_bytes (at + first_byte part) (part_bytes part n) bytes.old }
{
    let number = u32::from(n).to_le_bytes();
    let length = part_length(part);
    let from = at + first_byte(part);
    bytes[from..from + length].copy_from_slice(&number[..length]);
}

/// What a write to a part of R31 gives it.
fn given_to_input(part: Part, n: u16) -> u32
    ensures { result ≡ given_to_input part n }
{
    let mut value = [0; 4];
    put_part(&mut value, 0, part, n);
    u32::from_le_bytes(value)
}

impl Core {
    /// A core at its start: all registers are 0, and the first word is the next.
    pub fn new() -> Core
        ensures { result ≡ core_at_start }
    {
        Core {
            pc: 0,
            registers: [0; REGISTER_BYTES],
        }
    }

    /// The instruction at the counter. None where the words end before it, or the core doesn't know the word.
    pub fn next(&self, words: &[u32]) -> Option<Inst>
        ensures found { IfSome result (λ i. IsKnown i × (slice_get words.now self.now.pc ≡ Some (word_of i))) }
        ensures only { (i : Inst) → IsKnown i → Fits i → slice_get words.now self.now.pc ≡ Some (word_of i) → result ≡ Some i }
    {
        match decode(*words.get(self.pc)?)? {
            Inst::Ldi { d, n } => Some(Inst::Ldi { d, n }),
            Inst::Halt => Some(Inst::Halt),
            _ => None,
        }
    }

    fn write(&mut self, d: Field, n: u16) -> Option<Event>
        ensures core { self.new ≡ record self.old { registers = with_field d n self.old.registers } }
        ensures shown { result ≡ shown_write d n self.old.registers }
    {
        if d.reg == 31 {
            return Some(write_event(Place::Reg31, given_to_input(d.part, n)));
        }
        put_part(&mut self.registers, 4 * d.reg as usize, d.part, n);
        if d.reg == 30 {
            let [.., b0, b1, b2, b3] = self.registers;
            return Some(write_event(Place::Reg30, u32::from_le_bytes([b0, b1, b2, b3])));
        }
        None
    }

    /// Runs one instruction.
    pub fn step(&mut self, i: &Inst) -> StepOut
        requires known { IsKnown i.now }
        requires counter { self.old.pc + 1 < 2 ^ 64 }
        ensures core { self.new ≡ core_after self.old i.now }
        ensures counter { self.new.pc ≤ self.old.pc + 1 }
        ensures size { length self.old.registers ≡ REGISTER_BYTES }
        ensures out { result ≡ outcome self.old i.now }
    {
        match *i {
            Inst::Ldi { d, n } => {
                let event = self.write(d, n);
                self.pc += 1;
                StepOut {
                    event,
                    stop: Stop::Going,
                }
            }
            Inst::Halt => StepOut {
                event: Some(Event::Halted),
                stop: Stop::Halted,
            },
            _ => unreachable!(),
        }
    }
}

fn write_event(place: Place, value: u32) -> Event
    ensures { result ≡ Event.Write place B4 value }
{
    Event::Write {
        place,
        width: Width::B4,
        value,
    }
}

/// How many cycles an instruction takes: one, where it has no memory access.
pub fn cost(i: &Inst) -> u32
    requires { IsKnown i.now }
    ensures { result ≡ 1 }
{
    match i {
        Inst::Ldi { .. } | Inst::Halt => 1,
        _ => unreachable!(),
    }
}
