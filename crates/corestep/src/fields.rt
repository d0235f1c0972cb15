//! Fields of registers: R0 to R30 are 124 bytes, the low byte of each first.

ghost use Rattle.std.specs.Prelude.{◌≡◌, ◌+◌, ◌*◌, ◌<◌, ◌≤◌, ◌++◌, IsTrue, length};
ghost use Rattle.prunum.specs.declared.width.Width.TheVariants.{B4};
ghost use Rattle.prutrace.specs.declared.event.Event.TheVariants as Event;
ghost use Rattle.isa.specs.Low.{is_low_base, is_low_operand};
ghost use Rattle.corestep.specs.Fields as spec;
ghost use Rattle.corestep.specs.Memory.{base_value, address_of};
ghost use Rattle.corestep.specs.Given.{outer_of, outer_in, field_of};

use crate::out::Events;
use isa::{Access, Base, Field, Operand, Part};
use prunum::{Width, bytes, from_bytes, low_bytes};
use prutrace::{Event, Place};

/// A part's first byte in its register.
fn first_byte(part: Part) -> usize
    ensures value { result ≡ spec.first_byte part }
    ensures within { result + spec.part_length part ≤ 4 }
{
    match part {
        Part::B0 | Part::W0 | Part::All => 0,
        Part::B1 | Part::W1 => 1,
        Part::B2 | Part::W2 => 2,
        Part::B3 => 3,
    }
}

fn width_of(part: Part) -> Width
    ensures { result ≡ spec.width_of part }
{
    match part {
        Part::B0 | Part::B1 | Part::B2 | Part::B3 => Width::B1,
        Part::W0 | Part::W1 | Part::W2 => Width::B2,
        Part::All => Width::B4,
    }
}

/// What a part has of a whole register.
fn part_of(part: Part, whole: u32) -> u32
    ensures { result ≡ spec.part_of part whole }
{
    let low = whole >> (8 * first_byte(part));
    match width_of(part) {
        Width::B1 => low % (1 << 8),
        Width::B2 => low % (1 << 16),
        Width::B4 => low,
    }
}

/// The number in one of R0 to R30.
pub fn register(registers: &[u8], r: u8) -> u32
    requires below { r < 31 }
    requires whole { length registers.now ≡ 124 }
    ensures { result ≡ spec.register registers.now r }
{
    let at = 4 * usize::from(r);
    from_bytes(&registers[at..at + 4])
}

/// The number in a field of one of R0 to R29.
fn low_field(registers: &[u8], f: Field) -> u32
    requires below { f.reg < 30 }
    requires whole { length registers.now ≡ 124 }
    ensures { result ≡ spec.field_value registers.now 0 f }
{
    let at = 4 * usize::from(f.reg) + first_byte(f.part);
    from_bytes(&registers[at..at + bytes(width_of(f.part)) as usize])
}

/// The whole register that a source in R30 or R31 is a field of.
fn outer(registers: &[u8], r31: u32, f: Field) -> u32
    requires { length registers.now ≡ 124 }
    ensures { result ≡ outer_of registers.now r31 f }
{
    if f.reg == 30 {
        register(registers, 30)
    } else {
        r31
    }
}

/// What a source reads.
pub fn source(registers: &[u8], r31: u32, f: Field) -> u32
    requires { length registers.now ≡ 124 }
    ensures { result ≡ spec.field_value registers.now (outer_of registers.now r31 f) f }
{
    if f.reg < 30 {
        low_field(registers, f)
    } else {
        part_of(f.part, outer(registers, r31, f))
    }
}

/// What a source reads, with its event.
pub fn read(registers: &[u8], r31: u32, f: Field, events: &mut Events) -> u32
    requires whole { length registers.now ≡ 124 }
    requires room { length events.old < 40 }
    ensures value { result ≡ spec.field_value registers.now (outer_of registers.now r31 f) f }
    ensures shown { events.new ≡ events.old ++ spec.field_reads (outer_of registers.now r31 f) f }
    ensures few { length events.new ≤ length events.old + 1 }
{
    if f.reg == 30 {
        events.push(read_event(Place::Reg30, register(registers, 30)));
    } else if f.reg == 31 {
        events.push(read_event(Place::Reg31, r31));
    }
    source(registers, r31, f)
}

/// What an operand is, with its event.
pub fn read_operand(registers: &[u8], r31: u32, b: Operand, events: &mut Events) -> u32
    requires whole { length registers.now ≡ 124 }
    requires room { length events.old < 40 }
    ensures value { result ≡ spec.operand_value registers.now (outer_in registers.now r31 (field_of b)) b }
    ensures shown { events.new ≡ events.old ++ spec.operand_reads (outer_in registers.now r31 (field_of b)) b }
    ensures few { length events.new ≤ length events.old + 1 }
{
    match b {
        Operand::Field(f) => read(registers, r31, f, events),
        Operand::Imm(n) => u32::from(n),
    }
}

/// The offset of an access, which is in none of R30 and R31.
fn offset(registers: &[u8], b: Operand) -> u32
    requires low { IsTrue (is_low_operand b) }
    requires whole { length registers.now ≡ 124 }
    ensures { result ≡ spec.operand_value registers.now 0 b }
{
    match b {
        Operand::Field(f) => low_field(registers, f),
        Operand::Imm(n) => u32::from(n),
    }
}

fn base(registers: &[u8], b: Base) -> u32
    requires low { IsTrue (is_low_base b) }
    requires whole { length registers.now ≡ 124 }
    ensures { result ≡ base_value registers.now b }
{
    match b {
        Base::Reg(r) => register(registers, r),
        Base::Constant(c) => c.address(),
    }
}

/// The address that an access begins at.
pub fn address(registers: &[u8], a: &Access) -> u32
    requires { length registers.now ≡ 124 }
    ensures { result ≡ address_of registers.now a.now }
{
    base(registers, a.base).wrapping_add(offset(registers, a.offset))
}

fn read_event(place: Place, value: u32) -> Event
    ensures { result ≡ Event.Read place B4 value }
{
    Event::Read {
        place,
        width: Width::B4,
        value,
    }
}

fn write_event(place: Place, value: u32) -> Event
    ensures { result ≡ Event.Write place B4 value }
{
    Event::Write {
        place,
        width: Width::B4,
        value,
    }
}

/// What a write to a part of R31 gives it.
fn given_to_r31(part: Part, n: u32) -> u32
    ensures { result ≡ spec.given_to_r31 part n }
{
    match part {
        Part::B0 => n % 0x100,
        Part::B1 => n % 0x100 * 0x100,
        Part::B2 => n % 0x100 * 0x1_0000,
        Part::B3 => n % 0x100 * 0x100_0000,
        Part::W0 => n % 0x1_0000,
        Part::W1 => n % 0x1_0000 * 0x100,
        Part::W2 => n % 0x1_0000 * 0x1_0000,
        Part::All => n,
    }
}

fn set_field(registers: &mut [u8], d: Field, n: u32)
    requires kept { d.reg < 31 }
    requires whole { length registers.old ≡ 124 }
    ensures { registers.new ≡ spec.with_field d n registers.old }
{
    let at = 4 * usize::from(d.reg) + first_byte(d.part);
    let width = width_of(d.part);
    low_bytes(width, n, &mut registers[at..at + bytes(width) as usize]);
}

/// Writes a number, cut to the field, with its event.
pub fn write(registers: &mut [u8], d: Field, n: u32, events: &mut Events)
    requires whole { length registers.old ≡ 124 }
    requires room { length events.old < 40 }
    ensures registers { registers.new ≡ spec.with_field d n registers.old }
    ensures shown { events.new ≡ events.old ++ spec.field_writes d n registers.old }
    ensures few { length events.new ≤ length events.old + 1 }
{
    if d.reg == 31 {
        events.push(write_event(Place::Reg31, given_to_r31(d.part, n)));
        return;
    }
    set_field(registers, d, n);
    if d.reg == 30 {
        events.push(write_event(Place::Reg30, register(registers, 30)));
    }
}
