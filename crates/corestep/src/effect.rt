//! What each instruction does, format by format.

ghost use Rattle.std.specs.Prelude.{◌≡◌, ◌+◌, ◌*◌, ◌≤◌, ◌<◌, ◌++◌, ◌∷◌, [], take, length, true, false, if◌then◌else◌};
ghost use Rattle.std.specs.Int.{w32, bit_not};
ghost use Rattle.prutrace.specs.declared.event.Event.TheVariants as Event;
ghost use Rattle.corestep.specs.declared.goes.Goes.TheVariants as Goes;
ghost use Rattle.corestep.specs.Compute as compute;
ghost use Rattle.corestep.specs.Fields as fields;
ghost use Rattle.corestep.specs.Memory as memory;
ghost use Rattle.corestep.specs.Effect as spec;
ghost use Rattle.corestep.specs.Pieces as pieces;
ghost use Rattle.prunum.specs.Bytes.{little_bytes};
ghost use Rattle.prunum.specs.declared.width.Width.TheVariants.{B4};
ghost use Rattle.prutrace.specs.declared.event.Place.TheVariants as Place;
ghost use Rattle.corestep.specs.Given.{outer_of, outer_in, field_of, field_in, effect_of};
ghost use Rattle.isa.specs.declared.inst.Inst.TheVariants as Inst;

use crate::bytes::{put, range};
use crate::compute::{computed, is_taken, leftmost};
use crate::fields::{address, read, read_operand, register, write};
use crate::goes::Goes;
use crate::memory::{is_private, put_private};
use crate::out::{Events, Input, StepOut};
use crate::pieces::{access_event, bank_number, push_pieces};
use isa::{Access, AluOp, Bank, Condition, Field, Inst, Jump, Operand, Transfer};
use prunum::Width;
use prutrace::{Event, Place};

/// The two sources of an instruction.
#[derive(Clone, Copy)]
struct Sources {
    a: u32,
    b: u32,
}

fn read_sources(registers: &[u8], r31: u32, a: Field, b: Operand, events: &mut Events) -> Sources
    requires whole { length registers.now ≡ 124 }
    requires room { length events.old ≤ 4 }
    ensures a { result.a ≡ fields.field_value registers.now (outer_of registers.now r31 a) a }
    ensures b { result.b ≡ fields.operand_value registers.now (outer_in registers.now r31 (field_of b)) b }
    ensures shown { events.new ≡ events.old ++ (fields.field_reads (outer_of registers.now r31 a) a
        ++ fields.operand_reads (outer_in registers.now r31 (field_of b)) b) }
    ensures few { length events.new ≤ length events.old + 2 }
{
    let first = read(registers, r31, a, events);
    let second = read_operand(registers, r31, b, events);
    Sources {
        a: first,
        b: second,
    }
}

/// Computes, and writes what it computed.
fn alu(
    registers: &mut [u8],
    input: &Input,
    op: AluOp,
    d: Field,
    a: Field,
    b: Operand,
    events: &mut Events,
)
    requires whole { length registers.old ≡ 124 }
    requires room { length events.old ≤ 4 }
    ensures registers { registers.new ≡ (effect_of 0 registers.old [] input.now (Inst.Alu op d a b)).registers }
    ensures shown { events.new ≡ events.old ++ (effect_of 0 registers.old [] input.now (Inst.Alu op d a b)).events }
    ensures few { length events.new ≤ length events.old + 3 }
{
    let from = read_sources(registers, input.r31, a, b, events);
    write(registers, d, computed(op, from.a, from.b), events);
}

fn lmbd(registers: &mut [u8], input: &Input, d: Field, a: Field, b: Operand, events: &mut Events)
    requires whole { length registers.old ≡ 124 }
    requires room { length events.old ≤ 4 }
    ensures registers { registers.new ≡ (effect_of 0 registers.old [] input.now (Inst.Lmbd d a b)).registers }
    ensures shown { events.new ≡ events.old ++ (effect_of 0 registers.old [] input.now (Inst.Lmbd d a b)).events }
    ensures few { length events.new ≤ length events.old + 3 }
{
    let from = read_sources(registers, input.r31, a, b, events);
    write(registers, d, leftmost(from.a, from.b), events);
}

fn not(registers: &mut [u8], input: &Input, d: Field, a: Field, events: &mut Events)
    requires whole { length registers.old ≡ 124 }
    requires room { length events.old ≤ 4 }
    ensures registers { registers.new ≡ (effect_of 0 registers.old [] input.now (Inst.Not d a)).registers }
    ensures shown { events.new ≡ events.old ++ (effect_of 0 registers.old [] input.now (Inst.Not d a)).events }
    ensures few { length events.new ≤ length events.old + 3 }
{
    let n = read(registers, input.r31, a, events);
    write(registers, d, !n, events);
}

/// The number of the word that a jump goes to.
fn jump(registers: &[u8], input: &Input, to: Jump, events: &mut Events) -> u16
    requires whole { length registers.now ≡ 124 }
    requires room { length events.old ≤ 4 }
    ensures value { result ≡ spec.jump_number registers.now (outer_in registers.now input.now.r31 (field_in to)) to }
    ensures shown { events.new ≡ events.old ++ spec.jump_reads (outer_in registers.now input.now.r31 (field_in to)) to }
    ensures few { length events.new ≤ length events.old + 1 }
{
    match to {
        Jump::Field(f) => (read(registers, input.r31, f, events) % 0x1_0000) as u16,
        Jump::Word(n) => n,
    }
}

/// Jumps, and writes the number of the next word.
fn jal(
    registers: &mut [u8],
    input: &Input,
    behind: u32,
    d: Field,
    to: Jump,
    events: &mut Events,
) -> u16
    requires whole { length registers.old ≡ 124 }
    requires room { length events.old ≤ 4 }
    ensures goes { Goes.Number result ≡ (effect_of behind registers.old [] input.now (Inst.Jal d to)).goes }
    ensures registers { registers.new ≡ (effect_of behind registers.old [] input.now (Inst.Jal d to)).registers }
    ensures shown { events.new ≡ events.old ++ (effect_of behind registers.old [] input.now (Inst.Jal d to)).events }
    ensures few { length events.new ≤ length events.old + 3 }
{
    let n = jump(registers, input, to, events);
    write(registers, d, behind, events);
    n
}

/// Where a branch goes on.
fn branch(
    registers: &[u8],
    input: &Input,
    condition: Condition,
    a: Field,
    b: Operand,
    events: &mut Events,
) -> Goes
    requires whole { length registers.now ≡ 124 }
    requires room { length events.old ≤ 4 }
    ensures goes { result ≡ (if compute.is_taken condition (fields.field_value registers.now (outer_of registers.now input.now.r31 a) a)
        (fields.operand_value registers.now (outer_in registers.now input.now.r31 (field_of b)) b) then Goes.Target else Goes.Behind) }
    ensures shown { events.new ≡ events.old ++ (fields.field_reads (outer_of registers.now input.now.r31 a) a
        ++ fields.operand_reads (outer_in registers.now input.now.r31 (field_of b)) b) }
    ensures few { length events.new ≤ length events.old + 2 }
{
    let from = read_sources(registers, input.r31, a, b, events);
    if is_taken(condition, from.a, from.b) {
        Goes::Target
    } else {
        Goes::Behind
    }
}

/// From memory into registers.
#[tactic(auto, using(crate::proofs::PieceLemmas::few_events))]
fn load(registers: &mut [u8], ram: &[u8], input: &Input, a: &Access, events: &mut Events)
    requires whole { length registers.old ≡ 124 }
    requires size { length ram.now ≡ 0x1E00 }
    requires room { length events.old ≤ 4 }
    ensures registers { registers.new ≡ (effect_of 0 registers.old ram.now input.now (Inst.Load a.now)).registers }
    ensures shown { events.new ≡ events.old ++ (effect_of 0 registers.old ram.now input.now (Inst.Load a.now)).events }
    ensures few { length events.new ≤ length events.old + 31 }
{
    let addr = address(registers, a);
    let at = 4 * usize::from(a.first) + usize::from(a.byte);
    let len = usize::from(a.len);
    if is_private(addr, len) {
        put(registers, at, range(ram, addr as usize, len));
    } else {
        let bytes = &input.bytes[..len];
        put(registers, at, bytes);
        push_pieces(events, false, addr, bytes);
    }
}

/// From registers into memory.
#[tactic(auto, using(crate::proofs::PieceLemmas::few_events))]
fn store(registers: &[u8], ram: &mut [u8], input: &Input, a: &Access, out: &mut StepOut)
    requires whole { length registers.now ≡ 124 }
    requires size { length ram.old ≡ 0x1E00 }
    requires none { (out.old.at ≡ 0) × (out.old.stored ≡ []) }
    requires room { length out.old.events ≤ 4 }
    ensures ram { ram.new ≡ (effect_of 0 registers.now ram.old input.now (Inst.Store a.now)).ram }
    ensures shown { out.new.events ≡ out.old.events ++ (effect_of 0 registers.now ram.old input.now (Inst.Store a.now)).events }
    ensures at { out.new.at ≡ (effect_of 0 registers.now ram.old input.now (Inst.Store a.now)).at }
    ensures stored { out.new.stored ≡ (effect_of 0 registers.now ram.old input.now (Inst.Store a.now)).stored }
    ensures stop { out.new.stop ≡ out.old.stop }
    ensures few { length out.new.events ≤ length out.old.events + 31 }
{
    let addr = address(registers, a);
    let bytes = range(
        registers,
        4 * usize::from(a.first) + usize::from(a.byte),
        usize::from(a.len),
    );
    if is_private(addr, bytes.len()) {
        put(ram, addr as usize, bytes);
    } else {
        put_private(ram, addr, bytes);
        push_pieces(&mut out.events, true, addr, bytes);
        out.at = addr;
        out.stored.set(bytes);
    }
}

/// From a bank of the scratchpad into registers.
fn xin(registers: &mut [u8], input: &Input, t: &Transfer, events: &mut Events)
    requires whole { length registers.old ≡ 124 }
    requires room { length events.old ≤ 4 }
    ensures registers { registers.new ≡ (effect_of 0 registers.old [] input.now (Inst.Xin t.now)).registers }
    ensures shown { events.new ≡ events.old ++ (effect_of 0 registers.old [] input.now (Inst.Xin t.now)).events }
    ensures few { length events.new ≤ length events.old + 4 }
{
    let count = usize::from(t.count);
    for k in 0..count {
        move_in(registers, events, t.bank, t.first + k as u8, input.pads[k]);
    }
}

fn move_in(registers: &mut [u8], events: &mut Events, bank: Bank, reg: u8, value: u32)
    requires below { reg < 30 }
    requires whole { length registers.old ≡ 124 }
    requires room { length events.old < 40 }
    ensures registers { registers.new ≡ fields.with_bytes (4 * reg) (little_bytes 4 value) registers.old }
    ensures shown { events.new ≡ events.old ++ pieces.access_event false (Place.Pad (pieces.bank_number bank) reg) B4 value ∷ [] }
{
    put(registers, 4 * usize::from(reg), &value.to_le_bytes());
    let bank = bank_number(bank);
    events.push(access_event(false, Place::Pad { bank, reg }, Width::B4, value));
}

/// From registers into a bank of the scratchpad.
fn xout(registers: &[u8], t: &Transfer, events: &mut Events)
    requires whole { length registers.now ≡ 124 }
    requires room { length events.old ≤ 4 }
    ensures shown { events.new ≡ events.old ++ (spec.moved_out registers.now [] t.now).events }
    ensures few { length events.new ≤ length events.old + 4 }
{
    for k in 0..t.count {
        move_out(registers, events, t.bank, t.first + k);
    }
}

fn move_out(registers: &[u8], events: &mut Events, bank: Bank, reg: u8)
    requires below { reg < 30 }
    requires whole { length registers.now ≡ 124 }
    requires room { length events.old < 40 }
    ensures { events.new ≡ events.old
        ++ pieces.access_event true (Place.Pad (pieces.bank_number bank) reg) B4 (fields.register registers.now reg) ∷ [] }
{
    let bank = bank_number(bank);
    let value = register(registers, reg);
    events.push(access_event(true, Place::Pad { bank, reg }, Width::B4, value));
}

/// What an instruction does to registers and RAM, and what shows of it; the answer is where it goes on. `behind` is the number of the
/// next word.
pub fn act(
    registers: &mut [u8],
    ram: &mut [u8],
    behind: u32,
    i: &Inst,
    input: &Input,
    out: &mut StepOut,
) -> Goes
    requires whole { length registers.old ≡ 124 }
    requires size { length ram.old ≡ 0x1E00 }
    requires none { (out.old.at ≡ 0) × (out.old.stored ≡ []) }
    requires room { length out.old.events ≤ 4 }
    ensures registers { registers.new ≡ (effect_of behind registers.old ram.old input.now i.now).registers }
    ensures ram { ram.new ≡ (effect_of behind registers.old ram.old input.now i.now).ram }
    ensures shown { out.new.events ≡ out.old.events ++ (effect_of behind registers.old ram.old input.now i.now).events }
    ensures at { out.new.at ≡ (effect_of behind registers.old ram.old input.now i.now).at }
    ensures stored { out.new.stored ≡ (effect_of behind registers.old ram.old input.now i.now).stored }
    ensures goes { result ≡ (effect_of behind registers.old ram.old input.now i.now).goes }
    ensures stop { out.new.stop ≡ out.old.stop }
    ensures few { length out.new.events ≤ length out.old.events + 31 }
{
    match *i {
        Inst::Alu { op, d, a, b } => alu(registers, input, op, d, a, b, &mut out.events),
        Inst::Not { d, a } => not(registers, input, d, a, &mut out.events),
        Inst::Jmp { to } => return Goes::Number(jump(registers, input, to, &mut out.events)),
        Inst::Jal { d, to } => return Goes::Number(jal(
            registers,
            input,
            behind,
            d,
            to,
            &mut out.events,
        )),
        Inst::Ldi { d, n } => write(registers, d, u32::from(n), &mut out.events),
        Inst::Lmbd { d, a, b } => lmbd(registers, input, d, a, b, &mut out.events),
        Inst::Halt => return halt(&mut out.events),
        Inst::Xin { moved } => xin(registers, input, &moved, &mut out.events),
        Inst::Xout { moved } => xout(registers, &moved, &mut out.events),
        Inst::Loop { .. } => return Goes::Around,
        Inst::Branch {
            condition,
            a,
            b,
            ..
        } => return branch(registers, input, condition, a, b, &mut out.events),
        Inst::Qba { .. } => return Goes::Target,
        Inst::Load { access } => load(registers, ram, input, &access, &mut out.events),
        Inst::Store { access } => store(registers, ram, input, &access, out),
    }
    Goes::Behind
}

fn halt(events: &mut Events) -> Goes
    requires { length events.old ≤ 4 }
    ensures goes { result ≡ Goes.Nowhere }
    ensures shown { events.new ≡ events.old ++ Event.Halted ∷ [] }
    ensures few { length events.new ≤ length events.old + 1 }
{
    events.push(Event::Halted);
    Goes::Nowhere
}
