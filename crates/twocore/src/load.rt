//! What a word reads outside its core.

ghost use Rattle.std.specs.Prelude.{◌≡◌, ◌+◌, ◌*◌, ◌/◌, ◌%◌, ◌^◌, ◌<◌, ◌≤◌, [], map, length};
ghost use Rattle.std.specs.List.{range_with_len};
ghost use Rattle.corestep.specs.Pieces as pieces;
ghost use Rattle.twocore.specs.World as spec;
ghost use Rattle.twocore.specs.Word as word;
ghost use Rattle.isa.specs.declared.inst.Inst.TheVariants as Inst;
ghost use Rattle.twocore.specs.declared.side.Side.{Side};

use crate::ram::write;
use crate::side::{Side, ram_byte};
use crate::spot::Spot;
use crate::world::World;
use corestep::{Core, Input, Need};
use devices::{Intc, Pads};
use isa::{Access, Bank, Inst, Transfer};
use prunum::Width;

/// The byte so many places behind the first of an access.
pub fn byte_behind(own: &Side, other: &Side, world: &World, spot: Spot, k: u8) -> u8
    ensures { result ≡ spec.byte_behind (record { own = own.now; other = other.now; world = world.now }) spot k }
{
    match spot {
        Spot::Own(at) => ram_byte(own, u32::from(at) + u32::from(k)),
        Spot::Other(at) => ram_byte(other, u32::from(at) + u32::from(k)),
        Spot::Shared(at) => world.shared.get(usize::from(at) + usize::from(k)),
        Spot::Outside(at) => world.outside.get(usize::from(at) + usize::from(k)),
        Spot::Controller(_) | Spot::Nothing => 0,
    }
}

#[tactic(auto, unfolding(corestep::specs::Core::zeros))]
fn clear_bytes(bytes: &mut [u8; 124])
    ensures { bytes.new ≡ word.filled 124 [] }
{
    *bytes = [0; 124];
}

#[tactic(auto, unfolding(corestep::specs::Core::zeros))]
fn clear_pads(pads: &mut [u32; 4])
    ensures { pads.new ≡ word.filled 4 [] }
{
    *pads = [0; 4];
}

/// Bytes of memories.
fn memory_bytes(own: &Side, other: &Side, world: &World, spot: Spot, len: u8, bytes: &mut [u8; 124])
    requires { len ≤ 124 }
    ensures { bytes.new ≡ word.filled 124
        (map (spec.byte_behind (record { own = own.now; other = other.now; world = world.now }) spot) (range_with_len 0 len)) }
{
    clear_bytes(bytes);
    for k in 0..len {
        bytes[usize::from(k)] = byte_behind(own, other, world, spot, k);
    }
}

/// Bytes of the interrupt controller: only pieces of four count.
fn controller_bytes(intc: &Intc, at: u16, len: u8, bytes: &mut [u8; 124])
    requires { len ≤ 124 }
    ensures { bytes.new ≡ word.filled 124 (spec.controller_bytes intc.now at len) }
{
    clear_bytes(bytes);
    for k in 0..len / 4 {
        let value = intc.read(u32::from(at) + 4 * u32::from(k), Width::B4);
        write(bytes, 4 * usize::from(k), &value.to_le_bytes());
    }
}

fn bytes_in(own: &Side, other: &Side, world: &World, spot: Spot, len: u8, bytes: &mut [u8; 124])
    requires { len ≤ 124 }
    ensures { bytes.new ≡ word.filled 124 (spec.bytes_in (record { own = own.now; other = other.now; world = world.now }) spot len) }
{
    match spot {
        Spot::Controller(at) => controller_bytes(&world.intc, at, len, bytes),
        _ => memory_bytes(own, other, world, spot, len, bytes),
    }
}

/// The address that an access needs.
fn address(need: Need) -> u32
    ensures { result ≡ word.needed_address need }
{
    match need {
        Need::Access { addr, .. } => addr,
        _ => 0,
    }
}

/// The address of a memory word.
pub fn access_at(core: &Core, i: &Inst) -> u32
    ensures { result ≡ word.access_at core.now i.now }
{
    match i {
        Inst::Load { .. } => address(core.need_of(i)),
        Inst::Store { .. } => address(core.need_of(i)),
        _ => 0,
    }
}

fn load(own: &Side, other: &Side, world: &World, addr: u32, access: &Access, bytes: &mut [u8; 124])
    requires { addr ≡ word.access_at own.now.core (Inst.Load access.now) }
    ensures { bytes.new ≡ word.filled 124
        (word.bytes_for (record { own = own.now; other = other.now; world = world.now }) (Inst.Load access.now)) }
{
    if u64::from(addr) + u64::from(access.len) <= 0x1e00 {
        clear_bytes(bytes);
    } else {
        bytes_in(own, other, world, Spot::of(addr), access.len, bytes);
    }
}

fn bytes_for(own: &Side, other: &Side, world: &World, i: &Inst, bytes: &mut [u8; 124])
    ensures { bytes.new ≡ word.filled 124 (word.bytes_for (record { own = own.now; other = other.now; world = world.now }) i.now) }
{
    match i {
        Inst::Load { access } => load(own, other, world, access_at(&own.core, i), access, bytes),
        _ => clear_bytes(bytes),
    }
}

/// The number of a bank.
pub fn bank_number(bank: Bank) -> u8
    ensures value { result ≡ pieces.bank_number bank }
    ensures below { result < 3 }
{
    match bank {
        Bank::Bank0 => 0,
        Bank::Bank1 => 1,
        Bank::Bank2 => 2,
    }
}

/// Registers of the scratchpad.
fn pads_in(pads: &Pads, moved: &Transfer, values: &mut [u32; 4])
    ensures { values.new ≡ word.filled 4 (spec.pads_at pads.now (pieces.bank_number moved.now.bank) moved.now.first moved.now.count) }
{
    let bank = bank_number(moved.bank);
    clear_pads(values);
    for k in 0..moved.count {
        values[usize::from(k)] = pads.get(bank, moved.first + k);
    }
}

fn pads_for(world: &World, i: &Inst, values: &mut [u32; 4])
    ensures { (own other : Side) → values.new ≡ word.filled 4 (word.pads_for (record { own = own; other = other; world = world.now }) i.now) }
{
    match i {
        Inst::Xin { moved } => pads_in(&world.pads, moved, values),
        _ => clear_pads(values),
    }
}

/// R31 as a core reads it.
fn r31_of(core: u8, world: &World) -> u32
    requires { core < 2 }
    ensures { result ≡ spec.r31_of core world.now }
{
    u32::from(world.pins.input(core)) + world.intc.host_bits() % 4 * (1 << 30)
}

/// Puts down what the word at the core's counter reads, as all stands now.
pub fn fill_input(core: u8, own: &Side, other: &Side, world: &World, i: &Inst, input: &mut Input)
    requires { core < 2 }
    ensures { input.new ≡ word.input_for core (record { own = own.now; other = other.now; world = world.now }) i.now }
{
    input.r31 = r31_of(core, world);
    bytes_for(own, other, world, i, &mut input.bytes);
    pads_for(world, i, &mut input.pads);
}
