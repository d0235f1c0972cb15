ghost use Rattle.std.specs.Prelude.{◌≡◌, ℕ, ◌<◌, ◌^◌, ◌%◌, ◌↔◌, ◌&&◌, false, [], ◌==◌, nat_lt, replicate, slice_index, slice_set, bit_or};
ghost use Rattle.std.specs.Int.{bit_at};
ghost use Rattle.devices.specs.Controller as spec;

use crate::register::Register;
use prunum::Width;
use std::marker::Model;

/// The interrupt controller: 64 events, each with a channel, and 10 channels, each with a host.
///
/// It is a part of the one in the AM335x reference manual, chapter PRU-ICSS. Only aligned accesses of 4 bytes count; others, and
/// offsets without a register, read 0 and change nothing.
#[derive(Clone, Copy, Debug, PartialEq, Eq)]
pub struct Intc {
    on: bool,
    hosts_on: [bool; 10],
    pending: u64,
    enabled: u64,
    channels: [u8; 64],
    hosts: [u8; 10],
}

impl Model for Intc {
    ghost use Rattle.devices.specs.Controller.{Controller};

    ghost Value = { Controller };

    ghost view = { λ a. record {
      on = a.on;
      hosts_on = a.hosts_on;
      pending = a.pending;
      enabled = a.enabled;
      channels = a.channels;
      hosts = a.hosts;
    } };

    ghost inverse = { λ c. record {
      on = c.on;
      hosts_on = c.hosts_on;
      pending = c.pending;
      enabled = c.enabled;
      channels = c.channels;
      hosts = c.hosts;
    } };
}

// Sets an entry of a table, where there is one.
fn put<T: Copy>(table: &mut [T], at: usize, value: T)
    ensures { table.new ≡ slice_set table.old at value }
{
    if at < table.len() {
        table[at] = value;
    }
}

// An entry of a table, or 0 where there is none.
fn entry_at(table: &[u8], at: usize) -> u8
    ensures { result ≡ slice_index table.now at }
{
    table.get(at).copied().unwrap_or(0)
}

fn four_at(table: &[u8], four: u32) -> u32
    requires { four < 16 }
    ensures { result ≡ spec.four_at table.now four }
{
    let first = 4 * four as usize;
    u32::from_le_bytes([
        entry_at(table, first),
        entry_at(table, first + 1),
        entry_at(table, first + 2),
        entry_at(table, first + 3),
    ])
}

fn put_four(table: &mut [u8], four: u32, word: u32)
    requires { four < 16 }
    ensures { table.new ≡ spec.with_four table.old four word }
{
    let first = 4 * four as usize;
    put(table, first, (word & 15) as u8);
    put(table, first + 1, (word >> 8 & 15) as u8);
    put(table, first + 2, (word >> 16 & 15) as u8);
    put(table, first + 3, (word >> 24 & 15) as u8);
}

fn half_of(bits: u64, half: u32) -> u32
    requires { half < 2 }
    ensures { result ≡ spec.half_of bits half }
{
    (bits >> (32 * half) & 0xffff_ffff) as u32
}

fn as_half(half: u32, word: u32) -> u64
    requires { half < 2 }
    ensures { result ≡ spec.as_half half word }
{
    u64::from(word) << (32 * half)
}

impl Intc {
    ghost use Rattle.devices.specs.Register.{IsPresent};
    ghost use Rattle.devices.specs.Controller as spec;
    ghost use Rattle.devices.specs.Controller.{read_at, written_at};
    ghost use Rattle.devices.specs.HostBits.{is_enabled, bit_of, host_bits_of, Interrupts};

    /// All bits, channels and hosts are 0.
    pub fn new() -> Intc
        ensures { result ≡ record {
          on = false;
          hosts_on = replicate 10 false;
          pending = 0;
          enabled = 0;
          channels = replicate 64 0;
          hosts = replicate 10 0;
        } }
    {
        Intc {
            on: false,
            hosts_on: [false; 10],
            pending: 0,
            enabled: 0,
            channels: [0; 64],
            hosts: [0; 10],
        }
    }

    /// Makes an event pending.
    pub fn signal(&mut self, event: u8)
        requires { event < 64 }
        ensures { self.new ≡ record self.old { pending = bit_or self.old.pending (2 ^ event) } }
    {
        self.pending |= 1 << event;
    }

    /// What an access reads at an offset from the controller's first byte.
    pub fn read(&self, at: u32, w: Width) -> u32
        ensures { result ≡ read_at self.now at w }
    {
        match (w, Register::at(at)) {
            (Width::B4, Some(register)) => self.shown(register),
            _ => 0,
        }
    }

    /// Writes the low bytes of a value at an offset from the controller's first byte.
    pub fn write(&mut self, at: u32, w: Width, v: u32)
        ensures { self.new ≡ written_at self.old at w v }
    {
        if let (Width::B4, Some(register)) = (w, Register::at(at)) {
            self.set(register, v);
        }
    }

    fn shown(&self, register: Register) -> u32
        requires { IsPresent register }
        ensures { result ≡ spec.shown self.now register }
    {
        match register {
            Register::GlobalEnable => u32::from(self.on),
            Register::PendingBits(half) => half_of(self.pending, half),
            Register::ActiveBits(half) => half_of(self.pending & self.enabled, half),
            Register::EnabledBits(half) => half_of(self.enabled, half),
            Register::Channels(four) => four_at(&self.channels, four),
            Register::Hosts(four) => four_at(&self.hosts, four),
            _ => 0,
        }
    }

    fn set(&mut self, register: Register, word: u32)
        requires { IsPresent register }
        ensures { self.new ≡ spec.after self.old register word }
    {
        let event = word % 64;
        match register {
            Register::GlobalEnable => self.on = word % 2 == 1,
            Register::SetPending => self.pending |= 1 << event,
            Register::ClearPending => self.pending &= !(1 << event),
            Register::EnableEvent => self.enabled |= 1 << event,
            Register::DisableEvent => self.enabled &= !(1 << event),
            Register::EnableHost => put(&mut self.hosts_on, word as usize, true),
            Register::DisableHost => put(&mut self.hosts_on, word as usize, false),
            Register::PendingBits(half) => self.pending |= as_half(half, word),
            Register::ActiveBits(half) => self.pending &= !as_half(half, word),
            Register::EnabledBits(half) => self.enabled |= as_half(half, word),
            Register::Channels(four) => put_four(&mut self.channels, four, word),
            Register::Hosts(four) => put_four(&mut self.hosts, four, word),
        }
    }

    /// The bits that the hosts see: bit h is that of host h.
    pub fn host_bits(&self) -> u32
        ensures value { result ≡ host_bits_of self.now }
        ensures interrupts { (host : ℕ) → (bit_at result host ≡ 1) ↔ Interrupts self.now host }
    {
        let mut bits = 0;
        if self.on {
            for event in 0..64 {
                if self.is_active(event) {
                    bits |= self.bit_behind(self.channels[event]);
                }
            }
        }
        bits
    }

    fn is_active(&self, event: usize) -> bool
        requires { event < 64 }
        ensures { result ≡ ((bit_at self.now.pending event == 1) && (bit_at self.now.enabled event == 1)) }
    {
        (self.pending & self.enabled) >> event & 1 == 1
    }

    // The bit of the enabled host that a channel leads to, or 0.
    fn bit_behind(&self, channel: u8) -> u32
        ensures { (host : ℕ) → bit_at result host ≡ bit_of (is_enabled self.now host
            && (nat_lt channel 10 && (slice_index self.now.hosts channel == host))) }
    {
        if channel >= 10 {
            return 0;
        }
        let host = entry_at(&self.hosts, usize::from(channel));
        if host < 10 && self.hosts_on[usize::from(host)] {
            1 << host
        } else {
            0
        }
    }
}
