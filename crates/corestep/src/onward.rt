//! Where a core goes on behind a word, and LOOP.

ghost use Rattle.std.specs.Prelude.{◌≡◌, ◌<◌};
ghost use Rattle.corestep.specs.Core as spec;
ghost use Rattle.corestep.specs.Step.{target_of, turning_from, goes_on, stop_of};

use crate::goes::Goes;
use crate::out::Stop;
use isa::Inst;

/// The LOOP that a core runs: the words from `first` on, `end` being the one behind them, and how many turns are left behind this one.
#[derive(Clone, Copy, Debug, PartialEq, Eq)]
pub struct Turning {
    pub first: u16,
    pub end: u16,
    pub left: u16,
}

/// The number of a core's next word, and the LOOP that it then runs.
#[derive(Clone, Copy, Debug, PartialEq, Eq)]
pub struct Onward {
    pub pc: u16,
    pub turning: Option<Turning>,
}

fn plain(pc: u16, turning: Option<Turning>) -> Onward
    ensures { result ≡ record { pc = pc; turning = turning } }
{
    Onward { pc, turning }
}

/// A core comes to a counter.
fn come_to(pc: u16, turning: Option<Turning>) -> Onward
    ensures { result ≡ spec.onward pc turning }
{
    match turning {
        None => plain(pc, None),
        Some(t) => come_in(pc, t),
    }
}

/// The same in a LOOP.
fn come_in(pc: u16, t: Turning) -> Onward
    ensures { result ≡ spec.onward pc (Some t) }
{
    if pc == t.end {
        if t.left == 0 {
            return plain(pc, None);
        }
        let left = t.left - 1;
        return plain(t.first, Some(Turning { left, ..t }));
    }
    if t.first <= pc && pc < t.end {
        plain(pc, Some(t))
    } else {
        plain(pc, None)
    }
}

/// The word that a branch goes to.
fn target(pc: u16, i: &Inst) -> u16
    ensures { result ≡ target_of pc i.now }
{
    match *i {
        Inst::Branch { offset, .. } | Inst::Qba { offset } => offset.target(pc),
        _ => pc,
    }
}

/// The LOOP that begins behind the word.
fn begun(pc: u16, i: &Inst) -> Option<Turning>
    requires { pc < 2048 }
    ensures { result ≡ turning_from pc i.now }
{
    match *i {
        Inst::Loop { body } => Some(Turning {
            first: pc + 1,
            end: pc + 1 + u16::from(body.length),
            left: body.count - 1,
        }),
        _ => None,
    }
}

/// Where a core goes on behind the instruction at its counter.
pub fn goes_on(pc: u16, turning: Option<Turning>, i: &Inst, goes: Goes) -> Onward
    requires { pc < 2048 }
    ensures { result ≡ goes_on pc turning i.now goes }
{
    match goes {
        Goes::Behind => come_to(pc + 1, turning),
        Goes::Number(n) => come_to(n, turning),
        Goes::Target => come_to(target(pc, i), turning),
        Goes::Around => plain(pc + 1, begun(pc, i)),
        Goes::Nowhere => plain(pc, turning),
    }
}

/// How a core stands behind a word.
pub fn stop_of(goes: Goes) -> Stop
    ensures { result ≡ stop_of goes }
{
    match goes {
        Goes::Nowhere => Stop::Halted,
        _ => Stop::Going,
    }
}
