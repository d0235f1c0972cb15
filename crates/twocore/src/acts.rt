//! The script's acts.

ghost use Rattle.std.specs.Prelude.{◌≡◌, ◌<◌};
ghost use Rattle.std.specs.List.{AllByRecursion};
ghost use Rattle.hostscript.specs.Acts.{IsAct, IsAction, InOrder};
ghost use Rattle.hostscript.specs.declared.action.Action.TheVariants as Action;
ghost use Rattle.twocore.specs.Machine as spec;

use crate::side::Side;
use crate::spot::Spot;
use crate::store::store;
use crate::world::World;
use hostscript::{Act, Action};
use prunum::{Width, bytes, low_bytes};

/// The acts of a cycle.
pub fn acts_at(t: u32, acts: &[Act]) -> &[Act]
    requires { InOrder acts.now }
    ensures { result.now ≡ spec.acts_at t acts.now }
{
    let from = acts.partition_point(|a| a.cycle < t);
    let (_, rest) = acts.split_at(from);
    let count = rest.partition_point(|a| a.cycle <= t);
    let (here, _) = rest.split_at(count);
    here
}

fn poke(own: &mut Side, other: &mut Side, world: &mut World, addr: u32, width: Width, value: u32)
    ensures { record { own = own.new; other = other.new; world = world.new }
        ≡ spec.acted (record { own = own.old; other = other.old; world = world.old }) (Action.Poke addr width value) }
{
    let mut four = [0; 4];
    let written = &mut four[..bytes(width) as usize];
    low_bytes(width, value, written);
    store(own, other, world, Spot::of(addr), written);
}

/// An act, as core 0 sees the addresses.
fn act(own: &mut Side, other: &mut Side, world: &mut World, action: &Action)
    requires { IsAction action.now }
    ensures { record { own = own.new; other = other.new; world = world.new }
        ≡ spec.acted (record { own = own.old; other = other.old; world = world.old }) action.now }
{
    match *action {
        Action::Poke { addr, width, value } => poke(own, other, world, addr, width, value),
        Action::Pins { core, bits } => world.pins.set_input(core, bits),
        Action::Event(number) => world.intc.signal(number),
        Action::Start(0) => own.started = true,
        Action::Start(_) => other.started = true,
    }
}

/// Acts in their order.
pub fn act_all(own: &mut Side, other: &mut Side, world: &mut World, acts: &[Act])
    requires { AllByRecursion IsAct acts.now }
    ensures { record { own = own.new; other = other.new; world = world.new }
        ≡ spec.all_acted (record { own = own.old; other = other.old; world = world.old }) acts.now }
{
    let mut rest = acts;
    while let Some((next, behind)) = rest.split_first() {
        act(own, other, world, &next.action);
        rest = behind;
    }
}
