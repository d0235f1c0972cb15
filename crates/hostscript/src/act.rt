//! The fields of an act's line.

ghost use Rattle.std.specs.Prelude.{◌≡◌, Ok};
ghost use Rattle.hostscript.specs.Acts.{may_be_poked};
ghost use Rattle.hostscript.specs.Reading.{at_end, width_of, poke_of, poke_in, pins_in, event_in, start_in, action_in, act_in};

use crate::action::{Act, Action};
use crate::cause::ScriptCause;
use prunum::{Width, bytes};
use textline::{Decimal, Fields};

const LAST_CYCLE: u32 = 1_999_999;

const LAST_EVENT: u32 = 63;

const LAST_CORE: u32 = 1;

#[tactic(auto, unfolding(crate::specs::Reading::act_in))]
pub fn read_act(fields: &mut Fields<'_>) -> Result<Act, ScriptCause>
    ensures { result ≡ act_in fields.old }
{
    let cycle = fields.decimal().ok_or(ScriptCause::Form)?;
    let action = read_action(fields)?;
    let cycle = cycle.at_most(LAST_CYCLE).ok_or(ScriptCause::Range)?;
    Ok(Act { cycle, action })
}

#[tactic(auto, unfolding(crate::specs::Reading::action_in))]
fn read_action(fields: &mut Fields<'_>) -> Result<Action, ScriptCause>
    ensures { result ≡ action_in fields.old }
{
    let word = fields.word().ok_or(ScriptCause::Form)?;
    if word == b"poke".as_slice() {
        read_poke(fields)
    } else if word == b"pins".as_slice() {
        read_pins(fields)
    } else if word == b"event".as_slice() {
        read_event(fields)
    } else if word == b"start".as_slice() {
        read_start(fields)
    } else {
        Err(ScriptCause::Form)
    }
}

fn end(fields: &Fields<'_>) -> Result<(), ScriptCause>
    ensures { result ≡ at_end fields.now (Ok tt) }
{
    if fields.is_end() {
        Ok(())
    } else {
        Err(ScriptCause::Form)
    }
}

#[tactic(auto, unfolding(crate::specs::Reading::poke_in))]
fn read_poke(fields: &mut Fields<'_>) -> Result<Action, ScriptCause>
    ensures { result ≡ poke_in fields.old }
{
    let addr = fields.hex8().ok_or(ScriptCause::Form)?;
    let width = fields.decimal().ok_or(ScriptCause::Form)?;
    let value = fields.hex8().ok_or(ScriptCause::Form)?;
    end(fields)?;
    poke(addr, width, value).ok_or(ScriptCause::Range)
}

fn poke(addr: u32, width: Decimal, value: u32) -> Option<Action>
    ensures { result ≡ poke_of addr width value }
{
    let width = to_width(width)?;
    let greatest = match width {
        Width::B1 => 0xff,
        Width::B2 => 0xffff,
        Width::B4 => u32::MAX,
    };
    if is_pokable(addr) && addr % bytes(width) == 0 && value <= greatest {
        Some(Action::Poke { addr, width, value })
    } else {
        None
    }
}

fn to_width(number: Decimal) -> Option<Width>
    ensures { result ≡ width_of number }
{
    match number.at_most(4)? {
        1 => Some(Width::B1),
        2 => Some(Width::B2),
        4 => Some(Width::B4),
        _ => None,
    }
}

fn is_pokable(addr: u32) -> bool
    ensures { result ≡ may_be_poked addr }
{
    matches!(
        addr,
        0x1e00..=0x1fff | 0x3e00..=0x3fff | 0x10000..=0x12fff | 0x80000..=0x8ffff
    )
}

#[tactic(auto, unfolding(crate::specs::Reading::pins_in))]
fn read_pins(fields: &mut Fields<'_>) -> Result<Action, ScriptCause>
    ensures { result ≡ pins_in fields.old }
{
    let core = fields.decimal().ok_or(ScriptCause::Form)?;
    let bits = fields.hex4().ok_or(ScriptCause::Form)?;
    end(fields)?;
    let core = core.at_most(LAST_CORE).ok_or(ScriptCause::Range)? as u8;
    Ok(Action::Pins { core, bits })
}

#[tactic(auto, unfolding(crate::specs::Reading::event_in))]
fn read_event(fields: &mut Fields<'_>) -> Result<Action, ScriptCause>
    ensures { result ≡ event_in fields.old }
{
    let number = fields.decimal().ok_or(ScriptCause::Form)?;
    end(fields)?;
    let number = number.at_most(LAST_EVENT).ok_or(ScriptCause::Range)?;
    Ok(Action::Event(number as u8))
}

#[tactic(auto, unfolding(crate::specs::Reading::start_in))]
fn read_start(fields: &mut Fields<'_>) -> Result<Action, ScriptCause>
    ensures { result ≡ start_in fields.old }
{
    let core = fields.decimal().ok_or(ScriptCause::Form)?;
    end(fields)?;
    let core = core.at_most(LAST_CORE).ok_or(ScriptCause::Range)?;
    Ok(Action::Start(core as u8))
}
