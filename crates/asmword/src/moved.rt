//! What instructions move, and what LOOP runs.

ghost use Rattle.std.specs.Prelude.{◌≡◌, ◌<◌, ◌≤◌, ◌+◌, ◌-◌, ◌*◌, IfSome, Some};
ghost use Rattle.isa.specs.Decoded.{bank_at, transfer_at, body_at};
ghost use Rattle.isa.specs.Ranges.{is_transfer};
ghost use Rattle.isa.specs.Row.{device_number};
ghost use Rattle.isa.specs.Low.{is_low_base, is_low_operand};
ghost use Rattle.asmword.specs.Forms.{base_word, value_word, byte_part};
ghost use Rattle.asmword.specs.Instructions.{transfer_of, body_of, is_access, access_at, access_of};

use crate::form::Word;
use crate::operand::{byte, number, register, value};
use isa::{Access, Bank, Base, LoopBody, Operand, Part, Transfer};

fn bank(device: u8) -> Option<Bank>
    ensures value { result ≡ bank_at device }
    ensures number { IfSome result (λ b. device_number b ≡ device) }
{
    match device {
        10 => Some(Bank::Bank0),
        11 => Some(Bank::Bank1),
        12 => Some(Bank::Bank2),
        _ => None,
    }
}

fn transfer_at(device: u8, first: u8, count: u8) -> Option<Transfer>
    ensures value { result ≡ transfer_at device first count }
    ensures numbers { IfSome result (λ t. (device_number t.bank ≡ device) × (t.first ≡ first) × (t.count ≡ count)) }
{
    let bank = bank(device)?;
    if is_transfer(first, count) {
        Some(Transfer { bank, first, count })
    } else {
        None
    }
}

fn is_transfer(first: u8, count: u8) -> bool
    ensures { result ≡ is_transfer first count }
{
    1 <= count && count <= 4 && first <= 30 - count
}

#[tactic(auto, unfolding(crate::specs::Instructions::transfer_of))]
pub fn transfer(device: Word, first: Word, count: Word) -> Option<Transfer>
    ensures value { result ≡ transfer_of device first count }
    ensures device { IfSome result (λ t. Word.Number (device_number t.bank) ≡ device) }
    ensures first { IfSome result (λ t. Word.Field t.first Part.All ≡ first) }
    ensures count { IfSome result (λ t. Word.Number t.count ≡ count) }
{
    let device = number(device, 12)? as u8;
    let first = register(first)?;
    let count = number(count, 4)? as u8;
    transfer_at(device, first, count)
}

#[tactic(auto, unfolding(crate::specs::Instructions::body_of))]
pub fn body(count: Word) -> Option<LoopBody>
    ensures value { result ≡ body_of count }
    ensures word { IfSome result (λ b. Word.Number b.count ≡ count) }
    ensures least { IfSome result (λ b. b.length ≡ 1) }
{
    let count = number(count, 256)?;
    if 1 <= count {
        Some(least_body(count))
    } else {
        None
    }
}

fn least_body(count: u16) -> LoopBody
    requires least { 1 ≤ count }
    requires most { count ≤ 256 }
    ensures value { body_at (count - 1) 1 ≡ Some result }
    ensures count { result.count ≡ count }
    ensures length { result.length ≡ 1 }
{
    LoopBody { count, length: 1 }
}

fn is_low_base(base: Base) -> bool
    ensures { result ≡ is_low_base base }
{
    match base {
        Base::Reg(n) => n < 30,
        Base::Constant(_) => true,
    }
}

fn is_low_operand(operand: Operand) -> bool
    ensures { result ≡ is_low_operand operand }
{
    match operand {
        Operand::Field(f) => f.reg < 30,
        Operand::Imm(_) => true,
    }
}

fn is_access(first: u8, byte: u8, len: u8, base: Base, offset: Operand) -> bool
    requires { 4 * first + byte + len < 256 }
    ensures { result ≡ is_access first byte len base offset }
{
    is_low_base(base)
        && is_low_operand(offset)
        && byte < 4
        && 1 <= len
        && 4 * first + byte + len <= 120
}

#[tactic(auto, unfolding(crate::specs::Instructions::access_at))]
fn access_at(first: u8, byte: u8, len: u8, base: Base, offset: Operand) -> Option<Access>
    requires { 4 * first + byte + len < 256 }
    ensures value { result ≡ access_at first byte len base offset }
    ensures numbers { IfSome result (λ a. (a.first ≡ first) × (a.byte ≡ byte) × (a.len ≡ len)) }
    ensures operands { IfSome result (λ a. (a.base ≡ base) × (a.offset ≡ offset)) }
{
    if is_access(first, byte, len, base, offset) {
        Some(Access {
            first,
            byte,
            len,
            base,
            offset,
        })
    } else {
        None
    }
}

#[tactic(auto, unfolding(crate::specs::Instructions::access_of))]
pub fn access(first: Word, base: Base, offset: Word, len: Word) -> Option<Access>
    ensures value { result ≡ access_of first base offset len }
    ensures first { IfSome result (λ a. Word.Field a.first (byte_part a.byte) ≡ first) }
    ensures base { IfSome result (λ a. a.base ≡ base) }
    ensures offset { IfSome result (λ a. value_word a.offset ≡ offset) }
    ensures length { IfSome result (λ a. Word.Number a.len ≡ len) }
{
    let Word::Field { register, part } = first else {
        return None;
    };
    let byte = byte(part)?;
    let offset = value(offset)?;
    let len = number(len, 120)? as u8;
    if register <= 29 {
        access_at(register as u8, byte, len, base, offset)
    } else {
        None
    }
}
