ghost use Rattle.std.specs.Prelude.{◌≡◌, ◌<◌, IsTrue};
ghost use Rattle.isa.specs.Low.{is_low_base};
ghost use Rattle.isa.specs.Row.{row, word_of, Fits, OperandFits, JumpFits, part_number, op_number, condition_number, device_number};
ghost use Rattle.isa.specs.Row.{constant_number, field_code, io, operand_code, offset_bits, store_number, load_number, base_number};
ghost use Rattle.isa.specs.Row.{jump_row, transfer_row, access_row};

use crate::access::{Access, Base, Constant};
use crate::control::{BranchOffset, Condition, Jump};
use crate::field::{Field, Operand, Part};
use crate::inst::{AluOp, Inst};
use crate::row::{Row, joined};
use crate::transfer::{Bank, Transfer};

/// The instruction's word.
#[tactic(auto, unfolding(crate::specs::Row::word_of))]
pub fn encode(i: &Inst) -> u32
    ensures word { result ≡ word_of i.now }
    ensures fits { Fits i.now }
{
    joined(row(i))
}

/// Its bytes.
fn row(i: &Inst) -> Row
    ensures row { result ≡ row i.now }
    ensures fits { Fits i.now }
{
    match *i {
        Inst::Alu { op, d, a, b } => {
            let top = 2 * op_number(op) + io(b);
            Row::new(top, operand_code(b), field_code(a), field_code(d))
        }
        Inst::Not { d, a } => Row::new(0x16, 0, field_code(a), field_code(d)),
        Inst::Jmp { to } => jump_row(0x20, to, 0),
        Inst::Jal { d, to } => jump_row(0x22, to, field_code(d)),
        Inst::Ldi { d, n } => {
            let [high, low] = n.to_be_bytes();
            Row::new(0x24, high, low, field_code(d))
        }
        Inst::Lmbd { d, a, b } => {
            Row::new(0x26 + io(b), operand_code(b), field_code(a), field_code(d))
        }
        Inst::Halt => Row::new(0x2a, 0, 0, 0),
        Inst::Xin { moved } => transfer_row(0x2e, moved),
        Inst::Xout { moved } => transfer_row(0x2f, moved),
        Inst::Loop { body } => Row::new(0x31, (body.count - 1) as u8, body.length, 0),
        Inst::Branch {
            condition,
            offset,
            a,
            b,
        } => {
            let [high, low] = offset_bits(offset).to_be_bytes();
            let top = 8 * condition_number(condition) + 2 * high + io(b);
            Row::new(top, operand_code(b), field_code(a), low)
        }
        Inst::Qba { offset } => {
            let [high, low] = offset_bits(offset).to_be_bytes();
            Row::new(8 * 0b01111 + 2 * high + 1, 0, 0, low)
        }
        Inst::Load { access } => access_row(load_number(access.base), access),
        Inst::Store { access } => access_row(store_number(access.base), access),
    }
}

fn jump_row(top: u8, to: Jump, low: u8) -> Row
    requires { top < 255 }
    ensures row { result ≡ jump_row top to low }
    ensures fits { JumpFits to }
{
    match to {
        Jump::Field(f) => Row::new(top, field_code(f), 0, low),
        Jump::Word(n) => {
            let [third, second] = n.to_be_bytes();
            Row::new(top + 1, third, second, low)
        }
    }
}

fn transfer_row(top: u8, moved: Transfer) -> Row
    ensures { result ≡ transfer_row top moved }
{
    Row::new(top, device_number(moved.bank), moved.first, moved.count)
}

fn access_row(number: u8, access: Access) -> Row
    requires { number < 16 }
    ensures row { result ≡ access_row number access }
    ensures fits { OperandFits access.offset }
{
    let k = access.len - 1;
    let top = 16 * number + 8 * (k / 64) + 2 * access.byte + io(access.offset);
    let second = 32 * (k / 8 % 8) + base_number(access.base);
    Row::new(
        top,
        operand_code(access.offset),
        second,
        32 * (k % 8) + access.first,
    )
}

fn part_number(p: Part) -> u8
    ensures value { result ≡ part_number p }
    ensures bound { result < 8 }
{
    match p {
        Part::B0 => 0,
        Part::B1 => 1,
        Part::B2 => 2,
        Part::B3 => 3,
        Part::W0 => 4,
        Part::W1 => 5,
        Part::W2 => 6,
        Part::All => 7,
    }
}

fn op_number(op: AluOp) -> u8
    ensures value { result ≡ op_number op }
    ensures bound { result < 16 }
{
    match op {
        AluOp::Add => 0,
        AluOp::Sub => 2,
        AluOp::Lsl => 4,
        AluOp::Lsr => 5,
        AluOp::Rsb => 6,
        AluOp::And => 8,
        AluOp::Or => 9,
        AluOp::Xor => 10,
        AluOp::Min => 12,
        AluOp::Max => 13,
        AluOp::Clr => 14,
        AluOp::Set => 15,
    }
}

fn condition_number(c: Condition) -> u8
    ensures value { result ≡ condition_number c }
    ensures bound { result < 27 }
{
    match c {
        Condition::Lt => 0b01001,
        Condition::Eq => 0b01010,
        Condition::Le => 0b01011,
        Condition::Gt => 0b01100,
        Condition::Ne => 0b01101,
        Condition::Ge => 0b01110,
        Condition::BitClear => 0b11001,
        Condition::BitSet => 0b11010,
    }
}

fn device_number(b: Bank) -> u8
    ensures { result ≡ device_number b }
{
    match b {
        Bank::Bank0 => 10,
        Bank::Bank1 => 11,
        Bank::Bank2 => 12,
    }
}

fn constant_number(c: Constant) -> u8
    ensures value { result ≡ constant_number c }
    ensures bound { result < 32 }
{
    match c {
        Constant::C0 => 0,
        Constant::C4 => 4,
        Constant::C24 => 24,
        Constant::C25 => 25,
        Constant::C28 => 28,
    }
}

fn field_code(f: Field) -> u8
    ensures { result ≡ field_code f }
{
    32 * part_number(f.part) + f.reg
}

fn io(o: Operand) -> u8
    ensures value { result ≡ io o }
    ensures bound { result < 2 }
{
    match o {
        Operand::Field(_) => 0,
        Operand::Imm(_) => 1,
    }
}

fn operand_code(o: Operand) -> u8
    ensures value { result ≡ operand_code o }
    ensures fits { OperandFits o }
{
    match o {
        Operand::Field(f) => field_code(f),
        Operand::Imm(n) => n,
    }
}

fn offset_bits(o: BranchOffset) -> u16
    ensures value { result ≡ offset_bits o }
    ensures bound { result < 1024 }
{
    o.words.rem_euclid(1024) as u16
}

fn store_number(b: Base) -> u8
    ensures value { result ≡ store_number b }
    ensures bound { result < 16 }
{
    match b {
        Base::Constant(_) => 8,
        Base::Reg(_) => 14,
    }
}

fn load_number(b: Base) -> u8
    ensures value { result ≡ load_number b }
    ensures bound { result < 16 }
{
    match b {
        Base::Constant(_) => 9,
        Base::Reg(_) => 15,
    }
}

fn base_number(b: Base) -> u8
    requires { IsTrue (is_low_base b) }
    ensures value { result ≡ base_number b }
    ensures bound { result < 32 }
{
    match b {
        Base::Constant(c) => constant_number(c),
        Base::Reg(n) => n,
    }
}
