ghost use Rattle.std.specs.Prelude.{◌≡◌, ◌+◌, ◌*◌, ◌/◌, ◌%◌, ◌<◌, ◌≤◌, ◌&&◌, ℕ, Option, Some, IfSome, nat_le};
ghost use Rattle.isa.specs.declared.inst.Inst.{Inst};
ghost use Rattle.isa.specs.Low.{is_low_base, is_low_operand, is_constant};
ghost use Rattle.isa.specs.Ranges.{is_transfer};
ghost use Rattle.isa.specs.Row.{row, word_of, Fits, op_number, condition_number, device_number, constant_number};
ghost use Rattle.isa.specs.Row.{field_code, io, operand_code, offset_bits, base_number, access_row};
ghost use Rattle.isa.specs.Decoded.{IsTarget, part_at, op_at, condition_at, bank_at, constant_at, field_at, operand_at, offset_at};
ghost use Rattle.isa.specs.Decoded.{body_at, transfer_at, base_at, length_bits, access_from, access_at, alu_at, target_at, jump_at};
ghost use Rattle.isa.specs.Decoded.{single_at, branch_at, memory_at, inst_at, decoded};

use crate::access::{Access, Base, Constant};
use crate::control::{BranchOffset, Condition, Jump, LoopBody};
use crate::field::{Field, Operand, Part};
use crate::inst::{AluOp, Inst};
use crate::row::{Row, split};
use crate::transfer::{Bank, Transfer};

/// The instruction that has the word. None exactly where no instruction has it.
#[tactic(auto, unfolding(crate::specs::Decoded::decoded, crate::specs::Row::word_of))]
pub fn decode(w: u32) -> Option<Inst>
    ensures value { result ≡ decoded w }
    ensures found { IfSome result (λ i. word_of i ≡ w) }
    ensures again { (i : Inst) → Fits i → word_of i ≡ w → result ≡ Some i }
{
    inst_at(split(w))
}

#[tactic(auto, unfolding(crate::specs::Decoded::inst_at))]
fn inst_at(r: Row) -> Option<Inst>
    ensures value { result ≡ inst_at r }
    ensures row { IfSome result (λ i. row i ≡ r) }
{
    match r.top {
        0..0x20 => alu_at(r),
        0x20..0x24 => jump_at(r),
        0x24..0x40 => single_at(r),
        0x40..0x80 | 0xc0..0xe0 => branch_at(r),
        _ => memory_at(r),
    }
}

#[tactic(auto, unfolding(crate::specs::Decoded::alu_at))]
fn alu_at(r: Row) -> Option<Inst>
    ensures value { result ≡ alu_at r }
    ensures row { IfSome result (λ i. row i ≡ r) }
{
    let (d, a) = (field_at(r.low), field_at(r.second));
    if r.top == 0x16 {
        return if r.third == 0 {
            Some(Inst::Not { d, a })
        } else {
            None
        };
    }
    let op = op_at(r.top / 2)?;
    let b = operand_at(r.top % 2, r.third);
    Some(Inst::Alu { op, d, a, b })
}

#[tactic(auto, unfolding(crate::specs::Decoded::jump_at))]
fn jump_at(r: Row) -> Option<Inst>
    requires from { 0x20 ≤ r.top }
    requires below { r.top < 0x24 }
    ensures value { result ≡ jump_at r }
    ensures row { IfSome result (λ i. row i ≡ r) }
{
    let to = target_at(r.top % 2, r)?;
    if r.top / 2 == 0x11 {
        Some(Inst::Jal {
            d: field_at(r.low),
            to,
        })
    } else if r.low == 0 {
        Some(Inst::Jmp { to })
    } else {
        None
    }
}

fn target_at(bit: u8, r: Row) -> Option<Jump>
    ensures value { result ≡ target_at bit r }
    ensures target { IfSome result (λ to. IsTarget bit to r) }
{
    if bit != 0 {
        Some(Jump::Word(u16::from_be_bytes([r.third, r.second])))
    } else if r.second == 0 {
        Some(Jump::Field(field_at(r.third)))
    } else {
        None
    }
}

#[tactic(auto, unfolding(crate::specs::Decoded::single_at))]
fn single_at(r: Row) -> Option<Inst>
    ensures value { result ≡ single_at r }
    ensures row { IfSome result (λ i. row i ≡ r) }
{
    match r.top {
        0x24 => Some(Inst::Ldi {
            d: field_at(r.low),
            n: u16::from_be_bytes([r.third, r.second]),
        }),
        0x26 | 0x27 => Some(Inst::Lmbd {
            d: field_at(r.low),
            a: field_at(r.second),
            b: operand_at(r.top % 2, r.third),
        }),
        0x2a if r.third == 0 && r.second == 0 && r.low == 0 => Some(Inst::Halt),
        0x2e => Some(Inst::Xin {
            moved: transfer_at(r.third, r.second, r.low)?,
        }),
        0x2f => Some(Inst::Xout {
            moved: transfer_at(r.third, r.second, r.low)?,
        }),
        0x31 if r.low == 0 => Some(Inst::Loop {
            body: body_at(r.third, r.second)?,
        }),
        _ => None,
    }
}

#[tactic(auto, unfolding(crate::specs::Decoded::branch_at))]
fn branch_at(r: Row) -> Option<Inst>
    ensures value { result ≡ branch_at r }
    ensures row { IfSome result (λ i. row i ≡ r) }
{
    let offset = offset_at(256 * u16::from(r.top / 2 % 4) + u16::from(r.low));
    if r.top / 8 == 0b01111 {
        return if r.top % 2 == 1 && r.third == 0 && r.second == 0 {
            Some(Inst::Qba { offset })
        } else {
            None
        };
    }
    let condition = condition_at(r.top / 8)?;
    Some(Inst::Branch {
        condition,
        offset,
        a: field_at(r.second),
        b: operand_at(r.top % 2, r.third),
    })
}

#[tactic(auto, unfolding(crate::specs::Decoded::memory_at))]
fn memory_at(r: Row) -> Option<Inst>
    ensures value { result ≡ memory_at r }
    ensures row { IfSome result (λ i. row i ≡ r) }
{
    match r.top / 16 {
        8 => Some(Inst::Store {
            access: access_at(true, r)?,
        }),
        9 => Some(Inst::Load {
            access: access_at(true, r)?,
        }),
        14 => Some(Inst::Store {
            access: access_at(false, r)?,
        }),
        15 => Some(Inst::Load {
            access: access_at(false, r)?,
        }),
        _ => None,
    }
}

fn access_at(constant: bool, r: Row) -> Option<Access>
    ensures value { result ≡ access_at constant r }
    ensures row { IfSome result (λ a. access_row (r.top / 16) a ≡ r) }
    ensures base { IfSome result (λ a. is_constant a.base ≡ constant) }
{
    let base = base_at(constant, r.second % 32)?;
    access_from(r, base, operand_at(r.top % 2, r.third))
}

fn access_from(r: Row, base: Base, offset: Operand) -> Option<Access>
    ensures value { result ≡ access_from r base offset }
    ensures numbers { IfSome result (λ a. (a.first ≡ r.low % 32) × (a.byte ≡ r.top / 2 % 4) × (a.len ≡ length_bits r + 1)) }
    ensures operands { IfSome result (λ a. (a.base ≡ base) × (a.offset ≡ offset)) }
{
    let (first, byte, len) = (r.low % 32, r.top / 2 % 4, length_bits(r) + 1);
    if is_access(first, byte, len, base, offset) {
        Some(Access {
            first,
            byte,
            len,
            base,
            offset,
        })
    } else {
        None
    }
}

fn is_access(first: u8, byte: u8, len: u8, base: Base, offset: Operand) -> bool
    requires { 4 * first + byte + len < 256 }
    ensures { result ≡ (is_low_base base && is_low_operand offset && nat_le (4 * first + byte + len) 120) }
{
    is_low_base(base) && is_low_operand(offset) && 4 * first + byte + len <= 120
}

fn length_bits(r: Row) -> u8
    ensures value { result ≡ length_bits r }
    ensures bound { result < 128 }
{
    64 * (r.top / 8 % 2) + 8 * (r.second / 32) + r.low / 32
}

fn is_low_base(b: Base) -> bool
    ensures { result ≡ is_low_base b }
{
    match b {
        Base::Reg(n) => n < 30,
        Base::Constant(_) => true,
    }
}

fn is_low_operand(o: Operand) -> bool
    ensures { result ≡ is_low_operand o }
{
    match o {
        Operand::Field(f) => f.reg < 30,
        Operand::Imm(_) => true,
    }
}

fn base_at(constant: bool, k: u8) -> Option<Base>
    ensures value { result ≡ base_at constant k }
    ensures number { IfSome result (λ b. (base_number b ≡ k) × (is_constant b ≡ constant)) }
{
    if constant {
        Some(Base::Constant(constant_at(k)?))
    } else {
        Some(Base::Reg(k))
    }
}

fn transfer_at(device: u8, first: u8, count: u8) -> Option<Transfer>
    ensures value { result ≡ transfer_at device first count }
    ensures numbers { IfSome result (λ t. (device_number t.bank ≡ device) × (t.first ≡ first) × (t.count ≡ count)) }
{
    let bank = bank_at(device)?;
    if is_transfer(first, count) {
        Some(Transfer { bank, first, count })
    } else {
        None
    }
}

fn is_transfer(first: u8, count: u8) -> bool
    ensures { result ≡ is_transfer first count }
{
    1 <= count && count <= 4 && first <= 30 - count
}

fn body_at(count: u8, length: u8) -> Option<LoopBody>
    ensures value { result ≡ body_at count length }
    ensures numbers { IfSome result (λ b. (b.count ≡ count + 1) × (b.length ≡ length)) }
{
    if 0 < length {
        Some(LoopBody {
            count: u16::from(count) + 1,
            length,
        })
    } else {
        None
    }
}

/// Ten bits as two's complement.
fn offset_at(bits: u16) -> BranchOffset
    requires { bits < 1024 }
    ensures value { result ≡ offset_at bits }
    ensures bits { offset_bits result ≡ bits }
{
    let words = bits as i16;
    BranchOffset {
        words: if bits < 512 { words } else { words - 1024 },
    }
}

fn operand_at(bit: u8, c: u8) -> Operand
    ensures value { result ≡ operand_at bit c }
    ensures code { operand_code result ≡ c }
    ensures bit { bit < 2 → io result ≡ bit }
{
    if bit == 0 {
        Operand::Field(field_at(c))
    } else {
        Operand::Imm(c)
    }
}

fn field_at(code: u8) -> Field
    ensures value { result ≡ field_at code }
    ensures code { field_code result ≡ code }
{
    Field {
        reg: code % 32,
        part: part_at(code / 32),
    }
}

fn part_at(k: u8) -> Part
    ensures { result ≡ part_at k }
{
    match k {
        0 => Part::B0,
        1 => Part::B1,
        2 => Part::B2,
        3 => Part::B3,
        4 => Part::W0,
        5 => Part::W1,
        6 => Part::W2,
        _ => Part::All,
    }
}

fn op_at(k: u8) -> Option<AluOp>
    ensures value { result ≡ op_at k }
    ensures number { IfSome result (λ op. op_number op ≡ k) }
{
    Some(match k {
        0 => AluOp::Add,
        2 => AluOp::Sub,
        4 => AluOp::Lsl,
        5 => AluOp::Lsr,
        6 => AluOp::Rsb,
        8 => AluOp::And,
        9 => AluOp::Or,
        10 => AluOp::Xor,
        12 => AluOp::Min,
        13 => AluOp::Max,
        14 => AluOp::Clr,
        15 => AluOp::Set,
        _ => return None,
    })
}

fn condition_at(k: u8) -> Option<Condition>
    ensures value { result ≡ condition_at k }
    ensures number { IfSome result (λ c. condition_number c ≡ k) }
{
    Some(match k {
        0b01001 => Condition::Lt,
        0b01010 => Condition::Eq,
        0b01011 => Condition::Le,
        0b01100 => Condition::Gt,
        0b01101 => Condition::Ne,
        0b01110 => Condition::Ge,
        0b11001 => Condition::BitClear,
        0b11010 => Condition::BitSet,
        _ => return None,
    })
}

fn bank_at(device: u8) -> Option<Bank>
    ensures value { result ≡ bank_at device }
    ensures number { IfSome result (λ b. device_number b ≡ device) }
{
    match device {
        10 => Some(Bank::Bank0),
        11 => Some(Bank::Bank1),
        12 => Some(Bank::Bank2),
        _ => None,
    }
}

fn constant_at(k: u8) -> Option<Constant>
    ensures value { result ≡ constant_at k }
    ensures number { IfSome result (λ c. constant_number c ≡ k) }
{
    match k {
        0 => Some(Constant::C0),
        4 => Some(Constant::C4),
        24 => Some(Constant::C24),
        25 => Some(Constant::C25),
        28 => Some(Constant::C28),
        _ => None,
    }
}
