//! The instruction that a mnemonic with operands is, where its numbers are in their ranges.

ghost use Rattle.std.specs.Prelude.{◌≡◌, IfSome, IsTrue, Some};
ghost use Rattle.isa.specs.Row.{Fits};
ghost use Rattle.asmword.specs.Forms.{written};
ghost use Rattle.asmword.specs.Instructions.{made};
ghost use Rattle.asmword.specs.Made.{Is, stands_least};

use crate::form::{Form, Operands, Word};
use crate::mnemonic::Mnemonic;
use crate::moved::{access, body, transfer};
use crate::operand::{constant, field, jump, number, register, register_base, value};
use isa::{AluOp, Base, BranchOffset, Condition, Inst};

/// The instruction with this mnemonic and these operands. `None` where a number is out of its range, or the operands are not of the
/// mnemonic's kinds.
pub fn instruction(form: Form) -> Option<Inst>
    ensures value { result ≡ made form.mnemonic form.operands }
    ensures found { IfSome result (λ i. (written i ≡ form) × IsTrue (stands_least i)) }
    ensures only { (i : Inst) → Fits i → IsTrue (stands_least i) → written i ≡ form → result ≡ Some i }
{
    make(form.mnemonic, form.operands)
}

fn make(mnemonic: Mnemonic, operands: Operands) -> Option<Inst>
    ensures value { result ≡ made mnemonic operands }
    ensures found { IfSome result (Is mnemonic operands) }
{
    match mnemonic {
        Mnemonic::Alu(op) => alu(op, operands),
        Mnemonic::Not => not(operands),
        Mnemonic::Jmp => jmp(operands),
        Mnemonic::Jal => jal(operands),
        Mnemonic::Ldi => ldi(operands),
        Mnemonic::Lmbd => lmbd(operands),
        Mnemonic::Halt => halt(operands),
        Mnemonic::Xin => xin(operands),
        Mnemonic::Xout => xout(operands),
        Mnemonic::Loop => loop_(operands),
        Mnemonic::Branch(condition) => branch(condition, operands),
        Mnemonic::Qba => qba(operands),
        Mnemonic::Lbbo => lbbo(operands),
        Mnemonic::Lbco => lbco(operands),
        Mnemonic::Sbbo => sbbo(operands),
        Mnemonic::Sbco => sbco(operands),
    }
}

#[tactic(auto, unfolding(crate::specs::Instructions::made))]
fn alu(op: AluOp, operands: Operands) -> Option<Inst>
    ensures value { result ≡ made (Mnemonic.Alu op) operands }
    ensures found { IfSome result (Is (Mnemonic.Alu op) operands) }
{
    let Operands::Three(d, a, b) = operands else {
        return None;
    };
    Some(Inst::Alu {
        op,
        d: field(d)?,
        a: field(a)?,
        b: value(b)?,
    })
}

#[tactic(auto, unfolding(crate::specs::Instructions::made))]
fn not(operands: Operands) -> Option<Inst>
    ensures value { result ≡ made Mnemonic.Not operands }
    ensures found { IfSome result (Is Mnemonic.Not operands) }
{
    let Operands::Two(d, a) = operands else {
        return None;
    };
    Some(Inst::Not {
        d: field(d)?,
        a: field(a)?,
    })
}

#[tactic(auto, unfolding(crate::specs::Instructions::made))]
fn jmp(operands: Operands) -> Option<Inst>
    ensures value { result ≡ made Mnemonic.Jmp operands }
    ensures found { IfSome result (Is Mnemonic.Jmp operands) }
{
    let Operands::One(to) = operands else {
        return None;
    };
    Some(Inst::Jmp { to: jump(to)? })
}

#[tactic(auto, unfolding(crate::specs::Instructions::made))]
fn jal(operands: Operands) -> Option<Inst>
    ensures value { result ≡ made Mnemonic.Jal operands }
    ensures found { IfSome result (Is Mnemonic.Jal operands) }
{
    let Operands::Two(d, to) = operands else {
        return None;
    };
    Some(Inst::Jal {
        d: field(d)?,
        to: jump(to)?,
    })
}

#[tactic(auto, unfolding(crate::specs::Instructions::made))]
fn ldi(operands: Operands) -> Option<Inst>
    ensures value { result ≡ made Mnemonic.Ldi operands }
    ensures found { IfSome result (Is Mnemonic.Ldi operands) }
{
    let Operands::Two(d, n) = operands else {
        return None;
    };
    Some(Inst::Ldi {
        d: field(d)?,
        n: number(n, u16::MAX)?,
    })
}

#[tactic(auto, unfolding(crate::specs::Instructions::made))]
fn lmbd(operands: Operands) -> Option<Inst>
    ensures value { result ≡ made Mnemonic.Lmbd operands }
    ensures found { IfSome result (Is Mnemonic.Lmbd operands) }
{
    let Operands::Three(d, a, b) = operands else {
        return None;
    };
    Some(Inst::Lmbd {
        d: field(d)?,
        a: field(a)?,
        b: value(b)?,
    })
}

#[tactic(auto, unfolding(crate::specs::Instructions::made))]
fn halt(operands: Operands) -> Option<Inst>
    ensures value { result ≡ made Mnemonic.Halt operands }
    ensures found { IfSome result (Is Mnemonic.Halt operands) }
{
    match operands {
        Operands::Nothing => Some(Inst::Halt),
        _ => None,
    }
}

#[tactic(auto, unfolding(crate::specs::Instructions::made))]
fn xin(operands: Operands) -> Option<Inst>
    ensures value { result ≡ made Mnemonic.Xin operands }
    ensures found { IfSome result (Is Mnemonic.Xin operands) }
{
    let Operands::Three(device, first, count) = operands else {
        return None;
    };
    Some(Inst::Xin {
        moved: transfer(device, first, count)?,
    })
}

#[tactic(auto, unfolding(crate::specs::Instructions::made))]
fn xout(operands: Operands) -> Option<Inst>
    ensures value { result ≡ made Mnemonic.Xout operands }
    ensures found { IfSome result (Is Mnemonic.Xout operands) }
{
    let Operands::Three(device, first, count) = operands else {
        return None;
    };
    Some(Inst::Xout {
        moved: transfer(device, first, count)?,
    })
}

#[tactic(auto, unfolding(crate::specs::Instructions::made))]
fn loop_(operands: Operands) -> Option<Inst>
    ensures value { result ≡ made Mnemonic.Loop operands }
    ensures found { IfSome result (Is Mnemonic.Loop operands) }
{
    let Operands::Two(Word::Label, count) = operands else {
        return None;
    };
    Some(Inst::Loop { body: body(count)? })
}

#[tactic(auto, unfolding(crate::specs::Instructions::made, crate::specs::Instructions::least_offset))]
fn branch(condition: Condition, operands: Operands) -> Option<Inst>
    ensures value { result ≡ made (Mnemonic.Branch condition) operands }
    ensures found { IfSome result (Is (Mnemonic.Branch condition) operands) }
{
    let Operands::Three(Word::Label, a, b) = operands else {
        return None;
    };
    Some(Inst::Branch {
        condition,
        offset: BranchOffset { words: -512 },
        a: field(a)?,
        b: value(b)?,
    })
}

#[tactic(auto, unfolding(crate::specs::Instructions::made, crate::specs::Instructions::least_offset))]
fn qba(operands: Operands) -> Option<Inst>
    ensures value { result ≡ made Mnemonic.Qba operands }
    ensures found { IfSome result (Is Mnemonic.Qba operands) }
{
    let Operands::One(Word::Label) = operands else {
        return None;
    };
    Some(Inst::Qba {
        offset: BranchOffset { words: -512 },
    })
}

#[tactic(auto, unfolding(crate::specs::Instructions::made))]
fn lbbo(operands: Operands) -> Option<Inst>
    ensures value { result ≡ made Mnemonic.Lbbo operands }
    ensures found { IfSome result (Is Mnemonic.Lbbo operands) }
{
    let Operands::Four(first, from, offset, len) = operands else {
        return None;
    };
    Some(Inst::Load {
        access: access(first, register_base(from)?, offset, len)?,
    })
}

#[tactic(auto, unfolding(crate::specs::Instructions::made))]
fn lbco(operands: Operands) -> Option<Inst>
    ensures value { result ≡ made Mnemonic.Lbco operands }
    ensures found { IfSome result (Is Mnemonic.Lbco operands) }
{
    let Operands::Four(first, from, offset, len) = operands else {
        return None;
    };
    Some(Inst::Load {
        access: access(first, constant(from)?, offset, len)?,
    })
}

#[tactic(auto, unfolding(crate::specs::Instructions::made))]
fn sbbo(operands: Operands) -> Option<Inst>
    ensures value { result ≡ made Mnemonic.Sbbo operands }
    ensures found { IfSome result (Is Mnemonic.Sbbo operands) }
{
    let Operands::Four(first, from, offset, len) = operands else {
        return None;
    };
    Some(Inst::Store {
        access: access(first, register_base(from)?, offset, len)?,
    })
}

#[tactic(auto, unfolding(crate::specs::Instructions::made))]
fn sbco(operands: Operands) -> Option<Inst>
    ensures value { result ≡ made Mnemonic.Sbco operands }
    ensures found { IfSome result (Is Mnemonic.Sbco operands) }
{
    let Operands::Four(first, from, offset, len) = operands else {
        return None;
    };
    Some(Inst::Store {
        access: access(first, constant(from)?, offset, len)?,
    })
}
