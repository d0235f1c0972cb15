//! Division, a bit of the quotient a turn, the highest first. R14 is what is left of the dividend: where it has the divisor in R15, shifted
//! to the left by the bit's number, this is taken from it, and the bit is set in R16. A divisor 0 is taken each time, so that the quotient
//! has all bits and the dividend is left.

ghost use Rattle.std.specs.Prelude.{◌≡◌, IfOk, OnOk, ◌++◌};
ghost use Rattle.prunum.specs.Number.{quot_u, rem_u, quot_s, rem_s};
ghost use Rattle.helpers.specs.Bodies.{negated, magnitudes, divided, quotient_sign, quotient_moved, back};
ghost use Rattle.helpers.specs.Numbers.{cycles_of, words_of};
ghost use Rattle.helpers.specs.Paths.{IsEven};
ghost use Rattle.helpers.specs.Runs.{Computes};
ghost use Rattle.helpers.specs.Shapes.{HasShape};
ghost use Rattle.helpers.specs.declared.helper.Helper.TheVariants.{DivU, RemU, DivS, RemS};

use crate::items::{append, back, branched, calculated, loaded, looped, register, skipped};
use isa::{AluOp, AsmProgram, Condition, Item, Operand};
use prunum::Memory;
use std::alloc::Global;

/// R`r` becomes 2^32 less itself where bit 31 of R`sign` is 1. The labels are the body's next two.
fn negated(r: u8, sign: u8, negative: u32, done: u32) -> [Item; 5]
    ensures { result ≡ negated r sign negative done }
{
    [
        branched(Condition::BitSet, sign, Operand::Imm(31), negative),
        skipped(done),
        Item::Label(negative),
        calculated(AluOp::Rsb, r, r, Operand::Imm(0)),
        Item::Label(done),
    ]
}

/// R16 becomes the quotient of R14 by R15, and R14 what is left over. The two LDI make both arms of one length.
fn divided() -> [Item; 14]
    ensures { result ≡ divided }
{
    let (end, fits) = (0, 1);
    [
        loaded(16, 0),
        loaded(17, 32),
        looped(end),
        calculated(AluOp::Sub, 17, 17, Operand::Imm(1)),
        calculated(AluOp::Lsr, 18, 14, register(17)),
        branched(Condition::Le, 18, register(15), fits),
        loaded(18, 0),
        loaded(18, 0),
        skipped(end),
        Item::Label(fits),
        calculated(AluOp::Lsl, 18, 15, register(17)),
        calculated(AluOp::Sub, 14, 14, register(18)),
        calculated(AluOp::Set, 16, 16, register(17)),
        Item::Label(end),
    ]
}

/// Bit 31 of R19 becomes the sign of the quotient. It is 0 where the divisor is 0, as the quotient is 2^32 - 1 then.
fn quotient_sign() -> [Item; 6]
    ensures { result ≡ quotient_sign }
{
    let (zero, done) = (6, 7);
    [
        calculated(AluOp::Xor, 19, 14, register(15)),
        branched(Condition::Eq, 15, Operand::Imm(0), zero),
        skipped(done),
        Item::Label(zero),
        loaded(19, 0),
        Item::Label(done),
    ]
}

fn quotient_moved() -> Item
    ensures { result ≡ quotient_moved }
{
    calculated(AluOp::Add, 14, 16, Operand::Imm(0))
}

/// R14 and R15 become their distances from 0.
fn append_magnitudes(items: &mut Vec<Item>) -> Result<(), Memory>
    ensures { OnOk result (items.new.items ≡ items.old.items ++ magnitudes) }
{
    append(items, &negated(14, 14, 2, 3))?;
    append(items, &negated(15, 15, 4, 5))
}

/// R14 is negated where bit 31 of R19 is 1, and the body returns.
fn append_signed_end(items: &mut Vec<Item>) -> Result<(), Memory>
    ensures { OnOk result (items.new.items ≡ items.old.items ++ (negated 14 19 8 9 ++ back)) }
{
    append(items, &negated(14, 19, 8, 9))?;
    append(items, &back())
}

/// The quotient without sign, and 2^32 - 1 where R15 is 0.
pub fn divu(alloc: Global) -> Result<AsmProgram, Memory>
    ensures computes { IfOk result (Computes quot_u (cycles_of DivU)) }
    ensures shape { IfOk result (HasShape (words_of DivU)) }
    ensures even { IfOk result (IsEven (words_of DivU) (cycles_of DivU)) }
{
    let mut items = Vec::new(alloc);
    append(&mut items, &divided())?;
    append(&mut items, &[quotient_moved()])?;
    append(&mut items, &back())?;
    Ok(AsmProgram::new(items))
}

/// What the quotient without sign leaves over, and R14 where R15 is 0.
pub fn remu(alloc: Global) -> Result<AsmProgram, Memory>
    ensures computes { IfOk result (Computes rem_u (cycles_of RemU)) }
    ensures shape { IfOk result (HasShape (words_of RemU)) }
    ensures even { IfOk result (IsEven (words_of RemU) (cycles_of RemU)) }
{
    let mut items = Vec::new(alloc);
    append(&mut items, &divided())?;
    append(&mut items, &back())?;
    Ok(AsmProgram::new(items))
}

/// The quotient of two's complement, cut towards 0, and 2^32 - 1 where R15 is 0.
pub fn divs(alloc: Global) -> Result<AsmProgram, Memory>
    ensures computes { IfOk result (Computes quot_s (cycles_of DivS)) }
    ensures shape { IfOk result (HasShape (words_of DivS)) }
    ensures even { IfOk result (IsEven (words_of DivS) (cycles_of DivS)) }
{
    let mut items = Vec::new(alloc);
    append(&mut items, &quotient_sign())?;
    append_magnitudes(&mut items)?;
    append(&mut items, &divided())?;
    append(&mut items, &[quotient_moved()])?;
    append_signed_end(&mut items)?;
    Ok(AsmProgram::new(items))
}

/// What the quotient of two's complement leaves over, and R14 where R15 is 0.
pub fn rems(alloc: Global) -> Result<AsmProgram, Memory>
    ensures computes { IfOk result (Computes rem_s (cycles_of RemS)) }
    ensures shape { IfOk result (HasShape (words_of RemS)) }
    ensures even { IfOk result (IsEven (words_of RemS) (cycles_of RemS)) }
{
    let mut items = Vec::new(alloc);
    append(
        &mut items,
        &[calculated(AluOp::Add, 19, 14, Operand::Imm(0))],
    )?;
    append_magnitudes(&mut items)?;
    append(&mut items, &divided())?;
    append_signed_end(&mut items)?;
    Ok(AsmProgram::new(items))
}
