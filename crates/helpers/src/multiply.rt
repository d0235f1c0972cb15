//! Multiplication, a bit of R15 a turn, the highest first: R16 is doubled, and R14 is added to it where the bit is 1.

ghost use Rattle.std.specs.Prelude.{◌≡◌, IfOk};
ghost use Rattle.helpers.specs.Bodies.{multiplied};
ghost use Rattle.helpers.specs.Numbers.{product, cycles_of, words_of};
ghost use Rattle.helpers.specs.Paths.{IsEven};
ghost use Rattle.helpers.specs.Runs.{Computes};
ghost use Rattle.helpers.specs.Shapes.{HasShape};
ghost use Rattle.helpers.specs.declared.helper.Helper.TheVariants.{Mul};

use crate::items::{append, back, branched, calculated, loaded, looped, register, skipped};
use isa::{AluOp, AsmProgram, Condition, Item, Operand};
use prunum::Memory;
use std::alloc::Global;

fn multiplied() -> [Item; 11]
    ensures { result ≡ multiplied }
{
    let (end, one) = (0, 1);
    [
        loaded(16, 0),
        loaded(17, 32),
        looped(end),
        calculated(AluOp::Sub, 17, 17, Operand::Imm(1)),
        calculated(AluOp::Add, 16, 16, register(16)),
        branched(Condition::BitSet, 15, register(17), one),
        skipped(end),
        Item::Label(one),
        calculated(AluOp::Add, 16, 16, register(14)),
        Item::Label(end),
        calculated(AluOp::Add, 14, 16, Operand::Imm(0)),
    ]
}

/// The low 32 bits of the product.
pub fn mul(alloc: Global) -> Result<AsmProgram, Memory>
    ensures computes { IfOk result (Computes product (cycles_of Mul)) }
    ensures shape { IfOk result (HasShape (words_of Mul)) }
    ensures even { IfOk result (IsEven (words_of Mul) (cycles_of Mul)) }
{
    let mut items = Vec::new(alloc);
    append(&mut items, &multiplied())?;
    append(&mut items, &back())?;
    Ok(AsmProgram::new(items))
}
