//! The items that bodies are made of. Registers are whole ones.

ghost use Rattle.std.specs.Prelude.{◌≡◌, ◌++◌, OnOk};
ghost use Rattle.helpers.specs.Bodies.{whole, register, unaimed, calculated, loaded, turns, looped, branched, skipped};
ghost use Rattle.helpers.specs.Bodies.{return_field, returned, back};

use isa::{
    AluOp, BranchOffset, Condition, Field, Inst, Item, Jump, LoopBody, NoteKind, Operand, Part,
    Target,
};
use prunum::Memory;

fn whole(r: u8) -> Field
    ensures { result ≡ whole r }
{
    Field {
        reg: r % 32,
        part: Part::All,
    }
}

/// A register as an operand.
pub(crate) fn register(r: u8) -> Operand
    ensures { result ≡ register r }
{
    Operand::Field(whole(r))
}

/// R`d` becomes what the operation gives of R`a` and an operand.
pub(crate) fn calculated(op: AluOp, d: u8, a: u8, b: Operand) -> Item
    ensures { result ≡ calculated op d a b }
{
    Item::Whole(Inst::Alu {
        op,
        d: whole(d),
        a: whole(a),
        b,
    })
}

/// R`d` becomes the number.
pub(crate) fn loaded(d: u8, n: u16) -> Item
    ensures { result ≡ loaded d n }
{
    Item::Whole(Inst::Ldi { d: whole(d), n })
}

/// 32 turns, and the least length, which stands in place of a label.
fn turns() -> LoopBody
    ensures { result ≡ turns }
{
    LoopBody {
        count: 32,
        length: 1,
    }
}

/// A LOOP of 32 turns up to the label.
pub(crate) fn looped(end: u32) -> Item
    ensures { result ≡ looped end }
{
    Item::Aimed {
        inst: Inst::Loop { body: turns() },
        target: Target::Label(end),
    }
}

/// The least offset, which stands in place of a label.
fn unaimed() -> BranchOffset
    ensures { result ≡ unaimed }
{
    BranchOffset { words: -512 }
}

/// A branch to the label, where the operand stands to R`a` as the condition says.
pub(crate) fn branched(condition: Condition, a: u8, b: Operand, to: u32) -> Item
    ensures { result ≡ branched condition a b to }
{
    Item::Aimed {
        inst: Inst::Branch {
            condition,
            offset: unaimed(),
            a: whole(a),
            b,
        },
        target: Target::Label(to),
    }
}

/// A branch to the label.
pub(crate) fn skipped(to: u32) -> Item
    ensures { result ≡ skipped to }
{
    Item::Aimed {
        inst: Inst::Qba { offset: unaimed() },
        target: Target::Label(to),
    }
}

fn return_field() -> Field
    ensures { result ≡ return_field }
{
    Field {
        reg: 3,
        part: Part::W2,
    }
}

/// The jump to R3.w2.
pub(crate) fn returned() -> Item
    ensures { result ≡ returned }
{
    Item::Whole(Inst::Jmp {
        to: Jump::Field(return_field()),
    })
}

/// The end of a body.
pub(crate) fn back() -> [Item; 2]
    ensures { result ≡ back }
{
    [
        Item::Note {
            kind: NoteKind::Return,
            value: 0,
        },
        returned(),
    ]
}

/// Puts the items behind the others.
pub(crate) fn append(items: &mut Vec<Item>, more: &[Item]) -> Result<(), Memory>
    ensures { OnOk result (items.new.items ≡ items.old.items ++ more.now) }
{
    Ok(items.extend_from_slice(more)?)
}
