//! What single operands say to an instruction.

ghost use Rattle.std.specs.Prelude.{◌≡◌, ◌<◌, ◌≤◌, IfSome, IsTrue, true, false};
ghost use Rattle.asmword.specs.Made.{stands_least};
ghost use Rattle.isa.specs.Low.{is_constant};
ghost use Rattle.asmword.specs.Forms.{field_word, value_word, jump_word, base_word, byte_part};
ghost use Rattle.asmword.specs.Instructions.{field_at, field_of, at_most, value_of, jump_of, number_of, register_of, register_base};
ghost use Rattle.asmword.specs.Instructions.{constant_of, byte_of};

use crate::form::Word;
use isa::{Base, Constant, Field, Inst, Jump, Operand, Part};

fn field_at(register: u64, part: Part) -> Option<Field>
    ensures value { result ≡ field_at register part }
    ensures word { IfSome result (λ f. (f.reg ≡ register) × (f.part ≡ part)) }
{
    if register < 32 {
        Some(Field {
            reg: register as u8,
            part,
        })
    } else {
        None
    }
}

fn at_most(n: u64, most: u16) -> Option<u16>
    ensures { result ≡ at_most most n }
{
    if n <= u64::from(most) {
        Some(n as u16)
    } else {
        None
    }
}

#[tactic(auto, unfolding(crate::specs::Instructions::field_of))]
pub fn field(word: Word) -> Option<Field>
    ensures value { result ≡ field_of word }
    ensures word { IfSome result (λ f. field_word f ≡ word) }
{
    match word {
        Word::Field { register, part } => field_at(register, part),
        _ => None,
    }
}

#[tactic(auto, unfolding(crate::specs::Instructions::value_of))]
pub fn value(word: Word) -> Option<Operand>
    ensures value { result ≡ value_of word }
    ensures word { IfSome result (λ o. value_word o ≡ word) }
{
    match word {
        Word::Field { register, part } => Some(Operand::Field(field_at(register, part)?)),
        Word::Number(n) => Some(Operand::Imm(at_most(n, 255)? as u8)),
        _ => None,
    }
}

#[tactic(auto, unfolding(crate::specs::Instructions::jump_of))]
pub fn jump(word: Word) -> Option<Jump>
    ensures value { result ≡ jump_of word }
    ensures word { IfSome result (λ to. jump_word to ≡ word) }
    ensures jmp { IfSome result (λ to. IsTrue (stands_least (Inst.Jmp to))) }
    ensures jal { IfSome result (λ to. (d : Field) → IsTrue (stands_least (Inst.Jal d to))) }
{
    match word {
        Word::Field { register, part } => Some(Jump::Field(field_at(register, part)?)),
        Word::Label => Some(Jump::Word(0)),
        _ => None,
    }
}

#[tactic(auto, unfolding(crate::specs::Instructions::number_of))]
pub fn number(word: Word, most: u16) -> Option<u16>
    ensures value { result ≡ number_of most word }
    ensures word { IfSome result (λ n. Word.Number n ≡ word) }
    ensures bound { IfSome result (λ n. n ≤ most) }
{
    match word {
        Word::Number(n) => at_most(n, most),
        _ => None,
    }
}

#[tactic(auto, unfolding(crate::specs::Instructions::register_of))]
pub fn register(word: Word) -> Option<u8>
    ensures value { result ≡ register_of word }
    ensures word { IfSome result (λ n. Word.Field n Part.All ≡ word) }
    ensures bound { IfSome result (λ n. n ≤ 29) }
{
    match word {
        Word::Field {
            register,
            part: Part::All,
        } => Some(at_most(register, 29)? as u8),
        _ => None,
    }
}

#[tactic(auto, unfolding(crate::specs::Instructions::register_base))]
pub fn register_base(word: Word) -> Option<Base>
    ensures value { result ≡ register_base word }
    ensures word { IfSome result (λ b. base_word b ≡ word) }
    ensures constant { IfSome result (λ b. is_constant b ≡ false) }
{
    Some(Base::Reg(register(word)?))
}

#[tactic(auto, unfolding(crate::specs::Instructions::constant_of))]
pub fn constant(word: Word) -> Option<Base>
    ensures value { result ≡ constant_of word }
    ensures word { IfSome result (λ b. base_word b ≡ word) }
    ensures constant { IfSome result (λ b. is_constant b ≡ true) }
{
    match word {
        Word::Constant(0) => Some(Base::Constant(Constant::C0)),
        Word::Constant(4) => Some(Base::Constant(Constant::C4)),
        Word::Constant(24) => Some(Base::Constant(Constant::C24)),
        Word::Constant(25) => Some(Base::Constant(Constant::C25)),
        Word::Constant(28) => Some(Base::Constant(Constant::C28)),
        _ => None,
    }
}

#[tactic(auto, unfolding(crate::specs::Instructions::byte_of))]
pub fn byte(part: Part) -> Option<u8>
    ensures value { result ≡ byte_of part }
    ensures part { IfSome result (λ n. byte_part n ≡ part) }
    ensures bound { IfSome result (λ n. n < 4) }
{
    match part {
        Part::All => Some(0),
        Part::B1 => Some(1),
        Part::B2 => Some(2),
        Part::B3 => Some(3),
        _ => None,
    }
}
