//! Instructions as mnemonics with operands.

ghost use Rattle.std.specs.Prelude.{◌≡◌};
ghost use Rattle.isa.specs.Row.{constant_number, device_number};
ghost use Rattle.asmword.specs.Forms.{jump_word, base_word, value_word, field_word, byte_part, transfer_form, access_form, written};

use crate::mnemonic::Mnemonic;
use isa::{Access, Bank, Base, Constant, Field, Inst, Jump, Operand, Part, Transfer};

/// What an operand says. Its number may be out of the range that its instruction asks for.
#[derive(Clone, Copy)]
pub enum Word {
    Field { register: u64, part: Part },
    Number(u64),
    Constant(u64),
    /// The name of a label, which stands aside.
    Label,
}

/// The operands of an instruction, in their order.
#[derive(Clone, Copy)]
pub enum Operands {
    Nothing,
    One(Word),
    Two(Word, Word),
    Three(Word, Word, Word),
    Four(Word, Word, Word, Word),
}

/// A mnemonic with its operands.
#[derive(Clone, Copy)]
pub struct Form {
    pub mnemonic: Mnemonic,
    pub operands: Operands,
}

/// The mnemonic and the operands that an instruction is written with. For a number of words, or the number of a word, that it
/// goes to, a label stands.
pub fn form_of(i: &Inst) -> Form
    ensures { result ≡ written i.now }
{
    match *i {
        Inst::Alu { op, d, a, b } => three(
            Mnemonic::Alu(op),
            field_word(d),
            field_word(a),
            value_word(b),
        ),
        Inst::Not { d, a } => two(Mnemonic::Not, field_word(d), field_word(a)),
        Inst::Jmp { to } => one(Mnemonic::Jmp, jump_word(to)),
        Inst::Jal { d, to } => two(Mnemonic::Jal, field_word(d), jump_word(to)),
        Inst::Ldi { d, n } => two(Mnemonic::Ldi, field_word(d), Word::Number(u64::from(n))),
        Inst::Lmbd { d, a, b } => three(
            Mnemonic::Lmbd,
            field_word(d),
            field_word(a),
            value_word(b),
        ),
        Inst::Halt => Form {
            mnemonic: Mnemonic::Halt,
            operands: Operands::Nothing,
        },
        Inst::Xin { moved } => transfer_form(Mnemonic::Xin, moved),
        Inst::Xout { moved } => transfer_form(Mnemonic::Xout, moved),
        Inst::Loop { body } => two(
            Mnemonic::Loop,
            Word::Label,
            Word::Number(u64::from(body.count)),
        ),
        Inst::Branch {
            condition,
            a,
            b,
            ..
        } => three(
            Mnemonic::Branch(condition),
            Word::Label,
            field_word(a),
            value_word(b),
        ),
        Inst::Qba { .. } => one(Mnemonic::Qba, Word::Label),
        Inst::Load { access } => access_form(Mnemonic::Lbbo, Mnemonic::Lbco, access),
        Inst::Store { access } => access_form(Mnemonic::Sbbo, Mnemonic::Sbco, access),
    }
}

fn one(mnemonic: Mnemonic, a: Word) -> Form
    ensures { result ≡ record { mnemonic = mnemonic; operands = Operands.One a } }
{
    Form {
        mnemonic,
        operands: Operands::One(a),
    }
}

fn two(mnemonic: Mnemonic, a: Word, b: Word) -> Form
    ensures { result ≡ record { mnemonic = mnemonic; operands = Operands.Two a b } }
{
    Form {
        mnemonic,
        operands: Operands::Two(a, b),
    }
}

fn three(mnemonic: Mnemonic, a: Word, b: Word, c: Word) -> Form
    ensures { result ≡ record { mnemonic = mnemonic; operands = Operands.Three a b c } }
{
    Form {
        mnemonic,
        operands: Operands::Three(a, b, c),
    }
}

fn field_word(field: Field) -> Word
    ensures { result ≡ field_word field }
{
    Word::Field {
        register: u64::from(field.reg),
        part: field.part,
    }
}

fn value_word(operand: Operand) -> Word
    ensures { result ≡ value_word operand }
{
    match operand {
        Operand::Field(field) => field_word(field),
        Operand::Imm(n) => Word::Number(u64::from(n)),
    }
}

fn jump_word(to: Jump) -> Word
    ensures { result ≡ jump_word to }
{
    match to {
        Jump::Field(field) => field_word(field),
        Jump::Word(_) => Word::Label,
    }
}

fn base_word(base: Base) -> Word
    ensures { result ≡ base_word base }
{
    match base {
        Base::Reg(n) => Word::Field {
            register: u64::from(n),
            part: Part::All,
        },
        Base::Constant(constant) => Word::Constant(constant_number(constant)),
    }
}

fn constant_number(constant: Constant) -> u64
    ensures { result ≡ constant_number constant }
{
    match constant {
        Constant::C0 => 0,
        Constant::C4 => 4,
        Constant::C24 => 24,
        Constant::C25 => 25,
        Constant::C28 => 28,
    }
}

fn device_number(bank: Bank) -> u64
    ensures { result ≡ device_number bank }
{
    match bank {
        Bank::Bank0 => 10,
        Bank::Bank1 => 11,
        Bank::Bank2 => 12,
    }
}

fn byte_part(byte: u8) -> Part
    ensures { result ≡ byte_part byte }
{
    match byte {
        0 => Part::All,
        1 => Part::B1,
        2 => Part::B2,
        _ => Part::B3,
    }
}

fn transfer_form(mnemonic: Mnemonic, moved: Transfer) -> Form
    ensures { result ≡ transfer_form mnemonic moved }
{
    let first = Word::Field {
        register: u64::from(moved.first),
        part: Part::All,
    };
    three(
        mnemonic,
        Word::Number(device_number(moved.bank)),
        first,
        Word::Number(u64::from(moved.count)),
    )
}

fn access_form(register: Mnemonic, constant: Mnemonic, access: Access) -> Form
    ensures { result ≡ access_form register constant access }
{
    let mnemonic = match access.base {
        Base::Reg(_) => register,
        Base::Constant(_) => constant,
    };
    let first = Word::Field {
        register: u64::from(access.first),
        part: byte_part(access.byte),
    };
    Form {
        mnemonic,
        operands: Operands::Four(
            first,
            base_word(access.base),
            value_word(access.offset),
            Word::Number(u64::from(access.len)),
        ),
    }
}
