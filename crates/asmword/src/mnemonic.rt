ghost use Rattle.std.specs.Prelude.{◌≡◌};
ghost use Rattle.asmword.specs.Mnemonics.{alu_name, branch_name, mnemonic_name};

use isa::{AluOp, Condition};

/// The first word of an instruction.
#[derive(Clone, Copy)]
pub enum Mnemonic {
    Alu(AluOp),
    Not,
    Jmp,
    Jal,
    Ldi,
    Lmbd,
    Halt,
    Xin,
    Xout,
    Loop,
    Branch(Condition),
    Qba,
    /// From memory, counted from a register
    Lbbo,
    /// From memory, counted from a constant
    Lbco,
    /// Into memory, counted from a register
    Sbbo,
    /// Into memory, counted from a constant
    Sbco,
}

/// Every mnemonic.
pub const MNEMONICS: [Mnemonic; 34] = [
    Mnemonic::Alu(AluOp::Add),
    Mnemonic::Alu(AluOp::Sub),
    Mnemonic::Alu(AluOp::Lsl),
    Mnemonic::Alu(AluOp::Lsr),
    Mnemonic::Alu(AluOp::Rsb),
    Mnemonic::Alu(AluOp::And),
    Mnemonic::Alu(AluOp::Or),
    Mnemonic::Alu(AluOp::Xor),
    Mnemonic::Alu(AluOp::Min),
    Mnemonic::Alu(AluOp::Max),
    Mnemonic::Alu(AluOp::Clr),
    Mnemonic::Alu(AluOp::Set),
    Mnemonic::Not,
    Mnemonic::Jmp,
    Mnemonic::Jal,
    Mnemonic::Ldi,
    Mnemonic::Lmbd,
    Mnemonic::Halt,
    Mnemonic::Xin,
    Mnemonic::Xout,
    Mnemonic::Loop,
    Mnemonic::Branch(Condition::Lt),
    Mnemonic::Branch(Condition::Eq),
    Mnemonic::Branch(Condition::Le),
    Mnemonic::Branch(Condition::Gt),
    Mnemonic::Branch(Condition::Ne),
    Mnemonic::Branch(Condition::Ge),
    Mnemonic::Branch(Condition::BitClear),
    Mnemonic::Branch(Condition::BitSet),
    Mnemonic::Qba,
    Mnemonic::Lbbo,
    Mnemonic::Lbco,
    Mnemonic::Sbbo,
    Mnemonic::Sbco,
];

impl Mnemonic {
    /// As it is printed, in upper case.
    pub fn name(self) -> &'static str
        ensures { result.now ≡ mnemonic_name self }
    {
        match self {
            Mnemonic::Alu(op) => alu_name(op),
            Mnemonic::Not => "NOT",
            Mnemonic::Jmp => "JMP",
            Mnemonic::Jal => "JAL",
            Mnemonic::Ldi => "LDI",
            Mnemonic::Lmbd => "LMBD",
            Mnemonic::Halt => "HALT",
            Mnemonic::Xin => "XIN",
            Mnemonic::Xout => "XOUT",
            Mnemonic::Loop => "LOOP",
            Mnemonic::Branch(condition) => branch_name(condition),
            Mnemonic::Qba => "QBA",
            Mnemonic::Lbbo => "LBBO",
            Mnemonic::Lbco => "LBCO",
            Mnemonic::Sbbo => "SBBO",
            Mnemonic::Sbco => "SBCO",
        }
    }
}

fn alu_name(op: AluOp) -> &'static str
    ensures { result.now ≡ alu_name op }
{
    match op {
        AluOp::Add => "ADD",
        AluOp::Sub => "SUB",
        AluOp::Lsl => "LSL",
        AluOp::Lsr => "LSR",
        AluOp::Rsb => "RSB",
        AluOp::And => "AND",
        AluOp::Or => "OR",
        AluOp::Xor => "XOR",
        AluOp::Min => "MIN",
        AluOp::Max => "MAX",
        AluOp::Clr => "CLR",
        AluOp::Set => "SET",
    }
}

fn branch_name(condition: Condition) -> &'static str
    ensures { result.now ≡ branch_name condition }
{
    match condition {
        Condition::Lt => "QBLT",
        Condition::Eq => "QBEQ",
        Condition::Le => "QBLE",
        Condition::Gt => "QBGT",
        Condition::Ne => "QBNE",
        Condition::Ge => "QBGE",
        Condition::BitClear => "QBBC",
        Condition::BitSet => "QBBS",
    }
}
