//! The instructions: one variant for each row of the word table.

use crate::access::Access;
use crate::control::{BranchOffset, Condition, Jump, LoopBody};
use crate::field::{Field, Operand};
use crate::transfer::Transfer;

/// What an instruction of the first row computes. The comparisons of `Min` and `Max` have no sign.
#[derive(Clone, Copy, Debug, PartialEq, Eq, Hash)]
pub enum AluOp {
    Add,
    /// A - B
    Sub,
    /// To the left by B modulo 32
    Lsl,
    /// To the right by B modulo 32
    Lsr,
    /// B - A
    Rsb,
    And,
    Or,
    Xor,
    Min,
    Max,
    /// Clears bit B modulo 32 of A
    Clr,
    /// Sets bit B modulo 32 of A
    Set,
}

/// An instruction. Sources are extended with zeros to 32 bits, results are cut to the field `d`.
#[derive(Clone, Copy, Debug, PartialEq, Eq)]
pub enum Inst {
    Alu {
        op: AluOp,
        d: Field,
        a: Field,
        b: Operand,
    },
    Not {
        d: Field,
        a: Field,
    },
    Jmp {
        to: Jump,
    },
    /// Jumps, and puts the number of the next word into `d`.
    Jal {
        d: Field,
        to: Jump,
    },
    Ldi {
        d: Field,
        n: u16,
    },
    /// The greatest number of a bit of `a` that is bit 0 of `b`, or 32.
    Lmbd {
        d: Field,
        a: Field,
        b: Operand,
    },
    Halt,
    /// From a bank of the scratchpad into registers.
    Xin {
        moved: Transfer,
    },
    /// From registers into a bank of the scratchpad.
    Xout {
        moved: Transfer,
    },
    /// Runs the words behind it a number of times.
    Loop {
        body: LoopBody,
    },
    /// Branches where `b` stands to `a` as the condition says.
    Branch {
        condition: Condition,
        offset: BranchOffset,
        a: Field,
        b: Operand,
    },
    /// Branches always.
    Qba {
        offset: BranchOffset,
    },
    /// LBBO and LBCO: from memory into registers.
    Load {
        access: Access,
    },
    /// SBBO and SBCO: from registers into memory.
    Store {
        access: Access,
    },
}
