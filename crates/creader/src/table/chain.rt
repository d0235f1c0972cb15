//! Rules of operators between two operands: each level's operands are of the next one, and the tail goes on with what has
//! been read, so that operators of a level associate to the left.
use crate::part::Symbol::{Read, Reduce};
use crate::part::{Move, Part, Rule};
use cgrammar::{Level, Production, Terminal};
use csyn::{BinaryOperator, ComparisonOperator, LogicalOperator, Punctuator};

pub const CHAIN_OR: [Rule; 1] = [(
    &[Terminal::Any],
    Move::Stay,
    &[
        Read(Part::Chain(Level::And)),
        Read(Part::ChainTail(Level::Or)),
    ],
)];

pub const CHAIN_TAIL_OR: [Rule; 2] = [
    (
        &[Terminal::Punctuator(Punctuator::LogicalOr)],
        Move::Take,
        &[
            Read(Part::Chain(Level::And)),
            Reduce(Production::Logical(LogicalOperator::Or)),
            Read(Part::ChainTail(Level::Or)),
        ],
    ),
    (&[Terminal::Any], Move::Stay, &[]),
];

pub const CHAIN_AND: [Rule; 1] = [(
    &[Terminal::Any],
    Move::Stay,
    &[
        Read(Part::Chain(Level::BitOr)),
        Read(Part::ChainTail(Level::And)),
    ],
)];

pub const CHAIN_TAIL_AND: [Rule; 2] = [
    (
        &[Terminal::Punctuator(Punctuator::LogicalAnd)],
        Move::Take,
        &[
            Read(Part::Chain(Level::BitOr)),
            Reduce(Production::Logical(LogicalOperator::And)),
            Read(Part::ChainTail(Level::And)),
        ],
    ),
    (&[Terminal::Any], Move::Stay, &[]),
];

pub const CHAIN_BIT_OR: [Rule; 1] = [(
    &[Terminal::Any],
    Move::Stay,
    &[
        Read(Part::Chain(Level::BitXor)),
        Read(Part::ChainTail(Level::BitOr)),
    ],
)];

pub const CHAIN_TAIL_BIT_OR: [Rule; 2] = [
    (
        &[Terminal::Punctuator(Punctuator::Bar)],
        Move::Take,
        &[
            Read(Part::Chain(Level::BitXor)),
            Reduce(Production::Binary(BinaryOperator::BitOr)),
            Read(Part::ChainTail(Level::BitOr)),
        ],
    ),
    (&[Terminal::Any], Move::Stay, &[]),
];

pub const CHAIN_BIT_XOR: [Rule; 1] = [(
    &[Terminal::Any],
    Move::Stay,
    &[
        Read(Part::Chain(Level::BitAnd)),
        Read(Part::ChainTail(Level::BitXor)),
    ],
)];

pub const CHAIN_TAIL_BIT_XOR: [Rule; 2] = [
    (
        &[Terminal::Punctuator(Punctuator::Caret)],
        Move::Take,
        &[
            Read(Part::Chain(Level::BitAnd)),
            Reduce(Production::Binary(BinaryOperator::BitXor)),
            Read(Part::ChainTail(Level::BitXor)),
        ],
    ),
    (&[Terminal::Any], Move::Stay, &[]),
];

pub const CHAIN_BIT_AND: [Rule; 1] = [(
    &[Terminal::Any],
    Move::Stay,
    &[
        Read(Part::Chain(Level::Equality)),
        Read(Part::ChainTail(Level::BitAnd)),
    ],
)];

pub const CHAIN_TAIL_BIT_AND: [Rule; 2] = [
    (
        &[Terminal::Punctuator(Punctuator::Ampersand)],
        Move::Take,
        &[
            Read(Part::Chain(Level::Equality)),
            Reduce(Production::Binary(BinaryOperator::BitAnd)),
            Read(Part::ChainTail(Level::BitAnd)),
        ],
    ),
    (&[Terminal::Any], Move::Stay, &[]),
];

pub const CHAIN_EQUALITY: [Rule; 1] = [(
    &[Terminal::Any],
    Move::Stay,
    &[
        Read(Part::Chain(Level::Relation)),
        Read(Part::ChainTail(Level::Equality)),
    ],
)];

pub const CHAIN_TAIL_EQUALITY: [Rule; 3] = [
    (
        &[Terminal::Punctuator(Punctuator::Equal)],
        Move::Take,
        &[
            Read(Part::Chain(Level::Relation)),
            Reduce(Production::Comparison(ComparisonOperator::Equal)),
            Read(Part::ChainTail(Level::Equality)),
        ],
    ),
    (
        &[Terminal::Punctuator(Punctuator::NotEqual)],
        Move::Take,
        &[
            Read(Part::Chain(Level::Relation)),
            Reduce(Production::Comparison(ComparisonOperator::NotEqual)),
            Read(Part::ChainTail(Level::Equality)),
        ],
    ),
    (&[Terminal::Any], Move::Stay, &[]),
];

pub const CHAIN_RELATION: [Rule; 1] = [(
    &[Terminal::Any],
    Move::Stay,
    &[
        Read(Part::Chain(Level::Shift)),
        Read(Part::ChainTail(Level::Relation)),
    ],
)];

pub const CHAIN_TAIL_RELATION: [Rule; 5] = [
    (
        &[Terminal::Punctuator(Punctuator::Less)],
        Move::Take,
        &[
            Read(Part::Chain(Level::Shift)),
            Reduce(Production::Comparison(ComparisonOperator::Less)),
            Read(Part::ChainTail(Level::Relation)),
        ],
    ),
    (
        &[Terminal::Punctuator(Punctuator::Greater)],
        Move::Take,
        &[
            Read(Part::Chain(Level::Shift)),
            Reduce(Production::Comparison(ComparisonOperator::Greater)),
            Read(Part::ChainTail(Level::Relation)),
        ],
    ),
    (
        &[Terminal::Punctuator(Punctuator::LessEqual)],
        Move::Take,
        &[
            Read(Part::Chain(Level::Shift)),
            Reduce(Production::Comparison(ComparisonOperator::LessEqual)),
            Read(Part::ChainTail(Level::Relation)),
        ],
    ),
    (
        &[Terminal::Punctuator(Punctuator::GreaterEqual)],
        Move::Take,
        &[
            Read(Part::Chain(Level::Shift)),
            Reduce(Production::Comparison(ComparisonOperator::GreaterEqual)),
            Read(Part::ChainTail(Level::Relation)),
        ],
    ),
    (&[Terminal::Any], Move::Stay, &[]),
];

pub const CHAIN_SHIFT: [Rule; 1] = [(
    &[Terminal::Any],
    Move::Stay,
    &[
        Read(Part::Chain(Level::Sum)),
        Read(Part::ChainTail(Level::Shift)),
    ],
)];

pub const CHAIN_TAIL_SHIFT: [Rule; 3] = [
    (
        &[Terminal::Punctuator(Punctuator::ShiftLeft)],
        Move::Take,
        &[
            Read(Part::Chain(Level::Sum)),
            Reduce(Production::Binary(BinaryOperator::ShiftLeft)),
            Read(Part::ChainTail(Level::Shift)),
        ],
    ),
    (
        &[Terminal::Punctuator(Punctuator::ShiftRight)],
        Move::Take,
        &[
            Read(Part::Chain(Level::Sum)),
            Reduce(Production::Binary(BinaryOperator::ShiftRight)),
            Read(Part::ChainTail(Level::Shift)),
        ],
    ),
    (&[Terminal::Any], Move::Stay, &[]),
];

pub const CHAIN_SUM: [Rule; 1] = [(
    &[Terminal::Any],
    Move::Stay,
    &[
        Read(Part::Chain(Level::Product)),
        Read(Part::ChainTail(Level::Sum)),
    ],
)];

pub const CHAIN_TAIL_SUM: [Rule; 3] = [
    (
        &[Terminal::Punctuator(Punctuator::Plus)],
        Move::Take,
        &[
            Read(Part::Chain(Level::Product)),
            Reduce(Production::Binary(BinaryOperator::Add)),
            Read(Part::ChainTail(Level::Sum)),
        ],
    ),
    (
        &[Terminal::Punctuator(Punctuator::Minus)],
        Move::Take,
        &[
            Read(Part::Chain(Level::Product)),
            Reduce(Production::Binary(BinaryOperator::Subtract)),
            Read(Part::ChainTail(Level::Sum)),
        ],
    ),
    (&[Terminal::Any], Move::Stay, &[]),
];

pub const CHAIN_PRODUCT: [Rule; 1] = [(
    &[Terminal::Any],
    Move::Stay,
    &[Read(Part::Operand), Read(Part::ChainTail(Level::Product))],
)];

pub const CHAIN_TAIL_PRODUCT: [Rule; 4] = [
    (
        &[Terminal::Punctuator(Punctuator::Star)],
        Move::Take,
        &[
            Read(Part::Operand),
            Reduce(Production::Binary(BinaryOperator::Multiply)),
            Read(Part::ChainTail(Level::Product)),
        ],
    ),
    (
        &[Terminal::Punctuator(Punctuator::Slash)],
        Move::Take,
        &[
            Read(Part::Operand),
            Reduce(Production::Binary(BinaryOperator::Divide)),
            Read(Part::ChainTail(Level::Product)),
        ],
    ),
    (
        &[Terminal::Punctuator(Punctuator::Percent)],
        Move::Take,
        &[
            Read(Part::Operand),
            Reduce(Production::Binary(BinaryOperator::Remainder)),
            Read(Part::ChainTail(Level::Product)),
        ],
    ),
    (&[Terminal::Any], Move::Stay, &[]),
];
