//! Rules of expressions.
use crate::part::Symbol::{Read, Reduce, Take};
use crate::part::{Move, Part, Rule};
use crate::table::{EXPRESSION_STARTS, TYPE_STARTS};
use cgrammar::{Level, Production, Terminal};
use csyn::{BinaryOperator, Keyword, Punctuator};

pub const EXPRESSION: [Rule; 1] = [(
    &[Terminal::Any],
    Move::Stay,
    &[Read(Part::Assignment), Read(Part::CommaTail)],
)];

pub const COMMA_TAIL: [Rule; 2] = [
    (
        &[Terminal::Punctuator(Punctuator::Comma)],
        Move::Take,
        &[
            Read(Part::Assignment),
            Reduce(Production::Comma),
            Read(Part::CommaTail),
        ],
    ),
    (&[Terminal::Any], Move::Stay, &[]),
];

pub const ASSIGNMENT: [Rule; 2] = [
    (
        &[Terminal::Punctuator(Punctuator::LeftParenthesis)],
        Move::Take,
        &[Read(Part::AssignmentParenthesis)],
    ),
    (
        &[Terminal::Any],
        Move::Stay,
        &[Read(Part::Unary), Read(Part::AssignmentTail)],
    ),
];

/// A unary expression is assigned to, or is the first operand of operators of each level, the tightest first.
pub const ASSIGNMENT_TAIL: [Rule; 12] = [
    (
        &[Terminal::Punctuator(Punctuator::Assign)],
        Move::Take,
        &[Read(Part::Assignment), Reduce(Production::Assign)],
    ),
    (
        &[Terminal::Punctuator(Punctuator::MultiplyAssign)],
        Move::Take,
        &[
            Read(Part::Assignment),
            Reduce(Production::AssignWith(BinaryOperator::Multiply)),
        ],
    ),
    (
        &[Terminal::Punctuator(Punctuator::DivideAssign)],
        Move::Take,
        &[
            Read(Part::Assignment),
            Reduce(Production::AssignWith(BinaryOperator::Divide)),
        ],
    ),
    (
        &[Terminal::Punctuator(Punctuator::RemainderAssign)],
        Move::Take,
        &[
            Read(Part::Assignment),
            Reduce(Production::AssignWith(BinaryOperator::Remainder)),
        ],
    ),
    (
        &[Terminal::Punctuator(Punctuator::AddAssign)],
        Move::Take,
        &[
            Read(Part::Assignment),
            Reduce(Production::AssignWith(BinaryOperator::Add)),
        ],
    ),
    (
        &[Terminal::Punctuator(Punctuator::SubtractAssign)],
        Move::Take,
        &[
            Read(Part::Assignment),
            Reduce(Production::AssignWith(BinaryOperator::Subtract)),
        ],
    ),
    (
        &[Terminal::Punctuator(Punctuator::AndAssign)],
        Move::Take,
        &[
            Read(Part::Assignment),
            Reduce(Production::AssignWith(BinaryOperator::BitAnd)),
        ],
    ),
    (
        &[Terminal::Punctuator(Punctuator::XorAssign)],
        Move::Take,
        &[
            Read(Part::Assignment),
            Reduce(Production::AssignWith(BinaryOperator::BitXor)),
        ],
    ),
    (
        &[Terminal::Punctuator(Punctuator::OrAssign)],
        Move::Take,
        &[
            Read(Part::Assignment),
            Reduce(Production::AssignWith(BinaryOperator::BitOr)),
        ],
    ),
    (
        &[Terminal::Punctuator(Punctuator::ShiftLeftAssign)],
        Move::Take,
        &[
            Read(Part::Assignment),
            Reduce(Production::AssignWith(BinaryOperator::ShiftLeft)),
        ],
    ),
    (
        &[Terminal::Punctuator(Punctuator::ShiftRightAssign)],
        Move::Take,
        &[
            Read(Part::Assignment),
            Reduce(Production::AssignWith(BinaryOperator::ShiftRight)),
        ],
    ),
    (
        &[Terminal::Any],
        Move::Stay,
        &[
            Read(Part::ChainTail(Level::Product)),
            Read(Part::ChainTail(Level::Sum)),
            Read(Part::ChainTail(Level::Shift)),
            Read(Part::ChainTail(Level::Relation)),
            Read(Part::ChainTail(Level::Equality)),
            Read(Part::ChainTail(Level::BitAnd)),
            Read(Part::ChainTail(Level::BitXor)),
            Read(Part::ChainTail(Level::BitOr)),
            Read(Part::ChainTail(Level::And)),
            Read(Part::ChainTail(Level::Or)),
            Read(Part::ConditionalTail),
        ],
    ),
];

/// A cast is not assigned to; an expression in parentheses may be.
pub const ASSIGNMENT_PARENTHESIS: [Rule; 2] = [
    (
        TYPE_STARTS,
        Move::Stay,
        &[
            Read(Part::TypeName),
            Take(Terminal::Punctuator(Punctuator::RightParenthesis)),
            Read(Part::Operand),
            Reduce(Production::Cast),
            Read(Part::ChainTail(Level::Product)),
            Read(Part::ChainTail(Level::Sum)),
            Read(Part::ChainTail(Level::Shift)),
            Read(Part::ChainTail(Level::Relation)),
            Read(Part::ChainTail(Level::Equality)),
            Read(Part::ChainTail(Level::BitAnd)),
            Read(Part::ChainTail(Level::BitXor)),
            Read(Part::ChainTail(Level::BitOr)),
            Read(Part::ChainTail(Level::And)),
            Read(Part::ChainTail(Level::Or)),
            Read(Part::ConditionalTail),
        ],
    ),
    (
        &[Terminal::Any],
        Move::Stay,
        &[
            Read(Part::Expression),
            Take(Terminal::Punctuator(Punctuator::RightParenthesis)),
            Reduce(Production::Parenthesised),
            Read(Part::PostfixTail),
            Read(Part::AssignmentTail),
        ],
    ),
];

pub const CONDITIONAL: [Rule; 1] = [(
    &[Terminal::Any],
    Move::Stay,
    &[Read(Part::Chain(Level::Or)), Read(Part::ConditionalTail)],
)];

pub const CONDITIONAL_TAIL: [Rule; 2] = [
    (
        &[Terminal::Punctuator(Punctuator::Question)],
        Move::Take,
        &[
            Read(Part::Expression),
            Take(Terminal::Punctuator(Punctuator::Colon)),
            Read(Part::Conditional),
            Reduce(Production::Conditional),
        ],
    ),
    (&[Terminal::Any], Move::Stay, &[]),
];

pub const OPERAND: [Rule; 2] = [
    (
        &[Terminal::Punctuator(Punctuator::LeftParenthesis)],
        Move::Take,
        &[Read(Part::OperandParenthesis)],
    ),
    (&[Terminal::Any], Move::Stay, &[Read(Part::Unary)]),
];

pub const OPERAND_PARENTHESIS: [Rule; 2] = [
    (
        TYPE_STARTS,
        Move::Stay,
        &[
            Read(Part::TypeName),
            Take(Terminal::Punctuator(Punctuator::RightParenthesis)),
            Read(Part::Operand),
            Reduce(Production::Cast),
        ],
    ),
    (
        &[Terminal::Any],
        Move::Stay,
        &[
            Read(Part::Expression),
            Take(Terminal::Punctuator(Punctuator::RightParenthesis)),
            Reduce(Production::Parenthesised),
            Read(Part::PostfixTail),
        ],
    ),
];

pub const UNARY: [Rule; 8] = [
    (
        &[Terminal::Name],
        Move::Take,
        &[Reduce(Production::Identifier), Read(Part::AfterName)],
    ),
    (
        &[Terminal::Number],
        Move::Take,
        &[Reduce(Production::Number), Read(Part::PostfixTail)],
    ),
    (
        &[Terminal::Character],
        Move::Take,
        &[Reduce(Production::Character), Read(Part::PostfixTail)],
    ),
    (
        &[Terminal::Punctuator(Punctuator::LeftParenthesis)],
        Move::Take,
        &[
            Read(Part::Expression),
            Take(Terminal::Punctuator(Punctuator::RightParenthesis)),
            Reduce(Production::Parenthesised),
            Read(Part::PostfixTail),
        ],
    ),
    (
        &[Terminal::Punctuator(Punctuator::Increment)],
        Move::Take,
        &[Read(Part::Unary), Reduce(Production::PreIncrement)],
    ),
    (
        &[Terminal::Punctuator(Punctuator::Decrement)],
        Move::Take,
        &[Read(Part::Unary), Reduce(Production::PreDecrement)],
    ),
    (
        &[Terminal::Prefix],
        Move::Take,
        &[Read(Part::Operand), Reduce(Production::Prefix)],
    ),
    (
        &[Terminal::Keyword(Keyword::Sizeof)],
        Move::Take,
        &[Read(Part::SizeofOperand)],
    ),
];

pub const SIZEOF_OPERAND: [Rule; 2] = [
    (
        &[Terminal::Punctuator(Punctuator::LeftParenthesis)],
        Move::Take,
        &[Read(Part::SizeofParenthesis)],
    ),
    (
        &[Terminal::Any],
        Move::Stay,
        &[Read(Part::Unary), Reduce(Production::SizeofExpression)],
    ),
];

pub const SIZEOF_PARENTHESIS: [Rule; 2] = [
    (
        TYPE_STARTS,
        Move::Stay,
        &[
            Read(Part::TypeName),
            Take(Terminal::Punctuator(Punctuator::RightParenthesis)),
            Reduce(Production::SizeofType),
        ],
    ),
    (
        &[Terminal::Any],
        Move::Stay,
        &[
            Read(Part::Expression),
            Take(Terminal::Punctuator(Punctuator::RightParenthesis)),
            Reduce(Production::Parenthesised),
            Read(Part::PostfixTail),
            Reduce(Production::SizeofExpression),
        ],
    ),
];

pub const AFTER_NAME: [Rule; 2] = [
    (
        &[Terminal::Punctuator(Punctuator::LeftParenthesis)],
        Move::Take,
        &[
            Read(Part::Arguments),
            Take(Terminal::Punctuator(Punctuator::RightParenthesis)),
            Reduce(Production::CallFunction),
            Read(Part::PostfixTail),
        ],
    ),
    (
        &[Terminal::Any],
        Move::Stay,
        &[Reduce(Production::Name), Read(Part::NameTail)],
    ),
];

/// As `POSTFIX_TAIL`, but for the call, which `AFTER_NAME` reads.
pub const NAME_TAIL: [Rule; 6] = [
    (
        &[Terminal::Punctuator(Punctuator::LeftBracket)],
        Move::Take,
        &[
            Read(Part::Expression),
            Take(Terminal::Punctuator(Punctuator::RightBracket)),
            Reduce(Production::Index),
            Read(Part::PostfixTail),
        ],
    ),
    (
        &[Terminal::Punctuator(Punctuator::Dot)],
        Move::Take,
        &[
            Take(Terminal::Name),
            Reduce(Production::Identifier),
            Reduce(Production::Member),
            Read(Part::PostfixTail),
        ],
    ),
    (
        &[Terminal::Punctuator(Punctuator::Arrow)],
        Move::Take,
        &[
            Take(Terminal::Name),
            Reduce(Production::Identifier),
            Reduce(Production::Arrow),
            Read(Part::PostfixTail),
        ],
    ),
    (
        &[Terminal::Punctuator(Punctuator::Increment)],
        Move::Take,
        &[Reduce(Production::PostIncrement), Read(Part::PostfixTail)],
    ),
    (
        &[Terminal::Punctuator(Punctuator::Decrement)],
        Move::Take,
        &[Reduce(Production::PostDecrement), Read(Part::PostfixTail)],
    ),
    (&[Terminal::Any], Move::Stay, &[]),
];

pub const POSTFIX_TAIL: [Rule; 7] = [
    (
        &[Terminal::Punctuator(Punctuator::LeftParenthesis)],
        Move::Take,
        &[
            Read(Part::Arguments),
            Take(Terminal::Punctuator(Punctuator::RightParenthesis)),
            Reduce(Production::Call),
            Read(Part::PostfixTail),
        ],
    ),
    (
        &[Terminal::Punctuator(Punctuator::LeftBracket)],
        Move::Take,
        &[
            Read(Part::Expression),
            Take(Terminal::Punctuator(Punctuator::RightBracket)),
            Reduce(Production::Index),
            Read(Part::PostfixTail),
        ],
    ),
    (
        &[Terminal::Punctuator(Punctuator::Dot)],
        Move::Take,
        &[
            Take(Terminal::Name),
            Reduce(Production::Identifier),
            Reduce(Production::Member),
            Read(Part::PostfixTail),
        ],
    ),
    (
        &[Terminal::Punctuator(Punctuator::Arrow)],
        Move::Take,
        &[
            Take(Terminal::Name),
            Reduce(Production::Identifier),
            Reduce(Production::Arrow),
            Read(Part::PostfixTail),
        ],
    ),
    (
        &[Terminal::Punctuator(Punctuator::Increment)],
        Move::Take,
        &[Reduce(Production::PostIncrement), Read(Part::PostfixTail)],
    ),
    (
        &[Terminal::Punctuator(Punctuator::Decrement)],
        Move::Take,
        &[Reduce(Production::PostDecrement), Read(Part::PostfixTail)],
    ),
    (&[Terminal::Any], Move::Stay, &[]),
];

pub const ARGUMENTS: [Rule; 2] = [
    (
        &[Terminal::Punctuator(Punctuator::RightParenthesis)],
        Move::Stay,
        &[Reduce(Production::NoArguments)],
    ),
    (
        &[Terminal::Any],
        Move::Stay,
        &[
            Read(Part::Assignment),
            Read(Part::MoreArguments),
            Reduce(Production::SomeArguments),
        ],
    ),
];

pub const MORE_ARGUMENTS: [Rule; 2] = [
    (
        &[Terminal::Punctuator(Punctuator::Comma)],
        Move::Take,
        &[
            Read(Part::Assignment),
            Read(Part::MoreArguments),
            Reduce(Production::NextArgument),
        ],
    ),
    (
        &[Terminal::Any],
        Move::Stay,
        &[Reduce(Production::EndArguments)],
    ),
];

pub const OPTIONAL_EXPRESSION: [Rule; 2] = [
    (
        EXPRESSION_STARTS,
        Move::Stay,
        &[Read(Part::Expression), Reduce(Production::SomeExpression)],
    ),
    (
        &[Terminal::Any],
        Move::Stay,
        &[Reduce(Production::NoExpression)],
    ),
];
