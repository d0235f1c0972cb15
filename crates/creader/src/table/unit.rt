//! Rules of units.
use crate::part::Symbol::{Read, Reduce, Take};
use crate::part::{Move, Part, Rule};
use cgrammar::{Production, Terminal};
use csyn::{Keyword, Punctuator};

pub const UNITS: [Rule; 2] = [
    (
        &[Terminal::End],
        Move::Stay,
        &[Reduce(Production::EndUnits)],
    ),
    (
        &[Terminal::Any],
        Move::Stay,
        &[
            Read(Part::Unit),
            Read(Part::Units),
            Reduce(Production::NextUnit),
        ],
    ),
];

pub const UNIT: [Rule; 3] = [
    (
        &[Terminal::Keyword(Keyword::Volatile)],
        Move::Take,
        &[Read(Part::AfterVolatile)],
    ),
    (
        &[Terminal::Keyword(Keyword::Struct)],
        Move::Take,
        &[
            Take(Terminal::Name),
            Reduce(Production::Identifier),
            Read(Part::AfterTag),
        ],
    ),
    (
        &[Terminal::Any],
        Move::Stay,
        &[
            Read(Part::Type),
            Read(Part::Pointers),
            Take(Terminal::Name),
            Reduce(Production::Identifier),
            Read(Part::ExternalRest),
            Reduce(Production::External),
        ],
    ),
];

/// `volatile` begins a register's declaration or a type.
pub const AFTER_VOLATILE: [Rule; 2] = [
    (
        &[Terminal::Keyword(Keyword::Register)],
        Move::Take,
        &[
            Read(Part::RegisterType),
            Take(Terminal::RegisterName),
            Take(Terminal::Punctuator(Punctuator::Semicolon)),
            Reduce(Production::RegisterUnit),
        ],
    ),
    (
        &[Terminal::Any],
        Move::Stay,
        &[
            Read(Part::Type),
            Reduce(Production::Specified),
            Read(Part::Pointers),
            Take(Terminal::Name),
            Reduce(Production::Identifier),
            Read(Part::ExternalRest),
            Reduce(Production::External),
        ],
    ),
];

pub const REGISTER_TYPE: [Rule; 2] = [
    (
        &[Terminal::Keyword(Keyword::Unsigned)],
        Move::Take,
        &[
            Take(Terminal::Keyword(Keyword::Int)),
            Reduce(Production::UnsignedInt),
        ],
    ),
    (
        &[Terminal::Uint32],
        Move::Take,
        &[Reduce(Production::RegisterUint32)],
    ),
];

/// `struct` and a tag begin a struct's definition or a type.
pub const AFTER_TAG: [Rule; 2] = [
    (
        &[Terminal::Punctuator(Punctuator::LeftBrace)],
        Move::Take,
        &[
            Read(Part::StructMember),
            Read(Part::MoreMembers),
            Take(Terminal::Punctuator(Punctuator::RightBrace)),
            Take(Terminal::Punctuator(Punctuator::Semicolon)),
            Reduce(Production::StructUnit),
        ],
    ),
    (
        &[Terminal::Any],
        Move::Stay,
        &[
            Reduce(Production::StructBase),
            Read(Part::Qualifiers),
            Reduce(Production::Based),
            Read(Part::Pointers),
            Take(Terminal::Name),
            Reduce(Production::Identifier),
            Read(Part::ExternalRest),
            Reduce(Production::External),
        ],
    ),
];

pub const EXTERNAL_REST: [Rule; 2] = [
    (
        &[Terminal::Punctuator(Punctuator::LeftParenthesis)],
        Move::Take,
        &[
            Read(Part::Parameters),
            Take(Terminal::Punctuator(Punctuator::RightParenthesis)),
            Read(Part::FunctionEnd),
            Reduce(Production::FunctionRest),
        ],
    ),
    (
        &[Terminal::Any],
        Move::Stay,
        &[
            Read(Part::Lengths),
            Read(Part::Location),
            Read(Part::Initial),
            Read(Part::MoreInitDeclarators),
            Take(Terminal::Punctuator(Punctuator::Semicolon)),
            Reduce(Production::ObjectRest),
        ],
    ),
];

pub const FUNCTION_END: [Rule; 2] = [
    (
        &[Terminal::Punctuator(Punctuator::Semicolon)],
        Move::Take,
        &[Reduce(Production::PrototypeEnd)],
    ),
    (
        &[Terminal::Punctuator(Punctuator::LeftBrace)],
        Move::Take,
        &[
            Read(Part::Items),
            Take(Terminal::Punctuator(Punctuator::RightBrace)),
            Reduce(Production::FunctionBody),
        ],
    ),
];

pub const PARAMETERS: [Rule; 3] = [
    (
        &[Terminal::Punctuator(Punctuator::RightParenthesis)],
        Move::Stay,
        &[Reduce(Production::NoParameters)],
    ),
    (
        &[Terminal::Keyword(Keyword::Void)],
        Move::Take,
        &[Read(Part::AfterVoid)],
    ),
    (
        &[Terminal::Any],
        Move::Stay,
        &[
            Read(Part::Parameter),
            Read(Part::MoreParameters),
            Reduce(Production::SomeParameters),
        ],
    ),
];

/// `void` alone stands for no parameters, and else begins the first parameter's type.
pub const AFTER_VOID: [Rule; 2] = [
    (
        &[Terminal::Punctuator(Punctuator::RightParenthesis)],
        Move::Stay,
        &[Reduce(Production::VoidParameters)],
    ),
    (
        &[Terminal::Any],
        Move::Stay,
        &[
            Reduce(Production::VoidBase),
            Read(Part::Qualifiers),
            Reduce(Production::Based),
            Reduce(Production::NoPointers),
            Read(Part::ParameterTail),
            Read(Part::MoreParameters),
            Reduce(Production::SomeParameters),
        ],
    ),
];

pub const PARAMETER: [Rule; 1] = [(
    &[Terminal::Any],
    Move::Stay,
    &[
        Read(Part::Type),
        Reduce(Production::NoPointers),
        Read(Part::ParameterTail),
    ],
)];

pub const PARAMETER_TAIL: [Rule; 2] = [
    (
        &[Terminal::Punctuator(Punctuator::Star)],
        Move::Take,
        &[Read(Part::ParameterAfterStar)],
    ),
    (
        &[Terminal::Name],
        Move::Take,
        &[Reduce(Production::Identifier), Read(Part::ParameterEnd)],
    ),
];

/// Where the pointers have no qualifiers, the first length may be left out.
pub const PARAMETER_AFTER_STAR: [Rule; 2] = [
    (
        &[Terminal::Qualifier],
        Move::Take,
        &[
            Read(Part::Qualifiers),
            Reduce(Production::Qualified),
            Reduce(Production::QualifiedPointer),
            Read(Part::PointersTail),
            Take(Terminal::Name),
            Reduce(Production::Identifier),
            Read(Part::Lengths),
            Reduce(Production::Parameter),
        ],
    ),
    (
        &[Terminal::Any],
        Move::Stay,
        &[Reduce(Production::Star), Read(Part::ParameterTail)],
    ),
];

pub const PARAMETER_END: [Rule; 2] = [
    (
        &[Terminal::Punctuator(Punctuator::LeftBracket)],
        Move::Take,
        &[Read(Part::ParameterLength)],
    ),
    (
        &[Terminal::Any],
        Move::Stay,
        &[Reduce(Production::NoLengths), Reduce(Production::Parameter)],
    ),
];

pub const PARAMETER_LENGTH: [Rule; 2] = [
    (
        &[Terminal::Punctuator(Punctuator::RightBracket)],
        Move::Take,
        &[Reduce(Production::ArrayParameter)],
    ),
    (
        &[Terminal::Any],
        Move::Stay,
        &[
            Read(Part::Expression),
            Take(Terminal::Punctuator(Punctuator::RightBracket)),
            Read(Part::Lengths),
            Reduce(Production::Length),
            Reduce(Production::Parameter),
        ],
    ),
];

pub const MORE_PARAMETERS: [Rule; 2] = [
    (
        &[Terminal::Punctuator(Punctuator::Comma)],
        Move::Take,
        &[
            Read(Part::Parameter),
            Read(Part::MoreParameters),
            Reduce(Production::NextParameter),
        ],
    ),
    (
        &[Terminal::Any],
        Move::Stay,
        &[Reduce(Production::EndParameters)],
    ),
];
