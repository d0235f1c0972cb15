//! Rules of declarations.
use crate::part::Symbol::{Read, Reduce, Take};
use crate::part::{Move, Part, Rule};
use cgrammar::{Production, Terminal};
use csyn::{Keyword, Punctuator};

pub const LENGTHS: [Rule; 2] = [
    (
        &[Terminal::Punctuator(Punctuator::LeftBracket)],
        Move::Take,
        &[
            Read(Part::Expression),
            Take(Terminal::Punctuator(Punctuator::RightBracket)),
            Read(Part::Lengths),
            Reduce(Production::Length),
        ],
    ),
    (
        &[Terminal::Any],
        Move::Stay,
        &[Reduce(Production::NoLengths)],
    ),
];

pub const DECLARATOR: [Rule; 1] = [(
    &[Terminal::Any],
    Move::Stay,
    &[
        Read(Part::Pointers),
        Take(Terminal::Name),
        Reduce(Production::Identifier),
        Read(Part::Lengths),
        Reduce(Production::Declarator),
    ],
)];

pub const MORE_DECLARATORS: [Rule; 2] = [
    (
        &[Terminal::Punctuator(Punctuator::Comma)],
        Move::Take,
        &[
            Read(Part::Declarator),
            Read(Part::MoreDeclarators),
            Reduce(Production::NextDeclarator),
        ],
    ),
    (
        &[Terminal::Any],
        Move::Stay,
        &[Reduce(Production::EndDeclarators)],
    ),
];

pub const STRUCT_MEMBER: [Rule; 1] = [(
    &[Terminal::Any],
    Move::Stay,
    &[
        Read(Part::Type),
        Read(Part::Declarator),
        Read(Part::MoreDeclarators),
        Take(Terminal::Punctuator(Punctuator::Semicolon)),
        Reduce(Production::StructMember),
    ],
)];

pub const MORE_MEMBERS: [Rule; 2] = [
    (
        &[Terminal::Punctuator(Punctuator::RightBrace)],
        Move::Stay,
        &[Reduce(Production::EndMembers)],
    ),
    (
        &[Terminal::Any],
        Move::Stay,
        &[
            Read(Part::StructMember),
            Read(Part::MoreMembers),
            Reduce(Production::NextMember),
        ],
    ),
];

pub const LOCATION: [Rule; 2] = [
    (
        &[Terminal::Keyword(Keyword::Attribute)],
        Move::Take,
        &[
            Take(Terminal::Punctuator(Punctuator::LeftParenthesis)),
            Take(Terminal::Punctuator(Punctuator::LeftParenthesis)),
            Take(Terminal::LocationName),
            Take(Terminal::Punctuator(Punctuator::LeftParenthesis)),
            Read(Part::Expression),
            Take(Terminal::Punctuator(Punctuator::RightParenthesis)),
            Take(Terminal::Punctuator(Punctuator::RightParenthesis)),
            Take(Terminal::Punctuator(Punctuator::RightParenthesis)),
            Reduce(Production::Location),
        ],
    ),
    (
        &[Terminal::Any],
        Move::Stay,
        &[Reduce(Production::NoLocation)],
    ),
];

pub const INITIAL: [Rule; 2] = [
    (
        &[Terminal::Punctuator(Punctuator::Assign)],
        Move::Take,
        &[Read(Part::Init), Reduce(Production::Initial)],
    ),
    (
        &[Terminal::Any],
        Move::Stay,
        &[Reduce(Production::NoInitial)],
    ),
];

pub const INIT: [Rule; 2] = [
    (
        &[Terminal::Punctuator(Punctuator::LeftBrace)],
        Move::Take,
        &[
            Read(Part::Init),
            Read(Part::MoreInits),
            Take(Terminal::Punctuator(Punctuator::RightBrace)),
            Reduce(Production::Braced),
        ],
    ),
    (
        &[Terminal::Any],
        Move::Stay,
        &[
            Read(Part::Assignment),
            Reduce(Production::InitialExpression),
        ],
    ),
];

pub const MORE_INITS: [Rule; 2] = [
    (
        &[Terminal::Punctuator(Punctuator::Comma)],
        Move::Take,
        &[Read(Part::AfterInitComma), Reduce(Production::CommaInits)],
    ),
    (
        &[Terminal::Any],
        Move::Stay,
        &[Reduce(Production::EndInits)],
    ),
];

pub const AFTER_INIT_COMMA: [Rule; 2] = [
    (
        &[Terminal::Punctuator(Punctuator::RightBrace)],
        Move::Stay,
        &[Reduce(Production::TrailingComma)],
    ),
    (
        &[Terminal::Any],
        Move::Stay,
        &[
            Read(Part::Init),
            Read(Part::MoreInits),
            Reduce(Production::NextInit),
        ],
    ),
];

pub const INIT_DECLARATOR: [Rule; 1] = [(
    &[Terminal::Any],
    Move::Stay,
    &[
        Read(Part::Declarator),
        Read(Part::Location),
        Read(Part::Initial),
        Reduce(Production::InitDeclarator),
    ],
)];

pub const MORE_INIT_DECLARATORS: [Rule; 2] = [
    (
        &[Terminal::Punctuator(Punctuator::Comma)],
        Move::Take,
        &[
            Read(Part::InitDeclarator),
            Read(Part::MoreInitDeclarators),
            Reduce(Production::NextInitDeclarator),
        ],
    ),
    (
        &[Terminal::Any],
        Move::Stay,
        &[Reduce(Production::EndInitDeclarators)],
    ),
];

pub const OBJECT: [Rule; 1] = [(
    &[Terminal::Any],
    Move::Stay,
    &[
        Read(Part::Type),
        Read(Part::InitDeclarator),
        Read(Part::MoreInitDeclarators),
        Take(Terminal::Punctuator(Punctuator::Semicolon)),
        Reduce(Production::LocalObject),
    ],
)];
