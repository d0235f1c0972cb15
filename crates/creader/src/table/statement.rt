//! Rules of statements.
use crate::part::Symbol::{Read, Reduce, Take};
use crate::part::{Move, Part, Rule};
use crate::table::TYPE_STARTS;
use cgrammar::{Production, Terminal};
use csyn::{Keyword, Punctuator};

/// What a label of a `switch` begins with.
const LABEL_STARTS: &[Terminal] = &[
    Terminal::Keyword(Keyword::Case),
    Terminal::Keyword(Keyword::Default),
];

pub const STATEMENT: [Rule; 11] = [
    (
        &[Terminal::Punctuator(Punctuator::LeftBrace)],
        Move::Take,
        &[
            Read(Part::Items),
            Take(Terminal::Punctuator(Punctuator::RightBrace)),
            Reduce(Production::Block),
        ],
    ),
    (
        &[Terminal::Keyword(Keyword::If)],
        Move::Take,
        &[
            Take(Terminal::Punctuator(Punctuator::LeftParenthesis)),
            Read(Part::Expression),
            Take(Terminal::Punctuator(Punctuator::RightParenthesis)),
            Read(Part::Statement),
            Read(Part::OptionalElse),
            Reduce(Production::If),
        ],
    ),
    (
        &[Terminal::Keyword(Keyword::While)],
        Move::Take,
        &[
            Take(Terminal::Punctuator(Punctuator::LeftParenthesis)),
            Read(Part::Expression),
            Take(Terminal::Punctuator(Punctuator::RightParenthesis)),
            Read(Part::Statement),
            Reduce(Production::While),
        ],
    ),
    (
        &[Terminal::Keyword(Keyword::Do)],
        Move::Take,
        &[
            Read(Part::Statement),
            Take(Terminal::Keyword(Keyword::While)),
            Take(Terminal::Punctuator(Punctuator::LeftParenthesis)),
            Read(Part::Expression),
            Take(Terminal::Punctuator(Punctuator::RightParenthesis)),
            Take(Terminal::Punctuator(Punctuator::Semicolon)),
            Reduce(Production::Do),
        ],
    ),
    (
        &[Terminal::Keyword(Keyword::For)],
        Move::Take,
        &[
            Take(Terminal::Punctuator(Punctuator::LeftParenthesis)),
            Read(Part::ForFirst),
            Read(Part::OptionalExpression),
            Take(Terminal::Punctuator(Punctuator::Semicolon)),
            Read(Part::OptionalExpression),
            Take(Terminal::Punctuator(Punctuator::RightParenthesis)),
            Read(Part::Statement),
            Reduce(Production::For),
        ],
    ),
    (
        &[Terminal::Keyword(Keyword::Switch)],
        Move::Take,
        &[
            Take(Terminal::Punctuator(Punctuator::LeftParenthesis)),
            Read(Part::Expression),
            Take(Terminal::Punctuator(Punctuator::RightParenthesis)),
            Take(Terminal::Punctuator(Punctuator::LeftBrace)),
            Read(Part::SwitchItems),
            Take(Terminal::Punctuator(Punctuator::RightBrace)),
            Reduce(Production::Switch),
        ],
    ),
    (
        &[Terminal::Keyword(Keyword::Break)],
        Move::Take,
        &[
            Take(Terminal::Punctuator(Punctuator::Semicolon)),
            Reduce(Production::Break),
        ],
    ),
    (
        &[Terminal::Keyword(Keyword::Continue)],
        Move::Take,
        &[
            Take(Terminal::Punctuator(Punctuator::Semicolon)),
            Reduce(Production::Continue),
        ],
    ),
    (
        &[Terminal::Keyword(Keyword::Return)],
        Move::Take,
        &[
            Read(Part::OptionalExpression),
            Take(Terminal::Punctuator(Punctuator::Semicolon)),
            Reduce(Production::Return),
        ],
    ),
    (
        &[Terminal::Keyword(Keyword::Region)],
        Move::Take,
        &[
            Take(Terminal::Punctuator(Punctuator::LeftParenthesis)),
            Take(Terminal::Literal),
            Reduce(Production::RegionName),
            Take(Terminal::Punctuator(Punctuator::RightParenthesis)),
            Take(Terminal::Punctuator(Punctuator::LeftBrace)),
            Read(Part::Items),
            Take(Terminal::Punctuator(Punctuator::RightBrace)),
            Reduce(Production::Region),
        ],
    ),
    (
        &[Terminal::Any],
        Move::Stay,
        &[
            Read(Part::OptionalExpression),
            Take(Terminal::Punctuator(Punctuator::Semicolon)),
            Reduce(Production::ExpressionStatement),
        ],
    ),
];

/// The nearest `if` takes the `else`.
pub const OPTIONAL_ELSE: [Rule; 2] = [
    (
        &[Terminal::Keyword(Keyword::Else)],
        Move::Take,
        &[Read(Part::Statement), Reduce(Production::Else)],
    ),
    (&[Terminal::Any], Move::Stay, &[Reduce(Production::NoElse)]),
];

pub const FOR_FIRST: [Rule; 2] = [
    (
        TYPE_STARTS,
        Move::Stay,
        &[Read(Part::Object), Reduce(Production::ForObject)],
    ),
    (
        &[Terminal::Any],
        Move::Stay,
        &[
            Read(Part::OptionalExpression),
            Take(Terminal::Punctuator(Punctuator::Semicolon)),
            Reduce(Production::ForExpression),
        ],
    ),
];

/// They are none or begin with a label.
pub const SWITCH_ITEMS: [Rule; 2] = [
    (
        LABEL_STARTS,
        Move::Stay,
        &[
            Read(Part::Label),
            Read(Part::MoreSwitchItems),
            Reduce(Production::FirstLabel),
        ],
    ),
    (
        &[Terminal::Any],
        Move::Stay,
        &[Reduce(Production::NoSwitchItems)],
    ),
];

pub const LABEL: [Rule; 2] = [
    (
        &[Terminal::Keyword(Keyword::Case)],
        Move::Take,
        &[
            Read(Part::Expression),
            Take(Terminal::Punctuator(Punctuator::Colon)),
            Reduce(Production::CaseLabel),
        ],
    ),
    (
        &[Terminal::Keyword(Keyword::Default)],
        Move::Take,
        &[
            Take(Terminal::Punctuator(Punctuator::Colon)),
            Reduce(Production::DefaultLabel),
        ],
    ),
];

pub const MORE_SWITCH_ITEMS: [Rule; 3] = [
    (
        &[Terminal::Punctuator(Punctuator::RightBrace)],
        Move::Stay,
        &[Reduce(Production::EndSwitchItems)],
    ),
    (
        LABEL_STARTS,
        Move::Stay,
        &[
            Read(Part::Label),
            Read(Part::MoreSwitchItems),
            Reduce(Production::NextLabel),
        ],
    ),
    (
        &[Terminal::Any],
        Move::Stay,
        &[
            Read(Part::Statement),
            Read(Part::MoreSwitchItems),
            Reduce(Production::NextSwitchStatement),
        ],
    ),
];

pub const ITEMS: [Rule; 3] = [
    (
        &[Terminal::Punctuator(Punctuator::RightBrace)],
        Move::Stay,
        &[Reduce(Production::EndItems)],
    ),
    (
        TYPE_STARTS,
        Move::Stay,
        &[
            Read(Part::Object),
            Read(Part::Items),
            Reduce(Production::NextObject),
        ],
    ),
    (
        &[Terminal::Any],
        Move::Stay,
        &[
            Read(Part::Statement),
            Read(Part::Items),
            Reduce(Production::NextStatement),
        ],
    ),
];
