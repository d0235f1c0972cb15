//! Rules of types.
use crate::part::Symbol::{Read, Reduce, Take};
use crate::part::{Move, Part, Rule};
use cgrammar::{Production, Terminal, Word, Words};
use csyn::{Keyword, Punctuator};

pub const TYPE_NAME: [Rule; 1] = [(
    &[Terminal::Any],
    Move::Stay,
    &[
        Read(Part::Type),
        Read(Part::Pointers),
        Reduce(Production::TypeName),
    ],
)];

pub const TYPE: [Rule; 2] = [
    (
        &[Terminal::Specifier],
        Move::Take,
        &[Read(Part::Type), Reduce(Production::Specified)],
    ),
    (
        &[Terminal::Any],
        Move::Stay,
        &[
            Read(Part::Base),
            Read(Part::Qualifiers),
            Reduce(Production::Based),
        ],
    ),
];

pub const BASE: [Rule; 7] = [
    (
        &[Terminal::Keyword(Keyword::Void)],
        Move::Take,
        &[Reduce(Production::VoidBase)],
    ),
    (
        &[Terminal::Keyword(Keyword::Struct)],
        Move::Take,
        &[
            Take(Terminal::Name),
            Reduce(Production::Identifier),
            Reduce(Production::StructBase),
        ],
    ),
    (
        &[Terminal::Standard],
        Move::Take,
        &[Reduce(Production::StandardBase)],
    ),
    (
        &[Terminal::Sign],
        Move::Take,
        &[
            Reduce(Production::FirstWord(Word::Sign)),
            Read(Part::Words(Words::Sign)),
            Reduce(Production::IntegerBase),
        ],
    ),
    (
        &[Terminal::Keyword(Keyword::Char)],
        Move::Take,
        &[
            Reduce(Production::FirstWord(Word::Char)),
            Read(Part::Words(Words::Char)),
            Reduce(Production::IntegerBase),
        ],
    ),
    (
        &[Terminal::Length],
        Move::Take,
        &[
            Reduce(Production::FirstWord(Word::Length)),
            Read(Part::Words(Words::Length)),
            Reduce(Production::IntegerBase),
        ],
    ),
    (
        &[Terminal::Keyword(Keyword::Int)],
        Move::Take,
        &[
            Reduce(Production::FirstWord(Word::Int)),
            Read(Part::Words(Words::Int)),
            Reduce(Production::IntegerBase),
        ],
    ),
];

pub const WORDS_SIGN: [Rule; 4] = [
    (
        &[Terminal::Keyword(Keyword::Char)],
        Move::Take,
        &[
            Reduce(Production::NextWord(Words::SignChar, Word::Char)),
            Read(Part::Words(Words::SignChar)),
        ],
    ),
    (
        &[Terminal::Length],
        Move::Take,
        &[
            Reduce(Production::NextWord(Words::SignLength, Word::Length)),
            Read(Part::Words(Words::SignLength)),
        ],
    ),
    (
        &[Terminal::Keyword(Keyword::Int)],
        Move::Take,
        &[
            Reduce(Production::NextWord(Words::SignInt, Word::Int)),
            Read(Part::Words(Words::SignInt)),
        ],
    ),
    (&[Terminal::Any], Move::Stay, &[]),
];

pub const WORDS_CHAR: [Rule; 2] = [
    (
        &[Terminal::Sign],
        Move::Take,
        &[
            Reduce(Production::NextWord(Words::SignChar, Word::Sign)),
            Read(Part::Words(Words::SignChar)),
        ],
    ),
    (&[Terminal::Any], Move::Stay, &[]),
];

pub const WORDS_LENGTH: [Rule; 3] = [
    (
        &[Terminal::Sign],
        Move::Take,
        &[
            Reduce(Production::NextWord(Words::SignLength, Word::Sign)),
            Read(Part::Words(Words::SignLength)),
        ],
    ),
    (
        &[Terminal::Keyword(Keyword::Int)],
        Move::Take,
        &[
            Reduce(Production::NextWord(Words::LengthInt, Word::Int)),
            Read(Part::Words(Words::LengthInt)),
        ],
    ),
    (&[Terminal::Any], Move::Stay, &[]),
];

pub const WORDS_INT: [Rule; 3] = [
    (
        &[Terminal::Sign],
        Move::Take,
        &[
            Reduce(Production::NextWord(Words::SignInt, Word::Sign)),
            Read(Part::Words(Words::SignInt)),
        ],
    ),
    (
        &[Terminal::Length],
        Move::Take,
        &[
            Reduce(Production::NextWord(Words::LengthInt, Word::Length)),
            Read(Part::Words(Words::LengthInt)),
        ],
    ),
    (&[Terminal::Any], Move::Stay, &[]),
];

pub const WORDS_SIGN_CHAR: [Rule; 1] = [(&[Terminal::Any], Move::Stay, &[])];

pub const WORDS_SIGN_LENGTH: [Rule; 2] = [
    (
        &[Terminal::Keyword(Keyword::Int)],
        Move::Take,
        &[
            Reduce(Production::NextWord(Words::SignLengthInt, Word::Int)),
            Read(Part::Words(Words::SignLengthInt)),
        ],
    ),
    (&[Terminal::Any], Move::Stay, &[]),
];

pub const WORDS_SIGN_INT: [Rule; 2] = [
    (
        &[Terminal::Length],
        Move::Take,
        &[
            Reduce(Production::NextWord(Words::SignLengthInt, Word::Length)),
            Read(Part::Words(Words::SignLengthInt)),
        ],
    ),
    (&[Terminal::Any], Move::Stay, &[]),
];

pub const WORDS_LENGTH_INT: [Rule; 2] = [
    (
        &[Terminal::Sign],
        Move::Take,
        &[
            Reduce(Production::NextWord(Words::SignLengthInt, Word::Sign)),
            Read(Part::Words(Words::SignLengthInt)),
        ],
    ),
    (&[Terminal::Any], Move::Stay, &[]),
];

pub const WORDS_SIGN_LENGTH_INT: [Rule; 1] = [(&[Terminal::Any], Move::Stay, &[])];

pub const QUALIFIERS: [Rule; 2] = [
    (
        &[Terminal::Qualifier],
        Move::Take,
        &[Read(Part::Qualifiers), Reduce(Production::Qualified)],
    ),
    (
        &[Terminal::Any],
        Move::Stay,
        &[Reduce(Production::NoQualifiers)],
    ),
];

pub const POINTERS: [Rule; 1] = [(
    &[Terminal::Any],
    Move::Stay,
    &[Reduce(Production::NoPointers), Read(Part::StarsTail)],
)];

pub const STARS_TAIL: [Rule; 2] = [
    (
        &[Terminal::Punctuator(Punctuator::Star)],
        Move::Take,
        &[Read(Part::AfterStar)],
    ),
    (&[Terminal::Any], Move::Stay, &[]),
];

pub const AFTER_STAR: [Rule; 2] = [
    (
        &[Terminal::Qualifier],
        Move::Take,
        &[
            Read(Part::Qualifiers),
            Reduce(Production::Qualified),
            Reduce(Production::QualifiedPointer),
            Read(Part::PointersTail),
        ],
    ),
    (
        &[Terminal::Any],
        Move::Stay,
        &[Reduce(Production::Star), Read(Part::StarsTail)],
    ),
];

pub const POINTERS_TAIL: [Rule; 2] = [
    (
        &[Terminal::Punctuator(Punctuator::Star)],
        Move::Take,
        &[Read(Part::AfterNextStar)],
    ),
    (&[Terminal::Any], Move::Stay, &[]),
];

pub const AFTER_NEXT_STAR: [Rule; 2] = [
    (
        &[Terminal::Qualifier],
        Move::Take,
        &[
            Read(Part::Qualifiers),
            Reduce(Production::Qualified),
            Reduce(Production::QualifiedPointer),
            Read(Part::PointersTail),
        ],
    ),
    (
        &[Terminal::Any],
        Move::Stay,
        &[Reduce(Production::NextPointer), Read(Part::PointersTail)],
    ),
];
