//! What the grammar writes where a token stands.
ghost use Rattle.std.specs.Prelude.{◌≡◌};
ghost use Rattle.cgrammar.specs.Terminal as specs;

use crate::kind::Kind;
use csyn::{Keyword, Punctuator};

/// What may stand at the place of a token: tokens of one kind or of some.
#[derive(Clone, Copy, Debug, PartialEq, Eq)]
pub enum Terminal {
    /// An identifier of any spelling.
    Name,
    /// `__R30` or `__R31`.
    RegisterName,
    /// `location`.
    LocationName,
    /// An integer constant.
    Number,
    /// A character constant.
    Character,
    /// A string literal.
    Literal,
    /// A type name of `<stdint.h>`.
    Standard,
    /// `uint32_t`.
    Uint32,
    /// `signed` or `unsigned`.
    Sign,
    /// `short` or `long`.
    Length,
    /// `static`, `inline`, `const` or `volatile`.
    Specifier,
    /// `const` or `volatile`.
    Qualifier,
    /// `+`, `-`, `!`, `~`, `*` or `&`.
    Prefix,
    Keyword(Keyword),
    Punctuator(Punctuator),
    /// The end token of a source.
    End,
    /// Any token.
    Any,
}

#[tactic(auto, unfolding(crate::specs::Terminal::keyword_number))]
fn keyword_number(keyword: Keyword) -> u8
    ensures { result ≡ specs.keyword_number keyword }
{
    match keyword {
        Keyword::Attribute => 0,
        Keyword::Auto => 1,
        Keyword::Boolean => 2,
        Keyword::Break => 3,
        Keyword::Case => 4,
        Keyword::Char => 5,
        Keyword::Complex => 6,
        Keyword::Const => 7,
        Keyword::Continue => 8,
        Keyword::Default => 9,
        Keyword::Do => 10,
        Keyword::Double => 11,
        Keyword::Else => 12,
        Keyword::Enum => 13,
        Keyword::Extern => 14,
        Keyword::Float => 15,
        Keyword::For => 16,
        Keyword::Goto => 17,
        Keyword::If => 18,
        Keyword::Imaginary => 19,
        Keyword::Inline => 20,
        Keyword::Int => 21,
        Keyword::Long => 22,
        Keyword::Region => 23,
        Keyword::Register => 24,
        Keyword::Restrict => 25,
        Keyword::Return => 26,
        Keyword::Short => 27,
        Keyword::Signed => 28,
        Keyword::Sizeof => 29,
        Keyword::Static => 30,
        Keyword::Struct => 31,
        Keyword::Switch => 32,
        Keyword::Typedef => 33,
        Keyword::Union => 34,
        Keyword::Unsigned => 35,
        Keyword::Void => 36,
        Keyword::Volatile => 37,
        Keyword::While => 38,
    }
}

#[tactic(auto, unfolding(crate::specs::Terminal::punctuator_number))]
fn punctuator_number(punctuator: Punctuator) -> u8
    ensures { result ≡ specs.punctuator_number punctuator }
{
    match punctuator {
        Punctuator::ShiftLeftAssign => 0,
        Punctuator::ShiftRightAssign => 1,
        Punctuator::Arrow => 2,
        Punctuator::Increment => 3,
        Punctuator::Decrement => 4,
        Punctuator::ShiftLeft => 5,
        Punctuator::ShiftRight => 6,
        Punctuator::LessEqual => 7,
        Punctuator::GreaterEqual => 8,
        Punctuator::Equal => 9,
        Punctuator::NotEqual => 10,
        Punctuator::LogicalAnd => 11,
        Punctuator::LogicalOr => 12,
        Punctuator::MultiplyAssign => 13,
        Punctuator::DivideAssign => 14,
        Punctuator::RemainderAssign => 15,
        Punctuator::AddAssign => 16,
        Punctuator::SubtractAssign => 17,
        Punctuator::AndAssign => 18,
        Punctuator::XorAssign => 19,
        Punctuator::OrAssign => 20,
        Punctuator::LeftBracket => 21,
        Punctuator::RightBracket => 22,
        Punctuator::LeftParenthesis => 23,
        Punctuator::RightParenthesis => 24,
        Punctuator::LeftBrace => 25,
        Punctuator::RightBrace => 26,
        Punctuator::Dot => 27,
        Punctuator::Ampersand => 28,
        Punctuator::Star => 29,
        Punctuator::Plus => 30,
        Punctuator::Minus => 31,
        Punctuator::Tilde => 32,
        Punctuator::Exclamation => 33,
        Punctuator::Slash => 34,
        Punctuator::Percent => 35,
        Punctuator::Less => 36,
        Punctuator::Greater => 37,
        Punctuator::Caret => 38,
        Punctuator::Bar => 39,
        Punctuator::Question => 40,
        Punctuator::Colon => 41,
        Punctuator::Semicolon => 42,
        Punctuator::Assign => 43,
        Punctuator::Comma => 44,
        Punctuator::Hash => 45,
    }
}

impl Kind {
    ghost use Rattle.std.specs.Prelude.{◌≡◌};
    ghost use Rattle.cgrammar.specs.Terminal as specs;

    fn is_keyword(self, wanted: Keyword) -> bool
        ensures { result ≡ specs.is_keyword wanted self }
    {
        match self {
            Kind::Keyword(keyword) => keyword_number(wanted) == keyword_number(keyword),
            _ => false,
        }
    }

    fn is_punctuator(self, wanted: Punctuator) -> bool
        ensures { result ≡ specs.is_punctuator wanted self }
    {
        match self {
            Kind::Punctuator(punctuator) => {
                punctuator_number(wanted) == punctuator_number(punctuator)
            }
            _ => false,
        }
    }

    fn is_name(self) -> bool
        ensures { result ≡ specs.is_name self }
    {
        matches!(self, Kind::Name | Kind::RegisterName | Kind::LocationName)
    }

    fn is_register(self) -> bool
        ensures { result ≡ specs.is_register self }
    {
        matches!(self, Kind::RegisterName)
    }

    fn is_location(self) -> bool
        ensures { result ≡ specs.is_location self }
    {
        matches!(self, Kind::LocationName)
    }

    fn is_number(self) -> bool
        ensures { result ≡ specs.is_number self }
    {
        matches!(self, Kind::Number)
    }

    fn is_character(self) -> bool
        ensures { result ≡ specs.is_character self }
    {
        matches!(self, Kind::Character)
    }

    fn is_literal(self) -> bool
        ensures { result ≡ specs.is_literal self }
    {
        matches!(self, Kind::Literal)
    }

    fn is_standard(self) -> bool
        ensures { result ≡ specs.is_standard self }
    {
        matches!(self, Kind::Standard | Kind::Uint32)
    }

    fn is_uint32(self) -> bool
        ensures { result ≡ specs.is_uint32 self }
    {
        matches!(self, Kind::Uint32)
    }

    fn is_end(self) -> bool
        ensures { result ≡ specs.is_end self }
    {
        matches!(self, Kind::End)
    }

    fn is_sign(self) -> bool
        ensures { result ≡ specs.is_sign self }
    {
        self.is_keyword(Keyword::Signed) || self.is_keyword(Keyword::Unsigned)
    }

    fn is_length(self) -> bool
        ensures { result ≡ specs.is_length self }
    {
        self.is_keyword(Keyword::Short) || self.is_keyword(Keyword::Long)
    }

    fn is_qualifier(self) -> bool
        ensures { result ≡ specs.is_qualifier self }
    {
        self.is_keyword(Keyword::Const) || self.is_keyword(Keyword::Volatile)
    }

    fn is_specifier(self) -> bool
        ensures { result ≡ specs.is_specifier self }
    {
        self.is_qualifier() || self.is_keyword(Keyword::Static) || self.is_keyword(Keyword::Inline)
    }

    fn is_prefix(self) -> bool
        ensures { result ≡ specs.is_prefix self }
    {
        self.is_punctuator(Punctuator::Plus)
            || self.is_punctuator(Punctuator::Minus)
            || self.is_punctuator(Punctuator::Exclamation)
            || self.is_punctuator(Punctuator::Tilde)
            || self.is_punctuator(Punctuator::Star)
            || self.is_punctuator(Punctuator::Ampersand)
    }
}

impl Terminal {
    ghost use Rattle.std.specs.Prelude.{◌≡◌};
    ghost use Rattle.cgrammar.specs.Terminal as specs;

    /// Whether a token of this kind may stand there.
    #[tactic(auto, unfolding(crate::specs::Terminal::accepts))]
    pub fn accepts(self, kind: Kind) -> bool
        ensures { result ≡ specs.accepts self kind }
    {
        match self {
            Terminal::Name => kind.is_name(),
            Terminal::RegisterName => kind.is_register(),
            Terminal::LocationName => kind.is_location(),
            Terminal::Number => kind.is_number(),
            Terminal::Character => kind.is_character(),
            Terminal::Literal => kind.is_literal(),
            Terminal::Standard => kind.is_standard(),
            Terminal::Uint32 => kind.is_uint32(),
            Terminal::Sign => kind.is_sign(),
            Terminal::Length => kind.is_length(),
            Terminal::Specifier => kind.is_specifier(),
            Terminal::Qualifier => kind.is_qualifier(),
            Terminal::Prefix => kind.is_prefix(),
            Terminal::Keyword(wanted) => kind.is_keyword(wanted),
            Terminal::Punctuator(wanted) => kind.is_punctuator(wanted),
            Terminal::End => kind.is_end(),
            Terminal::Any => true,
        }
    }
}
