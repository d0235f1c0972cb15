/// The keywords of C99 (6.4.1), and this project's own `__attribute__` and `__region`.
#[derive(Clone, Copy, Debug, PartialEq, Eq, Hash)]
pub enum Keyword {
    Attribute,
    Auto,
    Boolean,
    Break,
    Case,
    Char,
    Complex,
    Const,
    Continue,
    Default,
    Do,
    Double,
    Else,
    Enum,
    Extern,
    Float,
    For,
    Goto,
    If,
    Imaginary,
    Inline,
    Int,
    Long,
    Region,
    Register,
    Restrict,
    Return,
    Short,
    Signed,
    Sizeof,
    Static,
    Struct,
    Switch,
    Typedef,
    Union,
    Unsigned,
    Void,
    Volatile,
    While,
}

impl Keyword {
    ghost use Rattle.std.specs.Prelude.{◌≡◌};
    ghost use Rattle.csyn.specs.Keyword.{is_excluded};

    /// Whether no production of the grammar names the keyword.
    pub fn is_excluded(self) -> bool
        ensures { result ≡ is_excluded self }
    {
        matches!(
            self,
            Keyword::Auto
                | Keyword::Boolean
                | Keyword::Complex
                | Keyword::Double
                | Keyword::Enum
                | Keyword::Extern
                | Keyword::Float
                | Keyword::Goto
                | Keyword::Imaginary
                | Keyword::Restrict
                | Keyword::Typedef
                | Keyword::Union
        )
    }
}

/// How each keyword is written.
pub const KEYWORDS: [(&[u8], Keyword); 39] = [
    (b"__attribute__", Keyword::Attribute),
    (b"auto", Keyword::Auto),
    (b"_Bool", Keyword::Boolean),
    (b"break", Keyword::Break),
    (b"case", Keyword::Case),
    (b"char", Keyword::Char),
    (b"_Complex", Keyword::Complex),
    (b"const", Keyword::Const),
    (b"continue", Keyword::Continue),
    (b"default", Keyword::Default),
    (b"do", Keyword::Do),
    (b"double", Keyword::Double),
    (b"else", Keyword::Else),
    (b"enum", Keyword::Enum),
    (b"extern", Keyword::Extern),
    (b"float", Keyword::Float),
    (b"for", Keyword::For),
    (b"goto", Keyword::Goto),
    (b"if", Keyword::If),
    (b"_Imaginary", Keyword::Imaginary),
    (b"inline", Keyword::Inline),
    (b"int", Keyword::Int),
    (b"long", Keyword::Long),
    (b"__region", Keyword::Region),
    (b"register", Keyword::Register),
    (b"restrict", Keyword::Restrict),
    (b"return", Keyword::Return),
    (b"short", Keyword::Short),
    (b"signed", Keyword::Signed),
    (b"sizeof", Keyword::Sizeof),
    (b"static", Keyword::Static),
    (b"struct", Keyword::Struct),
    (b"switch", Keyword::Switch),
    (b"typedef", Keyword::Typedef),
    (b"union", Keyword::Union),
    (b"unsigned", Keyword::Unsigned),
    (b"void", Keyword::Void),
    (b"volatile", Keyword::Volatile),
    (b"while", Keyword::While),
];
