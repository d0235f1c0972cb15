//! The productions of the grammar.
use csyn::{BinaryOperator, ComparisonOperator, LogicalOperator};

/// A word of an integer type (C99 6.7.2): `signed` or `unsigned`, `char`, `short` or `long`, `int`.
#[derive(Clone, Copy, Debug, PartialEq, Eq)]
pub enum Word {
    Sign,
    Char,
    Length,
    Int,
}

/// Which words of an integer type stand together, in any order (C99 6.7.2).
#[derive(Clone, Copy, Debug, PartialEq, Eq)]
pub enum Words {
    Sign,
    Char,
    Length,
    Int,
    SignChar,
    SignLength,
    SignInt,
    LengthInt,
    SignLengthInt,
}

/// The levels of operators between two operands, the loosest first (C99 6.5.5 to 6.5.14).
#[derive(Clone, Copy, Debug, PartialEq, Eq)]
pub enum Level {
    Or,
    And,
    BitOr,
    BitXor,
    BitAnd,
    Equality,
    Relation,
    Shift,
    Sum,
    Product,
}

/// A production of the grammar: of which parts and tokens a part of a source is made. Its right side is `template` in
/// `specs/Grammar`. That of `No..`, `End..` and `TrailingComma` is empty, and `Next..` is one more of a list.
#[derive(Clone, Copy, Debug, PartialEq, Eq)]
pub enum Production {
    // expressions (C99 6.5)
    /// A name, wherever one stands.
    Identifier,
    /// An expression that is a name, but not of a function that is called.
    Name,
    Number,
    Character,
    Parenthesised,
    Index,
    /// A call of a function by its name.
    CallFunction,
    /// A call of any other expression.
    Call,
    Member,
    Arrow,
    PostIncrement,
    PostDecrement,
    PreIncrement,
    PreDecrement,
    /// `+`, `-`, `!`, `~`, `*` or `&` in front of an operand.
    Prefix,
    SizeofExpression,
    SizeofType,
    Cast,
    Binary(BinaryOperator),
    Comparison(ComparisonOperator),
    Logical(LogicalOperator),
    Conditional,
    Assign,
    AssignWith(BinaryOperator),
    Comma,
    NoArguments,
    SomeArguments,
    EndArguments,
    NextArgument,
    NoExpression,
    SomeExpression,
    // types (C99 6.7.1 to 6.7.4 and 6.7.6)
    TypeName,
    /// A specifier in front of a type.
    Specified,
    /// A base and the qualifiers behind it.
    Based,
    NoQualifiers,
    /// One more qualifier.
    Qualified,
    VoidBase,
    StructBase,
    StandardBase,
    IntegerBase,
    FirstWord(Word),
    NextWord(Words, Word),
    NoPointers,
    /// One more `*` where no pointer has a qualifier.
    Star,
    /// One more `*` with qualifiers.
    QualifiedPointer,
    /// One more `*` without, behind a pointer that has some.
    NextPointer,
    // declarations (C99 6.7)
    NoLengths,
    Length,
    Declarator,
    EndDeclarators,
    NextDeclarator,
    StructMember,
    EndMembers,
    NextMember,
    NoLocation,
    /// `__attribute__((location(..)))`.
    Location,
    NoInitial,
    Initial,
    InitialExpression,
    /// An initialiser in braces.
    Braced,
    EndInits,
    /// A comma and what stands behind it.
    CommaInits,
    /// Nothing between a comma and the closing brace.
    TrailingComma,
    NextInit,
    InitDeclarator,
    EndInitDeclarators,
    NextInitDeclarator,
    LocalObject,
    // statements (C99 6.8)
    Block,
    ExpressionStatement,
    If,
    NoElse,
    Else,
    While,
    Do,
    ForObject,
    ForExpression,
    For,
    Switch,
    NoSwitchItems,
    /// The label with which the braces of a `switch` begin, and what stands behind it.
    FirstLabel,
    EndSwitchItems,
    NextLabel,
    NextSwitchStatement,
    CaseLabel,
    DefaultLabel,
    Break,
    Continue,
    Return,
    RegionName,
    /// `__region(..) {..}`.
    Region,
    EndItems,
    NextObject,
    NextStatement,
    // units (C99 6.9)
    /// The definition of a struct.
    StructUnit,
    /// A register's declaration: `volatile register`, its type and its name.
    RegisterUnit,
    /// A register's type, `unsigned int`.
    UnsignedInt,
    /// A register's type, `uint32_t`.
    RegisterUint32,
    /// A declaration or definition of objects or of a function.
    External,
    /// What stands behind the first name of objects.
    ObjectRest,
    /// What stands behind the name of a function.
    FunctionRest,
    PrototypeEnd,
    FunctionBody,
    NoParameters,
    VoidParameters,
    SomeParameters,
    Parameter,
    /// A parameter with `[]`.
    ArrayParameter,
    EndParameters,
    NextParameter,
    EndUnits,
    NextUnit,
    Source,
}

impl Production {
    ghost use Rattle.std.specs.Prelude.{◌≡◌, length};
    ghost use Rattle.cgrammar.specs.Grammar.{template, own_nodes, parts_among, is_node};

    /// How many parts stand on its right side, tokens among them.
    #[tactic(auto, unfolding(crate::specs::Grammar::template))]
    pub fn parts(self) -> usize
        ensures { result ≡ length (template self) }
    {
        match self {
            Production::NoArguments
            | Production::EndArguments
            | Production::NoExpression
            | Production::NoQualifiers
            | Production::NoPointers
            | Production::NoLengths
            | Production::EndDeclarators
            | Production::EndMembers
            | Production::NoLocation
            | Production::NoInitial
            | Production::EndInits
            | Production::TrailingComma
            | Production::EndInitDeclarators
            | Production::NoElse
            | Production::NoSwitchItems
            | Production::EndSwitchItems
            | Production::EndItems
            | Production::NoParameters
            | Production::EndParameters
            | Production::EndUnits => 0,
            Production::Identifier
            | Production::Name
            | Production::Number
            | Production::Character
            | Production::SomeExpression
            | Production::VoidBase
            | Production::StandardBase
            | Production::IntegerBase
            | Production::FirstWord(_)
            | Production::InitialExpression
            | Production::ForObject
            | Production::RegionName
            | Production::RegisterUint32
            | Production::PrototypeEnd
            | Production::VoidParameters => 1,
            Production::PostIncrement
            | Production::PostDecrement
            | Production::PreIncrement
            | Production::PreDecrement
            | Production::Prefix
            | Production::SizeofExpression
            | Production::SomeArguments
            | Production::TypeName
            | Production::Specified
            | Production::Based
            | Production::Qualified
            | Production::StructBase
            | Production::NextWord(_, _)
            | Production::Star
            | Production::NextPointer
            | Production::NextMember
            | Production::Initial
            | Production::CommaInits
            | Production::NextInit
            | Production::ExpressionStatement
            | Production::Else
            | Production::ForExpression
            | Production::FirstLabel
            | Production::NextLabel
            | Production::NextSwitchStatement
            | Production::DefaultLabel
            | Production::Break
            | Production::Continue
            | Production::NextObject
            | Production::NextStatement
            | Production::UnsignedInt
            | Production::SomeParameters
            | Production::NextUnit
            | Production::Source => 2,
            Production::Parenthesised
            | Production::Member
            | Production::Arrow
            | Production::Binary(_)
            | Production::Comparison(_)
            | Production::Logical(_)
            | Production::Assign
            | Production::AssignWith(_)
            | Production::Comma
            | Production::NextArgument
            | Production::Declarator
            | Production::NextDeclarator
            | Production::InitDeclarator
            | Production::NextInitDeclarator
            | Production::Block
            | Production::CaseLabel
            | Production::Return
            | Production::FunctionBody
            | Production::NextParameter
            | Production::QualifiedPointer => 3,
            Production::Index
            | Production::CallFunction
            | Production::Call
            | Production::SizeofType
            | Production::Cast
            | Production::Length
            | Production::StructMember
            | Production::Braced
            | Production::LocalObject
            | Production::External
            | Production::FunctionRest
            | Production::Parameter => 4,
            Production::Conditional
            | Production::While
            | Production::RegisterUnit
            | Production::ObjectRest
            | Production::ArrayParameter => 5,
            Production::If => 6,
            Production::Do | Production::Switch | Production::Region | Production::StructUnit => 7,
            Production::For => 8,
            Production::Location => 9,
        }
    }

    /// How many parts stand on its right side, tokens left out.
    #[tactic(auto, unfolding(crate::specs::Grammar::template, crate::specs::Grammar::parts_among))]
    pub fn children(self) -> usize
        ensures { result ≡ parts_among (template self) }
    {
        match self {
            Production::Identifier
            | Production::Number
            | Production::Character
            | Production::NoArguments
            | Production::EndArguments
            | Production::NoExpression
            | Production::NoQualifiers
            | Production::VoidBase
            | Production::StandardBase
            | Production::FirstWord(_)
            | Production::NoPointers
            | Production::NoLengths
            | Production::EndDeclarators
            | Production::EndMembers
            | Production::NoLocation
            | Production::NoInitial
            | Production::EndInits
            | Production::TrailingComma
            | Production::EndInitDeclarators
            | Production::NoElse
            | Production::NoSwitchItems
            | Production::EndSwitchItems
            | Production::DefaultLabel
            | Production::Break
            | Production::Continue
            | Production::RegionName
            | Production::EndItems
            | Production::UnsignedInt
            | Production::RegisterUint32
            | Production::PrototypeEnd
            | Production::NoParameters
            | Production::VoidParameters
            | Production::EndParameters
            | Production::EndUnits => 0,
            Production::Name
            | Production::Parenthesised
            | Production::PostIncrement
            | Production::PostDecrement
            | Production::PreIncrement
            | Production::PreDecrement
            | Production::Prefix
            | Production::SizeofExpression
            | Production::SizeofType
            | Production::SomeExpression
            | Production::Specified
            | Production::Qualified
            | Production::StructBase
            | Production::IntegerBase
            | Production::NextWord(_, _)
            | Production::Star
            | Production::NextPointer
            | Production::Location
            | Production::Initial
            | Production::InitialExpression
            | Production::CommaInits
            | Production::Block
            | Production::ExpressionStatement
            | Production::Else
            | Production::ForObject
            | Production::ForExpression
            | Production::CaseLabel
            | Production::Return
            | Production::RegisterUnit
            | Production::FunctionBody
            | Production::Source => 1,
            Production::Index
            | Production::CallFunction
            | Production::Call
            | Production::Member
            | Production::Arrow
            | Production::Cast
            | Production::Binary(_)
            | Production::Comparison(_)
            | Production::Logical(_)
            | Production::Assign
            | Production::AssignWith(_)
            | Production::Comma
            | Production::SomeArguments
            | Production::NextArgument
            | Production::TypeName
            | Production::Based
            | Production::QualifiedPointer
            | Production::Length
            | Production::NextDeclarator
            | Production::NextMember
            | Production::Braced
            | Production::NextInit
            | Production::NextInitDeclarator
            | Production::While
            | Production::Do
            | Production::Switch
            | Production::FirstLabel
            | Production::NextLabel
            | Production::NextSwitchStatement
            | Production::Region
            | Production::NextObject
            | Production::NextStatement
            | Production::FunctionRest
            | Production::SomeParameters
            | Production::NextParameter
            | Production::NextUnit => 2,
            Production::Conditional
            | Production::Declarator
            | Production::StructMember
            | Production::InitDeclarator
            | Production::LocalObject
            | Production::If
            | Production::StructUnit
            | Production::ArrayParameter => 3,
            Production::For
            | Production::External
            | Production::ObjectRest
            | Production::Parameter => 4,
        }
    }

    /// How many nodes of the tree it makes: one or none.
    #[tactic(auto, unfolding(crate::specs::Grammar::own_nodes))]
    fn own_nodes(self) -> usize
        ensures { result ≡ own_nodes self }
    {
        match self {
            Production::Name
            | Production::Number
            | Production::Character
            | Production::Index
            | Production::CallFunction
            | Production::Call
            | Production::Member
            | Production::Arrow
            | Production::PostIncrement
            | Production::PostDecrement
            | Production::PreIncrement
            | Production::PreDecrement
            | Production::Prefix
            | Production::SizeofExpression
            | Production::SizeofType
            | Production::Cast
            | Production::Binary(_)
            | Production::Comparison(_)
            | Production::Logical(_)
            | Production::Conditional
            | Production::Assign
            | Production::AssignWith(_)
            | Production::Comma
            | Production::Braced
            | Production::LocalObject
            | Production::Block
            | Production::ExpressionStatement
            | Production::If
            | Production::While
            | Production::Do
            | Production::For
            | Production::Switch
            | Production::CaseLabel
            | Production::DefaultLabel
            | Production::Break
            | Production::Continue
            | Production::Return
            | Production::Region
            | Production::StructUnit
            | Production::RegisterUnit
            | Production::External => 1,
            Production::Identifier
            | Production::Parenthesised
            | Production::NoArguments
            | Production::SomeArguments
            | Production::EndArguments
            | Production::NextArgument
            | Production::NoExpression
            | Production::SomeExpression
            | Production::TypeName
            | Production::Specified
            | Production::Based
            | Production::NoQualifiers
            | Production::Qualified
            | Production::VoidBase
            | Production::StructBase
            | Production::StandardBase
            | Production::IntegerBase
            | Production::FirstWord(_)
            | Production::NextWord(_, _)
            | Production::NoPointers
            | Production::Star
            | Production::QualifiedPointer
            | Production::NextPointer
            | Production::NoLengths
            | Production::Length
            | Production::Declarator
            | Production::EndDeclarators
            | Production::NextDeclarator
            | Production::StructMember
            | Production::EndMembers
            | Production::NextMember
            | Production::NoLocation
            | Production::Location
            | Production::NoInitial
            | Production::Initial
            | Production::InitialExpression
            | Production::EndInits
            | Production::CommaInits
            | Production::TrailingComma
            | Production::NextInit
            | Production::InitDeclarator
            | Production::EndInitDeclarators
            | Production::NextInitDeclarator
            | Production::NoElse
            | Production::Else
            | Production::ForObject
            | Production::ForExpression
            | Production::NoSwitchItems
            | Production::FirstLabel
            | Production::EndSwitchItems
            | Production::NextLabel
            | Production::NextSwitchStatement
            | Production::RegionName
            | Production::EndItems
            | Production::NextObject
            | Production::NextStatement
            | Production::UnsignedInt
            | Production::RegisterUint32
            | Production::ObjectRest
            | Production::FunctionRest
            | Production::PrototypeEnd
            | Production::FunctionBody
            | Production::NoParameters
            | Production::VoidParameters
            | Production::SomeParameters
            | Production::Parameter
            | Production::ArrayParameter
            | Production::EndParameters
            | Production::NextParameter
            | Production::EndUnits
            | Production::NextUnit
            | Production::Source => 0,
        }
    }

    /// Whether it makes a node of the tree: a unit, a local object, a statement, a label, an initialiser in braces or an
    /// expression. Parentheses make none, nor does the name of a function that is called.
    pub fn is_node(self) -> bool
        ensures { result ≡ is_node self }
    {
        self.own_nodes() == 1
    }
}
