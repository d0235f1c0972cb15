//! The parts of a source that the reader expects.
use cgrammar::{Level, Production, Terminal, Words};

/// A part that is expected. `After..`, `..Tail`, `..Rest` and `..End` go on with what has been read before them,
/// `..Parenthesis` behind an opening parenthesis, and `More..` goes on with a list or ends it.
#[derive(Clone, Copy, Debug, PartialEq, Eq)]
pub enum Part {
    // expressions
    Expression,
    CommaTail,
    Assignment,
    AssignmentTail,
    AssignmentParenthesis,
    Conditional,
    ConditionalTail,
    /// Operands of the next level, with operators of this one between them.
    Chain(Level),
    ChainTail(Level),
    /// A cast or a unary expression.
    Operand,
    OperandParenthesis,
    Unary,
    /// What stands behind `sizeof`.
    SizeofOperand,
    SizeofParenthesis,
    AfterName,
    /// What may stand behind a name that is not called.
    NameTail,
    PostfixTail,
    Arguments,
    MoreArguments,
    OptionalExpression,
    // types
    TypeName,
    Type,
    Base,
    /// The words of an integer type that may follow these.
    Words(Words),
    Qualifiers,
    Pointers,
    /// Behind pointers without qualifiers.
    StarsTail,
    AfterStar,
    /// Behind pointers of which one has qualifiers.
    PointersTail,
    AfterNextStar,
    // declarations
    Lengths,
    Declarator,
    MoreDeclarators,
    StructMember,
    MoreMembers,
    Location,
    Initial,
    Init,
    MoreInits,
    AfterInitComma,
    InitDeclarator,
    MoreInitDeclarators,
    Object,
    // statements
    Statement,
    OptionalElse,
    ForFirst,
    /// What stands in the braces of a `switch`.
    SwitchItems,
    Label,
    /// What stands there behind a label.
    MoreSwitchItems,
    Items,
    // units
    Units,
    Unit,
    AfterVolatile,
    RegisterType,
    AfterTag,
    ExternalRest,
    /// The body of a function, or the semicolon of a prototype.
    FunctionEnd,
    Parameters,
    AfterVoid,
    Parameter,
    ParameterTail,
    ParameterAfterStar,
    ParameterEnd,
    /// What stands behind the `[` of a parameter's first length.
    ParameterLength,
    MoreParameters,
}

/// What the reader still has to do.
#[derive(Clone, Copy, Debug, PartialEq, Eq)]
pub enum Symbol {
    /// Take a token that may stand here.
    Take(Terminal),
    /// Read a part.
    Read(Part),
    /// Make one value of the last ones, by a production.
    Reduce(Production),
}

/// What becomes of the token by which a rule is chosen.
#[derive(Clone, Copy, Debug, PartialEq, Eq)]
pub enum Move {
    /// It is taken.
    Take,
    /// It is left.
    Stay,
}

/// A rule of a part: for which tokens it is, what becomes of the token, and what the part is replaced by. Of the rules
/// of a part the first that accepts the next token is chosen.
pub type Rule = (&'static [Terminal], Move, &'static [Symbol]);
