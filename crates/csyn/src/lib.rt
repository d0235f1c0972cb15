//! The tokens of a C source, where they stand, the numbered rules that a source may break, and the tree of a source.
#![tactic(auto)]

mod cause;
mod declaration;
mod expression;
mod fault;
mod keyword;
mod mark;
mod operator;
mod punctuator;
mod span;
mod specifiers;
mod statement;
mod text;
mod token;
mod tree;
mod unit;

pub use cause::Cause;
pub use declaration::{
    Declarator, Declarators, Init, InitDeclarator, InitDeclarators, Inits, LocalObject, Member,
    Members, Object, Parameter, ParameterList, Parameters,
};
pub use expression::{Expr, ExprKind, Exprs};
pub use fault::SourceFault;
pub use keyword::{KEYWORDS, Keyword};
pub use mark::Mark;
pub use operator::{
    BinaryOperator, ComparisonOperator, LogicalOperator, PostfixOperator, PrefixOperator,
};
pub use punctuator::{PUNCTUATORS, Punctuator};
pub use span::Span;
pub use specifiers::{
    Base, IntegerWords, Length, Pointer, Pointers, Sign, Specifiers, StandardInteger, TypeName,
};
pub use statement::{ForFirst, Items, Label, LabelKind, Stmt, StmtKind, SwitchItems};
pub use text::Text;
pub use token::{Character, Number, Token, TokenKind};
pub use tree::{MAX_LEVELS, MAX_TOKENS, Tree};
pub use unit::{Head, Unit, UnitKind, Units};

#[cfg(test)]
mod tests;
