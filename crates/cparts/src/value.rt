//! What productions make: names, words, parts of declarations, expressions, statements, units, and lists of them.

use csyn::{
    Base, Declarator, Declarators, Expr, Exprs, ForFirst, Init, InitDeclarator, InitDeclarators,
    Inits, IntegerWords, Items, Label, LocalObject, Member, Members, Parameter, ParameterList,
    Parameters, Pointer, Pointers, Specifiers, Stmt, SwitchItems, Text, TypeName, Unit, Units,
};

/// What follows the name of an object that is declared at the outermost level, up to the semicolon.
#[derive(Drop)]
pub struct ObjectRest {
    pub lengths: Exprs,
    pub location: Option<Box<Expr>>,
    pub init: Option<Box<Init>>,
    pub others: InitDeclarators,
}

/// What follows the name of an object or a function that is declared at the outermost level.
#[derive(Drop)]
pub enum ExternalRest {
    Object(ObjectRest),
    /// A function's parameters, and the items of its body if it has one.
    Function(Parameters, Option<Items>),
}

/// What a production makes of its parts.
#[derive(Drop)]
pub enum Value {
    Text(Text),
    Expr(Expr),
    Exprs(Exprs),
    OptionalExpr(Option<Box<Expr>>),
    TypeName(TypeName),
    Specifiers(Specifiers),
    Base(Base),
    Words(IntegerWords),
    Qualifiers(Pointer),
    Pointers(Pointers),
    Declarator(Declarator),
    Declarators(Declarators),
    Member(Member),
    Members(Members),
    Init(Init),
    OptionalInit(Option<Box<Init>>),
    Inits(Inits),
    InitDeclarator(InitDeclarator),
    InitDeclarators(InitDeclarators),
    Object(LocalObject),
    Stmt(Stmt),
    OptionalStmt(Option<Box<Stmt>>),
    ForFirst(ForFirst),
    Items(Items),
    Label(Label),
    SwitchItems(SwitchItems),
    RegisterType,
    ExternalRest(ExternalRest),
    FunctionEnd(Option<Items>),
    Parameters(Parameters),
    Parameter(Parameter),
    ParameterList(ParameterList),
    Unit(Unit),
    Units(Units),
}
