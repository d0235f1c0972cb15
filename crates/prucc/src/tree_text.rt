//! A tree as the text of its tokens, a space behind each, with every expression of several parts in parentheses; and the same with the
//! mark of each node behind it.

use csyn::{
    Base, BinaryOperator, ComparisonOperator, Declarator, Declarators, Expr, ExprKind, Exprs,
    ForFirst, Head, Init, InitDeclarator, InitDeclarators, Inits, IntegerWords, Items, Label,
    LabelKind, Length, LogicalOperator, Mark, Members, Object, Parameter, ParameterList,
    Parameters, Pointers, PostfixOperator, PrefixOperator, Sign, Specifiers, StandardInteger, Stmt,
    StmtKind, SwitchItems, Text, Tree, TypeName, Unit, UnitKind, Units,
};
use std::alloc::{AllocError, Global};
use std::fmt::Write;

/// What is still to be put: tokens, or a part of a tree.
#[derive(Clone, Copy)]
enum Piece<'a> {
    /// Nothing where it is empty.
    Word(&'static str),
    Name(&'a Text),
    /// A name in quotes.
    Quoted(&'a Text),
    Number(u32),
    Character(u8),
    Mark(&'a Mark),
    Specifiers(&'a Specifiers),
    Pointers(&'a Pointers),
    TypeName(&'a TypeName),
    Expr(&'a Expr),
    Optional(&'a Option<Box<Expr>>),
    /// Expressions with commas between them.
    Arguments(&'a Exprs),
    /// Each expression in brackets.
    Lengths(&'a Exprs),
    Declarator(&'a Declarator),
    Declarators(&'a Declarators),
    Init(&'a Init),
    Inits(&'a Inits),
    InitDeclarator(&'a InitDeclarator),
    InitDeclarators(&'a InitDeclarators),
    Object(&'a Object),
    Members(&'a Members),
    Parameter(&'a Parameter),
    Parameters(&'a ParameterList),
    Head(&'a Head),
    First(&'a ForFirst),
    Stmt(&'a Stmt),
    Items(&'a Items),
    Label(&'a Label),
    SwitchItems(&'a SwitchItems),
    Unit(&'a Unit),
    Units(&'a Units),
}

/// Pieces, the next one last.
type Pieces<'a> = Vec<Piece<'a>>;

/// The word, or none.
fn only(is_there: bool, word: &'static str) -> &'static str {
    if is_there { word } else { "" }
}

fn binary(operator: BinaryOperator) -> &'static str {
    match operator {
        BinaryOperator::Multiply => "*",
        BinaryOperator::Divide => "/",
        BinaryOperator::Remainder => "%",
        BinaryOperator::Add => "+",
        BinaryOperator::Subtract => "-",
        BinaryOperator::ShiftLeft => "<<",
        BinaryOperator::ShiftRight => ">>",
        BinaryOperator::BitAnd => "&",
        BinaryOperator::BitXor => "^",
        BinaryOperator::BitOr => "|",
    }
}

fn assignment(operator: BinaryOperator) -> &'static str {
    match operator {
        BinaryOperator::Multiply => "*=",
        BinaryOperator::Divide => "/=",
        BinaryOperator::Remainder => "%=",
        BinaryOperator::Add => "+=",
        BinaryOperator::Subtract => "-=",
        BinaryOperator::ShiftLeft => "<<=",
        BinaryOperator::ShiftRight => ">>=",
        BinaryOperator::BitAnd => "&=",
        BinaryOperator::BitXor => "^=",
        BinaryOperator::BitOr => "|=",
    }
}

fn comparison(operator: ComparisonOperator) -> &'static str {
    match operator {
        ComparisonOperator::Less => "<",
        ComparisonOperator::Greater => ">",
        ComparisonOperator::LessEqual => "<=",
        ComparisonOperator::GreaterEqual => ">=",
        ComparisonOperator::Equal => "==",
        ComparisonOperator::NotEqual => "!=",
    }
}

fn logical(operator: LogicalOperator) -> &'static str {
    match operator {
        LogicalOperator::And => "&&",
        LogicalOperator::Or => "||",
    }
}

fn prefix(operator: PrefixOperator) -> &'static str {
    match operator {
        PrefixOperator::Plus => "+",
        PrefixOperator::Minus => "-",
        PrefixOperator::Not => "!",
        PrefixOperator::Complement => "~",
        PrefixOperator::Dereference => "*",
        PrefixOperator::Address => "&",
        PrefixOperator::Increment => "++",
        PrefixOperator::Decrement => "--",
    }
}

fn postfix(operator: PostfixOperator) -> &'static str {
    match operator {
        PostfixOperator::Increment => "++",
        PostfixOperator::Decrement => "--",
    }
}

fn standard(integer: StandardInteger) -> &'static str {
    match integer {
        StandardInteger::Int8 => "int8_t",
        StandardInteger::Uint8 => "uint8_t",
        StandardInteger::Int16 => "int16_t",
        StandardInteger::Uint16 => "uint16_t",
        StandardInteger::Int32 => "int32_t",
        StandardInteger::Uint32 => "uint32_t",
    }
}

fn sign(written: IntegerWords) -> &'static str {
    match written.sign {
        None => "",
        Some(Sign::Signed) => "signed",
        Some(Sign::Unsigned) => "unsigned",
    }
}

fn length(written: IntegerWords) -> &'static str {
    match written.length {
        None => "int",
        Some(Length::Char) => "char",
        Some(Length::Short) => "short",
        Some(Length::Long) => "long",
    }
}

/// Puts pieces in front of what is left.
fn put<'a>(left: &mut Pieces<'a>, pieces: &[Piece<'a>]) -> Result<(), AllocError> {
    for piece in pieces.iter().rev() {
        left.push(*piece)?;
    }
    Ok(())
}

fn put_specifiers<'a>(left: &mut Pieces<'a>, written: &'a Specifiers) -> Result<(), AllocError> {
    let [first, second] = match &written.base {
        Base::Void => [Piece::Word("void"), Piece::Word("")],
        Base::Struct(tag) => [Piece::Word("struct"), Piece::Name(tag)],
        Base::Standard(it) => [Piece::Word(standard(*it)), Piece::Word("")],
        Base::Integer(it) => [Piece::Word(sign(*it)), Piece::Word(length(*it))],
    };
    put(
        left,
        &[
            Piece::Word(only(written.is_static, "static")),
            Piece::Word(only(written.is_inline, "inline")),
            Piece::Word(only(written.is_const, "const")),
            Piece::Word(only(written.is_volatile, "volatile")),
            first,
            second,
        ],
    )
}

fn put_pointers<'a>(left: &mut Pieces<'a>, list: &'a Pointers) -> Result<(), AllocError> {
    match list {
        Pointers::End => Ok(()),
        Pointers::To(inner, pointer) => put(
            left,
            &[
                Piece::Pointers(inner),
                Piece::Word("*"),
                Piece::Word(only(pointer.is_const, "const")),
                Piece::Word(only(pointer.is_volatile, "volatile")),
            ],
        ),
    }
}

fn put_between<'a>(
    left: &mut Pieces<'a>,
    first: &'a Expr,
    operator: &'static str,
    second: &'a Expr,
) -> Result<(), AllocError> {
    put(
        left,
        &[
            Piece::Word("("),
            Piece::Expr(first),
            Piece::Word(operator),
            Piece::Expr(second),
            Piece::Word(")"),
        ],
    )
}

fn put_before<'a>(
    left: &mut Pieces<'a>,
    operator: Piece<'a>,
    operand: &'a Expr,
) -> Result<(), AllocError> {
    put(
        left,
        &[
            Piece::Word("("),
            operator,
            Piece::Expr(operand),
            Piece::Word(")"),
        ],
    )
}

fn put_call<'a>(
    left: &mut Pieces<'a>,
    callee: [Piece<'a>; 3],
    arguments: &'a Exprs,
) -> Result<(), AllocError> {
    put(
        left,
        &[
            Piece::Word("("),
            Piece::Arguments(arguments),
            Piece::Word(")"),
        ],
    )?;
    put(left, &callee)
}

fn put_kind<'a>(left: &mut Pieces<'a>, kind: &'a ExprKind) -> Result<(), AllocError> {
    match kind {
        ExprKind::Name(name) => put(left, &[Piece::Name(name)]),
        ExprKind::Number(number) => put(left, &[Piece::Number(number.value)]),
        ExprKind::Character(it) => put(left, &[Piece::Character(it.value)]),
        ExprKind::Index(array, index) => put(
            left,
            &[
                Piece::Expr(array),
                Piece::Word("["),
                Piece::Expr(index),
                Piece::Word("]"),
            ],
        ),
        ExprKind::CallFunction(name, arguments) => {
            let callee = [Piece::Name(name), Piece::Word(""), Piece::Word("")];
            put_call(left, callee, arguments)
        }
        ExprKind::Call(callee, arguments) => {
            let callee = [Piece::Word("("), Piece::Expr(callee), Piece::Word(")")];
            put_call(left, callee, arguments)
        }
        ExprKind::Member(record, member) => put(
            left,
            &[Piece::Expr(record), Piece::Word("."), Piece::Name(member)],
        ),
        ExprKind::Arrow(pointer, member) => put(
            left,
            &[Piece::Expr(pointer), Piece::Word("->"), Piece::Name(member)],
        ),
        ExprKind::Postfix(operator, operand) => put(
            left,
            &[Piece::Expr(operand), Piece::Word(postfix(*operator))],
        ),
        ExprKind::Prefix(operator, operand) => {
            put_before(left, Piece::Word(prefix(*operator)), operand)
        }
        ExprKind::SizeofExpression(operand) => put_before(left, Piece::Word("sizeof"), operand),
        ExprKind::SizeofType(of) => put(left, &[Piece::Word("sizeof"), Piece::TypeName(of)]),
        ExprKind::Cast(to, operand) => put_before(left, Piece::TypeName(to), operand),
        ExprKind::Binary(operator, a, b) => put_between(left, a, binary(*operator), b),
        ExprKind::Comparison(operator, a, b) => put_between(left, a, comparison(*operator), b),
        ExprKind::Logical(operator, a, b) => put_between(left, a, logical(*operator), b),
        ExprKind::Conditional(condition, a, b) => {
            put(left, &[Piece::Word(":"), Piece::Expr(b), Piece::Word(")")])?;
            put(
                left,
                &[
                    Piece::Word("("),
                    Piece::Expr(condition),
                    Piece::Word("?"),
                    Piece::Expr(a),
                ],
            )
        }
        ExprKind::Assign(a, b) => put_between(left, a, "=", b),
        ExprKind::AssignWith(operator, a, b) => put_between(left, a, assignment(*operator), b),
        ExprKind::Comma(a, b) => put_between(left, a, ",", b),
    }
}

fn put_arguments<'a>(left: &mut Pieces<'a>, list: &'a Exprs) -> Result<(), AllocError> {
    match list {
        Exprs::End => Ok(()),
        Exprs::More(first, rest) => {
            let comma = only(matches!(**rest, Exprs::More(_, _)), ",");
            put(
                left,
                &[
                    Piece::Expr(first),
                    Piece::Word(comma),
                    Piece::Arguments(rest),
                ],
            )
        }
    }
}

fn put_lengths<'a>(left: &mut Pieces<'a>, list: &'a Exprs) -> Result<(), AllocError> {
    match list {
        Exprs::End => Ok(()),
        Exprs::More(first, rest) => put(
            left,
            &[
                Piece::Word("["),
                Piece::Expr(first),
                Piece::Word("]"),
                Piece::Lengths(rest),
            ],
        ),
    }
}

fn put_declarators<'a>(left: &mut Pieces<'a>, list: &'a Declarators) -> Result<(), AllocError> {
    match list {
        Declarators::End => Ok(()),
        Declarators::More(first, rest) => {
            let comma = only(matches!(**rest, Declarators::More(_, _)), ",");
            put(
                left,
                &[
                    Piece::Declarator(first),
                    Piece::Word(comma),
                    Piece::Declarators(rest),
                ],
            )
        }
    }
}

fn put_init<'a>(left: &mut Pieces<'a>, it: &'a Init) -> Result<(), AllocError> {
    match it {
        Init::Expression(e) => put(left, &[Piece::Expr(e)]),
        Init::Braced(mark, list) => put(
            left,
            &[
                Piece::Word("{"),
                Piece::Inits(list),
                Piece::Word("}"),
                Piece::Mark(mark),
            ],
        ),
    }
}

fn put_inits<'a>(left: &mut Pieces<'a>, list: &'a Inits) -> Result<(), AllocError> {
    match list {
        Inits::End => Ok(()),
        Inits::More(first, rest) => put(
            left,
            &[Piece::Init(first), Piece::Word(","), Piece::Inits(rest)],
        ),
    }
}

fn put_init_declarator<'a>(
    left: &mut Pieces<'a>,
    it: &'a InitDeclarator,
) -> Result<(), AllocError> {
    if let Some(first) = &it.init {
        put(left, &[Piece::Word("="), Piece::Init(first)])?;
    }
    if let Some(location) = &it.location {
        put(
            left,
            &[
                Piece::Word("__attribute__ ( ( location ("),
                Piece::Expr(location),
                Piece::Word(") ) )"),
            ],
        )?;
    }
    put(left, &[Piece::Declarator(&it.declarator)])
}

fn put_init_declarators<'a>(
    left: &mut Pieces<'a>,
    list: &'a InitDeclarators,
) -> Result<(), AllocError> {
    match list {
        InitDeclarators::End => Ok(()),
        InitDeclarators::More(first, rest) => {
            let comma = only(matches!(**rest, InitDeclarators::More(_, _)), ",");
            put(
                left,
                &[
                    Piece::InitDeclarator(first),
                    Piece::Word(comma),
                    Piece::InitDeclarators(rest),
                ],
            )
        }
    }
}

fn put_members<'a>(left: &mut Pieces<'a>, list: &'a Members) -> Result<(), AllocError> {
    match list {
        Members::End => Ok(()),
        Members::More(first, rest) => put(
            left,
            &[
                Piece::Specifiers(&first.specifiers),
                Piece::Declarators(&first.declarators),
                Piece::Word(";"),
                Piece::Members(rest),
            ],
        ),
    }
}

fn put_parameters<'a>(left: &mut Pieces<'a>, list: &'a ParameterList) -> Result<(), AllocError> {
    match list {
        ParameterList::End => Ok(()),
        ParameterList::More(first, rest) => {
            let comma = only(matches!(**rest, ParameterList::More(_, _)), ",");
            put(
                left,
                &[
                    Piece::Parameter(first),
                    Piece::Word(comma),
                    Piece::Parameters(rest),
                ],
            )
        }
    }
}

fn put_head<'a>(left: &mut Pieces<'a>, it: &'a Head) -> Result<(), AllocError> {
    let parameters = match &it.parameters {
        Parameters::Empty => Piece::Word(""),
        Parameters::Void => Piece::Word("void"),
        Parameters::Some(list) => Piece::Parameters(list),
    };
    put(
        left,
        &[
            Piece::Specifiers(&it.specifiers),
            Piece::Pointers(&it.pointers),
            Piece::Name(&it.name),
            Piece::Word("("),
            parameters,
            Piece::Word(")"),
        ],
    )
}

fn put_first<'a>(left: &mut Pieces<'a>, first: &'a ForFirst) -> Result<(), AllocError> {
    match first {
        ForFirst::Object(it) => put(left, &[Piece::Object(&it.object), Piece::Mark(&it.mark)]),
        ForFirst::Expression(e) => put(left, &[Piece::Optional(e), Piece::Word(";")]),
    }
}

/// A keyword and an expression in parentheses.
fn put_condition<'a>(
    left: &mut Pieces<'a>,
    keyword: &'static str,
    e: &'a Expr,
) -> Result<(), AllocError> {
    put(
        left,
        &[
            Piece::Word(keyword),
            Piece::Word("("),
            Piece::Expr(e),
            Piece::Word(")"),
        ],
    )
}

fn put_block<'a>(left: &mut Pieces<'a>, list: &'a Items) -> Result<(), AllocError> {
    put(
        left,
        &[Piece::Word("{"), Piece::Items(list), Piece::Word("}")],
    )
}

fn put_simple<'a>(left: &mut Pieces<'a>, kind: &'a StmtKind) -> Result<(), AllocError> {
    match kind {
        StmtKind::Expression(e) => put(left, &[Piece::Optional(e), Piece::Word(";")]),
        StmtKind::Break => put(left, &[Piece::Word("break ;")]),
        StmtKind::Continue => put(left, &[Piece::Word("continue ;")]),
        StmtKind::Return(e) => put(
            left,
            &[Piece::Word("return"), Piece::Optional(e), Piece::Word(";")],
        ),
        StmtKind::For(first, second, third, body) => put(
            left,
            &[
                Piece::Word("for ("),
                Piece::First(first),
                Piece::Optional(second),
                Piece::Word(";"),
                Piece::Optional(third),
                Piece::Word(")"),
                Piece::Stmt(body),
            ],
        ),
        _ => Ok(()),
    }
}

fn put_statement<'a>(left: &mut Pieces<'a>, kind: &'a StmtKind) -> Result<(), AllocError> {
    match kind {
        StmtKind::Block(list) => put_block(left, list),
        StmtKind::If(test, branch) => {
            put(left, &[Piece::Stmt(branch)])?;
            put_condition(left, "if", test)
        }
        StmtKind::IfElse(test, branch, other) => {
            put(
                left,
                &[Piece::Stmt(branch), Piece::Word("else"), Piece::Stmt(other)],
            )?;
            put_condition(left, "if", test)
        }
        StmtKind::While(test, body) => {
            put(left, &[Piece::Stmt(body)])?;
            put_condition(left, "while", test)
        }
        StmtKind::Do(body, test) => {
            put(left, &[Piece::Word(";")])?;
            put_condition(left, "while", test)?;
            put(left, &[Piece::Word("do"), Piece::Stmt(body)])
        }
        StmtKind::Switch(value, list) => {
            put(
                left,
                &[Piece::Word("{"), Piece::SwitchItems(list), Piece::Word("}")],
            )?;
            put_condition(left, "switch", value)
        }
        StmtKind::Region(name, list) => {
            put_block(left, list)?;
            put(
                left,
                &[
                    Piece::Word("__region ("),
                    Piece::Quoted(name),
                    Piece::Word(")"),
                ],
            )
        }
        _ => put_simple(left, kind),
    }
}

fn put_items<'a>(left: &mut Pieces<'a>, list: &'a Items) -> Result<(), AllocError> {
    match list {
        Items::End => Ok(()),
        Items::Object(first, rest) => put(
            left,
            &[
                Piece::Object(&first.object),
                Piece::Mark(&first.mark),
                Piece::Items(rest),
            ],
        ),
        Items::Statement(first, rest) => put(left, &[Piece::Stmt(first), Piece::Items(rest)]),
    }
}

fn put_label<'a>(left: &mut Pieces<'a>, label: &'a Label) -> Result<(), AllocError> {
    put(left, &[Piece::Word(":"), Piece::Mark(&label.mark)])?;
    match &label.kind {
        LabelKind::Case(value) => put(left, &[Piece::Word("case"), Piece::Expr(value)]),
        LabelKind::Default => put(left, &[Piece::Word("default")]),
    }
}

fn put_switch_items<'a>(left: &mut Pieces<'a>, list: &'a SwitchItems) -> Result<(), AllocError> {
    match list {
        SwitchItems::End => Ok(()),
        SwitchItems::Label(first, rest) => {
            put(left, &[Piece::Label(first), Piece::SwitchItems(rest)])
        }
        SwitchItems::Statement(first, rest) => {
            put(left, &[Piece::Stmt(first), Piece::SwitchItems(rest)])
        }
    }
}

fn put_unit<'a>(left: &mut Pieces<'a>, kind: &'a UnitKind) -> Result<(), AllocError> {
    match kind {
        UnitKind::Struct(tag, list) => put(
            left,
            &[
                Piece::Word("struct"),
                Piece::Name(tag),
                Piece::Word("{"),
                Piece::Members(list),
                Piece::Word("} ;"),
            ],
        ),
        UnitKind::Register => put(left, &[Piece::Word("register ;")]),
        UnitKind::Object(it) => put(left, &[Piece::Object(it)]),
        UnitKind::Prototype(it) => put(left, &[Piece::Head(it), Piece::Word(";")]),
        UnitKind::Function(it, body) => {
            put_block(left, body)?;
            put(left, &[Piece::Head(it)])
        }
    }
}

/// A node, and its mark behind it.
fn put_node<'a>(left: &mut Pieces<'a>, piece: Piece<'a>) -> Result<(), AllocError> {
    match piece {
        Piece::Expr(e) => {
            put(left, &[Piece::Mark(&e.mark)])?;
            put_kind(left, &e.kind)
        }
        Piece::Stmt(s) => {
            put(left, &[Piece::Mark(&s.mark)])?;
            put_statement(left, &s.kind)
        }
        Piece::Unit(u) => {
            put(left, &[Piece::Mark(&u.mark)])?;
            put_unit(left, &u.kind)
        }
        _ => Ok(()),
    }
}

/// The parts of a declaration.
fn put_declared<'a>(left: &mut Pieces<'a>, piece: Piece<'a>) -> Result<(), AllocError> {
    match piece {
        Piece::Specifiers(it) => put_specifiers(left, it),
        Piece::Pointers(list) => put_pointers(left, list),
        Piece::TypeName(it) => put(
            left,
            &[
                Piece::Word("("),
                Piece::Specifiers(&it.specifiers),
                Piece::Pointers(&it.pointers),
                Piece::Word(")"),
            ],
        ),
        Piece::Lengths(list) => put_lengths(left, list),
        Piece::Declarator(it) => put(
            left,
            &[
                Piece::Pointers(&it.pointers),
                Piece::Name(&it.name),
                Piece::Lengths(&it.lengths),
            ],
        ),
        Piece::Declarators(list) => put_declarators(left, list),
        Piece::Init(it) => put_init(left, it),
        Piece::Inits(list) => put_inits(left, list),
        Piece::InitDeclarator(it) => put_init_declarator(left, it),
        Piece::InitDeclarators(list) => put_init_declarators(left, list),
        Piece::Object(it) => put(
            left,
            &[
                Piece::Specifiers(&it.specifiers),
                Piece::InitDeclarators(&it.declarators),
                Piece::Word(";"),
            ],
        ),
        _ => put_node(left, piece),
    }
}

/// What a part is made of, in front of what is left.
fn put_parts<'a>(left: &mut Pieces<'a>, piece: Piece<'a>) -> Result<(), AllocError> {
    match piece {
        Piece::Optional(Some(e)) => put(left, &[Piece::Expr(e)]),
        Piece::Arguments(list) => put_arguments(left, list),
        Piece::Members(list) => put_members(left, list),
        Piece::Parameter(it) => put(
            left,
            &[
                Piece::Specifiers(&it.specifiers),
                Piece::Declarator(&it.declarator),
                Piece::Word(only(it.is_open_array, "[ ]")),
            ],
        ),
        Piece::Parameters(list) => put_parameters(left, list),
        Piece::Head(it) => put_head(left, it),
        Piece::First(first) => put_first(left, first),
        Piece::Items(list) => put_items(left, list),
        Piece::Label(label) => put_label(left, label),
        Piece::SwitchItems(list) => put_switch_items(left, list),
        Piece::Units(Units::More(first, rest)) => {
            put(left, &[Piece::Unit(first), Piece::Units(rest)])
        }
        _ => put_declared(left, piece),
    }
}

fn write_word(out: &mut String, word: &str) -> Result<(), AllocError> {
    if word.is_empty() {
        return Ok(());
    }
    out.push_str(word)?;
    out.push(' ')
}

/// A name between quotes, or with none where they are empty.
fn write_name(out: &mut String, name: &Text, quote: &str) -> Result<(), AllocError> {
    out.push_str(quote)?;
    for byte in name.as_bytes() {
        out.push(char::from(*byte))?;
    }
    out.push_str(quote)?;
    out.push(' ')
}

fn write_mark(out: &mut String, mark: &Mark) -> Result<(), AllocError> {
    let number = mark.number;
    let column = mark.span.column;
    let tokens = mark.tokens;
    write!(out, "@{number}:{column}+{tokens} ")
}

/// How many pieces a tree in a test may have.
const MOST_PIECES: usize = 10_000;

/// The tokens of a tree; with marks, behind each node its number, its column and its count of tokens.
pub fn text(alloc: Global, tree: &Tree, with_marks: bool) -> Result<String, AllocError> {
    let mut out = String::new(alloc);
    let mut left = Vec::new(alloc);
    left.push(Piece::Units(tree.units()))?;
    for _ in 0..MOST_PIECES {
        match left.pop() {
            None => return Ok(out),
            Some(Piece::Word(word)) => write_word(&mut out, word)?,
            Some(Piece::Name(name)) => write_name(&mut out, name, "")?,
            Some(Piece::Quoted(name)) => write_name(&mut out, name, "\"")?,
            Some(Piece::Number(value)) => write!(out, "{value} ")?,
            Some(Piece::Character(value)) => write!(out, "'\\x{value:02x}' ")?,
            Some(Piece::Mark(mark)) => {
                if with_marks {
                    write_mark(&mut out, mark)?;
                }
            }
            Some(part) => put_parts(&mut left, part)?,
        }
    }
    Ok(out)
}
