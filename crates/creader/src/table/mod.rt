//! The rules by which a source is read, looking one token ahead.
ghost use Rattle.std.specs.Prelude.{◌≡◌, ◌<◌, map};
ghost use Rattle.creader.specs.Rules as specs;

mod chain;
mod declaration;
mod expression;
mod statement;
mod types;
mod unit;

use crate::part::{Part, Rule};
use cgrammar::{Kind, Level, Terminal, Words};
use csyn::{Keyword, Punctuator};

/// What an expression begins with.
pub const EXPRESSION_STARTS: &[Terminal] = &[
    Terminal::Name,
    Terminal::Number,
    Terminal::Character,
    Terminal::Punctuator(Punctuator::LeftParenthesis),
    Terminal::Punctuator(Punctuator::Increment),
    Terminal::Punctuator(Punctuator::Decrement),
    Terminal::Prefix,
    Terminal::Keyword(Keyword::Sizeof),
];

/// What a type begins with.
pub const TYPE_STARTS: &[Terminal] = &[
    Terminal::Specifier,
    Terminal::Keyword(Keyword::Void),
    Terminal::Keyword(Keyword::Struct),
    Terminal::Standard,
    Terminal::Sign,
    Terminal::Keyword(Keyword::Char),
    Terminal::Length,
    Terminal::Keyword(Keyword::Int),
];

#[tactic(auto, unfolding(crate::specs::Rules::chain_rules))]
fn chain_rules(level: Level) -> &'static [Rule]
    ensures { map specs.rule_at result.now ≡ specs.chain_rules level }
{
    match level {
        Level::Or => &chain::CHAIN_OR,
        Level::And => &chain::CHAIN_AND,
        Level::BitOr => &chain::CHAIN_BIT_OR,
        Level::BitXor => &chain::CHAIN_BIT_XOR,
        Level::BitAnd => &chain::CHAIN_BIT_AND,
        Level::Equality => &chain::CHAIN_EQUALITY,
        Level::Relation => &chain::CHAIN_RELATION,
        Level::Shift => &chain::CHAIN_SHIFT,
        Level::Sum => &chain::CHAIN_SUM,
        Level::Product => &chain::CHAIN_PRODUCT,
    }
}

#[tactic(auto, unfolding(crate::specs::Rules::chain_tail_rules))]
fn chain_tail_rules(level: Level) -> &'static [Rule]
    ensures { map specs.rule_at result.now ≡ specs.chain_tail_rules level }
{
    match level {
        Level::Or => &chain::CHAIN_TAIL_OR,
        Level::And => &chain::CHAIN_TAIL_AND,
        Level::BitOr => &chain::CHAIN_TAIL_BIT_OR,
        Level::BitXor => &chain::CHAIN_TAIL_BIT_XOR,
        Level::BitAnd => &chain::CHAIN_TAIL_BIT_AND,
        Level::Equality => &chain::CHAIN_TAIL_EQUALITY,
        Level::Relation => &chain::CHAIN_TAIL_RELATION,
        Level::Shift => &chain::CHAIN_TAIL_SHIFT,
        Level::Sum => &chain::CHAIN_TAIL_SUM,
        Level::Product => &chain::CHAIN_TAIL_PRODUCT,
    }
}

#[tactic(auto, unfolding(crate::specs::Rules::words_rules))]
fn words_rules(words: Words) -> &'static [Rule]
    ensures { map specs.rule_at result.now ≡ specs.words_rules words }
{
    match words {
        Words::Sign => &types::WORDS_SIGN,
        Words::Char => &types::WORDS_CHAR,
        Words::Length => &types::WORDS_LENGTH,
        Words::Int => &types::WORDS_INT,
        Words::SignChar => &types::WORDS_SIGN_CHAR,
        Words::SignLength => &types::WORDS_SIGN_LENGTH,
        Words::SignInt => &types::WORDS_SIGN_INT,
        Words::LengthInt => &types::WORDS_LENGTH_INT,
        Words::SignLengthInt => &types::WORDS_SIGN_LENGTH_INT,
    }
}

/// The rules of a part.
#[tactic(auto, unfolding(crate::specs::Rules::rules))]
pub fn rules(part: Part) -> &'static [Rule]
    ensures { map specs.rule_at result.now ≡ specs.rules part }
{
    match part {
        // expression
        Part::Expression => &expression::EXPRESSION,
        Part::CommaTail => &expression::COMMA_TAIL,
        Part::Assignment => &expression::ASSIGNMENT,
        Part::AssignmentTail => &expression::ASSIGNMENT_TAIL,
        Part::AssignmentParenthesis => &expression::ASSIGNMENT_PARENTHESIS,
        Part::Conditional => &expression::CONDITIONAL,
        Part::ConditionalTail => &expression::CONDITIONAL_TAIL,
        Part::Operand => &expression::OPERAND,
        Part::OperandParenthesis => &expression::OPERAND_PARENTHESIS,
        Part::Unary => &expression::UNARY,
        Part::SizeofOperand => &expression::SIZEOF_OPERAND,
        Part::SizeofParenthesis => &expression::SIZEOF_PARENTHESIS,
        Part::AfterName => &expression::AFTER_NAME,
        Part::NameTail => &expression::NAME_TAIL,
        Part::PostfixTail => &expression::POSTFIX_TAIL,
        Part::Arguments => &expression::ARGUMENTS,
        Part::MoreArguments => &expression::MORE_ARGUMENTS,
        Part::OptionalExpression => &expression::OPTIONAL_EXPRESSION,
        // types
        Part::TypeName => &types::TYPE_NAME,
        Part::Type => &types::TYPE,
        Part::Base => &types::BASE,
        Part::Qualifiers => &types::QUALIFIERS,
        Part::Pointers => &types::POINTERS,
        Part::StarsTail => &types::STARS_TAIL,
        Part::AfterStar => &types::AFTER_STAR,
        Part::PointersTail => &types::POINTERS_TAIL,
        Part::AfterNextStar => &types::AFTER_NEXT_STAR,
        // declaration
        Part::Lengths => &declaration::LENGTHS,
        Part::Declarator => &declaration::DECLARATOR,
        Part::MoreDeclarators => &declaration::MORE_DECLARATORS,
        Part::StructMember => &declaration::STRUCT_MEMBER,
        Part::MoreMembers => &declaration::MORE_MEMBERS,
        Part::Location => &declaration::LOCATION,
        Part::Initial => &declaration::INITIAL,
        Part::Init => &declaration::INIT,
        Part::MoreInits => &declaration::MORE_INITS,
        Part::AfterInitComma => &declaration::AFTER_INIT_COMMA,
        Part::InitDeclarator => &declaration::INIT_DECLARATOR,
        Part::MoreInitDeclarators => &declaration::MORE_INIT_DECLARATORS,
        Part::Object => &declaration::OBJECT,
        // statement
        Part::Statement => &statement::STATEMENT,
        Part::OptionalElse => &statement::OPTIONAL_ELSE,
        Part::ForFirst => &statement::FOR_FIRST,
        Part::SwitchItems => &statement::SWITCH_ITEMS,
        Part::Label => &statement::LABEL,
        Part::MoreSwitchItems => &statement::MORE_SWITCH_ITEMS,
        Part::Items => &statement::ITEMS,
        // unit
        Part::Units => &unit::UNITS,
        Part::Unit => &unit::UNIT,
        Part::AfterVolatile => &unit::AFTER_VOLATILE,
        Part::RegisterType => &unit::REGISTER_TYPE,
        Part::AfterTag => &unit::AFTER_TAG,
        Part::ExternalRest => &unit::EXTERNAL_REST,
        Part::FunctionEnd => &unit::FUNCTION_END,
        Part::Parameters => &unit::PARAMETERS,
        Part::AfterVoid => &unit::AFTER_VOID,
        Part::Parameter => &unit::PARAMETER,
        Part::ParameterTail => &unit::PARAMETER_TAIL,
        Part::ParameterAfterStar => &unit::PARAMETER_AFTER_STAR,
        Part::ParameterEnd => &unit::PARAMETER_END,
        Part::ParameterLength => &unit::PARAMETER_LENGTH,
        Part::MoreParameters => &unit::MORE_PARAMETERS,
        Part::Chain(level) => chain_rules(level),
        Part::ChainTail(level) => chain_tail_rules(level),
        Part::Words(words) => words_rules(words),
    }
}

#[tactic(auto, unfolding(crate::specs::Rules::any_accepts))]
fn any_accepts(terminals: &[Terminal], kind: Kind) -> bool
    ensures { result ≡ specs.any_accepts terminals.now kind }
{
    match terminals {
        [terminal, others @ ..] => terminal.accepts(kind) || any_accepts(others, kind),
        [] => false,
    }
}

/// The first of the rules that accepts the token.
#[tactic(auto, unfolding(crate::specs::Rules::choose))]
fn choose(rules: &'static [Rule], kind: Kind) -> Option<Rule>
    ensures { specs.chosen result ≡ specs.choose (map specs.rule_at rules.now) kind }
{
    match rules {
        [rule, others @ ..] => {
            if any_accepts(rule.0, kind) {
                Some(*rule)
            } else {
                choose(others, kind)
            }
        }
        [] => None,
    }
}

/// The rule by which a part is read where the next token is of this kind. None: the token can't stand there.
pub fn rule(part: Part, kind: Kind) -> Option<Rule>
    ensures { specs.chosen result ≡ specs.choose (specs.rules part) kind }
{
    choose(rules(part), kind)
}
