// Which token may begin or go on with what.
ghost use Rattle.std.specs.Prelude.{◌≡◌, ◌<◌, ◌≤◌, length, IfOk};
ghost use Rattle.alloy_syntax.specs.Nodes as spec;
ghost use Rattle.alloy_syntax.specs.View.{view};
ghost use Rattle.alloy_syntax.specs.Gives.{Gives};

use alloy_syntax::Class;
use alloy_syntax::cursor::{after, colon_after_names, is_mark, next_is, place_at};
use alloy_syntax::parse_stop::{ParseStop, Tokens};
use alloy_syntax::reading::{Around, Form, Inside, Level};
use alloy_syntax::tree::{Comparing, Comparison, Constant, Node, Operator, Prefix, Quantifier};

#[tactic(auto, unfolding(alloy_syntax::specs::Nodes::in_braces))]
fn in_braces(around: Around) -> bool
    ensures { result ≡ spec.in_braces around }
{
    match around {
        Around::Braces => true,
        Around::Brackets => false,
        Around::Parens => false,
    }
}

#[tactic(auto, unfolding(alloy_syntax::specs::Nodes::in_brackets_too))]
fn in_brackets(around: Around) -> bool
    ensures { result ≡ spec.in_brackets_too around }
{
    match around {
        Around::Braces => false,
        Around::Brackets => true,
        Around::Parens => false,
    }
}

#[tactic(auto, unfolding(alloy_syntax::specs::Nodes::begins_primary))]
fn begins_primary(tokens: Tokens) -> bool
    ensures { result ≡ spec.begins_primary tokens.entry.left.now }
{
    next_is(tokens, Class::Name)
        || next_is(tokens, Class::Path)
        || next_is(tokens, Class::Number)
        || next_is(tokens, Class::None)
        || next_is(tokens, Class::Univ)
        || next_is(tokens, Class::Iden)
        || next_is(tokens, Class::LeftParen)
        || next_is(tokens, Class::LeftBrace)
}

/// `~`, `^` or `*`.
#[tactic(auto, unfolding(alloy_syntax::specs::Nodes::is_tightening))]
pub fn is_tightening(tokens: Tokens) -> bool
    ensures { result ≡ spec.is_tightening tokens.entry.left.now }
{
    next_is(tokens, Class::Tilde) || next_is(tokens, Class::Caret) || next_is(tokens, Class::Star)
}

#[tactic(auto, unfolding(alloy_syntax::specs::Nodes::begins_tight))]
fn begins_tight(tokens: Tokens) -> bool
    ensures { result ≡ spec.begins_tight tokens.entry.left.now }
{
    is_tightening(tokens) || begins_primary(tokens)
}

#[tactic(auto, unfolding(alloy_syntax::specs::Nodes::begins_sum))]
fn begins_sum(tokens: Tokens) -> bool
    ensures { result ≡ spec.begins_sum tokens.entry.left.now }
{
    next_is(tokens, Class::Hash) || begins_tight(tokens)
}

/// `some`, `no`, `lone` or `one`.
#[tactic(auto, unfolding(alloy_syntax::specs::Nodes::is_counting))]
pub fn is_counting(tokens: Tokens) -> bool
    ensures { result ≡ spec.is_counting tokens.entry.left.now }
{
    next_is(tokens, Class::Some)
        || next_is(tokens, Class::No)
        || next_is(tokens, Class::Lone)
        || next_is(tokens, Class::One)
}

#[tactic(auto, unfolding(alloy_syntax::specs::Nodes::begins_node))]
fn begins_node(tokens: Tokens) -> bool
    ensures { result ≡ spec.begins_node tokens.entry.left.now }
{
    next_is(tokens, Class::Not)
        || next_is(tokens, Class::All)
        || next_is(tokens, Class::Let)
        || is_counting(tokens)
        || begins_sum(tokens)
}

#[tactic(auto, unfolding(alloy_syntax::specs::Nodes::begins))]
fn begins(tokens: Tokens, part: Inside) -> bool
    ensures { result ≡ spec.begins part tokens.entry.left.now }
{
    match part {
        Inside::Node => begins_node(tokens),
        Inside::Negation => begins_node(tokens),
        Inside::Implied => begins_node(tokens),
        Inside::Sum => begins_sum(tokens),
        Inside::Size => begins_sum(tokens),
        Inside::Tight => begins_tight(tokens),
        Inside::Quantified(_, _) => next_is(tokens, Class::Disj) || next_is(tokens, Class::Name),
        Inside::Let(_) => next_is(tokens, Class::Name),
    }
}

#[tactic(auto, unfolding(alloy_syntax::specs::Nodes::may_be_block))]
fn may_be_block(part: Inside) -> bool
    ensures { result ≡ spec.may_be_block part }
{
    match part {
        Inside::Node => true,
        Inside::Negation => true,
        Inside::Implied => true,
        Inside::Sum => true,
        Inside::Size => true,
        Inside::Tight => true,
        Inside::Quantified(_, _) => false,
        Inside::Let(_) => false,
    }
}

/// A brace, names with commas, and a colon.
#[tactic(auto, unfolding(alloy_syntax::specs::Nodes::is_comprehension))]
pub fn is_comprehension(tokens: Tokens) -> bool
    ensures { result ≡ spec.is_comprehension tokens.entry.left.now }
{
    next_is(tokens, Class::LeftBrace) && colon_after_names(after(tokens))
}

/// Not the end of a block.
#[tactic(auto, unfolding(alloy_syntax::specs::Nodes::is_inner))]
pub fn is_inner(tokens: Tokens) -> bool
    ensures { result ≡ spec.is_inner tokens.entry.left.now }
{
    !next_is(tokens, Class::RightBrace)
}

/// Where one construct more would be one too many.
#[tactic(auto, unfolding(alloy_syntax::specs::Nodes::stop_at))]
pub fn stop_at<'a>(tokens: Tokens<'a>, part: Inside) -> Result<(Node, Tokens<'a>), ParseStop<'a>>
    ensures value { Gives (λ x. (view x.0, x.1.left.now)) result (spec.stop_at part tokens.entry.left.now) }
    ensures shorter { IfOk result (λ x. length x.1.left.now < length tokens.entry.left.now) }
{
    if may_be_block(part) && is_comprehension(tokens) {
        return Err(ParseStop::Unsupported(Form::Comprehension, tokens));
    }
    if begins(tokens, part) {
        Err(ParseStop::Deep(tokens))
    } else {
        Err(ParseStop::Refused(tokens))
    }
}

/// Whether a constant stands there.
#[tactic(auto, unfolding(alloy_syntax::specs::Nodes::is_constant))]
pub fn is_constant(tokens: Tokens) -> bool
    ensures { result ≡ spec.is_constant tokens.entry.left.now }
{
    next_is(tokens, Class::None) || next_is(tokens, Class::Univ) || next_is(tokens, Class::Iden)
}

/// `none`, `univ`, or else `iden`.
#[tactic(auto, unfolding(alloy_syntax::specs::Nodes::constant_of))]
pub fn constant_of(tokens: Tokens) -> Constant
    ensures { result ≡ spec.constant_of tokens.entry.left.now }
{
    if next_is(tokens, Class::None) {
        Constant::None
    } else if next_is(tokens, Class::Univ) {
        Constant::Univ
    } else {
        Constant::Iden
    }
}

/// What `~`, `^`, or else `*` stands for.
#[tactic(auto, unfolding(alloy_syntax::specs::Nodes::tightening_of))]
pub fn tightening_of(tokens: Tokens) -> Prefix
    ensures { result ≡ spec.tightening_of tokens.entry.left.now }
{
    if next_is(tokens, Class::Tilde) {
        Prefix::Transpose
    } else if next_is(tokens, Class::Caret) {
        Prefix::Closure
    } else {
        Prefix::ReflexiveClosure
    }
}

/// `.` or `[`.
#[tactic(auto, unfolding(alloy_syntax::specs::Nodes::begins_step))]
pub fn begins_step(tokens: Tokens) -> bool
    ensures { result ≡ spec.begins_step tokens.entry.left.now }
{
    next_is(tokens, Class::Dot) || next_is(tokens, Class::LeftBracket)
}

/// An operator of that level.
#[tactic(auto, unfolding(alloy_syntax::specs::Nodes::begins_link))]
pub fn begins_link(tokens: Tokens, level: Level) -> bool
    ensures { result ≡ spec.begins_link level tokens.entry.left.now }
{
    match level {
        Level::Or => next_is(tokens, Class::Or),
        Level::Iff => next_is(tokens, Class::Iff),
        Level::And => next_is(tokens, Class::And),
        Level::Sum => next_is(tokens, Class::Plus) || next_is(tokens, Class::Minus),
        Level::Override => next_is(tokens, Class::PlusPlus),
        Level::Meet => next_is(tokens, Class::Ampersand),
        Level::Restrict => {
            next_is(tokens, Class::DomainArrow) || next_is(tokens, Class::RangeArrow)
        }
    }
}

/// The operator of that level that stands there.
#[tactic(auto, unfolding(alloy_syntax::specs::Nodes::operator_of))]
pub fn operator_of(tokens: Tokens, level: Level) -> Operator
    ensures { result ≡ spec.operator_of level tokens.entry.left.now }
{
    match level {
        Level::Or => Operator::Or,
        Level::Iff => Operator::Iff,
        Level::And => Operator::And,
        Level::Sum => sum_operator(tokens),
        Level::Override => Operator::Override,
        Level::Meet => Operator::Meet,
        Level::Restrict => restrict_operator(tokens),
    }
}

#[tactic(auto, unfolding(alloy_syntax::specs::Nodes::operator_of))]
fn sum_operator(tokens: Tokens) -> Operator
    ensures { result ≡ spec.operator_of Level.Sum tokens.entry.left.now }
{
    if next_is(tokens, Class::Plus) {
        Operator::Union
    } else {
        Operator::Minus
    }
}

#[tactic(auto, unfolding(alloy_syntax::specs::Nodes::operator_of))]
fn restrict_operator(tokens: Tokens) -> Operator
    ensures { result ≡ spec.operator_of Level.Restrict tokens.entry.left.now }
{
    if next_is(tokens, Class::DomainArrow) {
        Operator::Domain
    } else {
        Operator::Range
    }
}

/// An arrow, or a multiplicity word and an arrow.
#[tactic(auto, unfolding(alloy_syntax::specs::Nodes::begins_arrow))]
pub fn begins_arrow(tokens: Tokens) -> bool
    ensures { result ≡ spec.begins_arrow tokens.entry.left.now }
{
    next_is(tokens, Class::Arrow) || (is_mark(tokens) && next_is(after(tokens), Class::Arrow))
}

/// What `some`, `no`, `lone`, or else `one` stands for before an expression.
#[tactic(auto, unfolding(alloy_syntax::specs::Nodes::counting_of))]
pub fn counting_of(tokens: Tokens) -> Prefix
    ensures { result ≡ spec.counting_of tokens.entry.left.now }
{
    if next_is(tokens, Class::Some) {
        Prefix::Some
    } else if next_is(tokens, Class::No) {
        Prefix::No
    } else if next_is(tokens, Class::Lone) {
        Prefix::Lone
    } else {
        Prefix::One
    }
}

#[tactic(auto, unfolding(alloy_syntax::specs::Nodes::is_plain_comparison))]
fn is_plain_comparison(tokens: Tokens) -> bool
    ensures { result ≡ spec.is_plain_comparison tokens.entry.left.now }
{
    next_is(tokens, Class::In)
        || next_is(tokens, Class::Equal)
        || next_is(tokens, Class::NotEqual)
        || next_is(tokens, Class::Less)
        || next_is(tokens, Class::Greater)
        || next_is(tokens, Class::AtMost)
        || next_is(tokens, Class::AtLeast)
}

/// A comparison; in braces a `!` that neither `in` nor `=` follows begins the next node.
#[tactic(auto, unfolding(alloy_syntax::specs::Nodes::begins_comparison))]
pub fn begins_comparison(tokens: Tokens, around: Around) -> bool
    ensures { result ≡ spec.begins_comparison around tokens.entry.left.now }
{
    is_plain_comparison(tokens)
        || (next_is(tokens, Class::Not)
            && (next_is(after(tokens), Class::In)
                || next_is(after(tokens), Class::Equal)
                || !in_braces(around)))
}

#[tactic(auto, unfolding(alloy_syntax::specs::Nodes::comparison_of))]
fn comparison_of(tokens: Tokens) -> Comparison
    ensures { result ≡ spec.comparison_of tokens.entry.left.now }
{
    if next_is(tokens, Class::In) {
        Comparison::In
    } else if next_is(tokens, Class::Less) {
        Comparison::Less
    } else if next_is(tokens, Class::Greater) {
        Comparison::Greater
    } else if next_is(tokens, Class::AtMost) {
        Comparison::AtMost
    } else if next_is(tokens, Class::AtLeast) {
        Comparison::AtLeast
    } else {
        Comparison::Equal
    }
}

/// A comparison that begins there.
#[tactic(auto, unfolding(alloy_syntax::specs::Nodes::comparing_at))]
pub fn comparing<'a>(tokens: Tokens<'a>) -> Result<(Comparing, Tokens<'a>), ParseStop<'a>>
    ensures value { Gives (λ x. (x.0, x.1.left.now)) result (spec.comparing_at tokens.entry.left.now) }
    ensures shorter { IfOk result (λ x. length x.1.left.now ≤ length tokens.entry.left.now) }
{
    if next_is(tokens, Class::Not) {
        return negated(tokens);
    }
    let comparing = Comparing {
        comparison: comparison_of(tokens),
        negated: next_is(tokens, Class::NotEqual),
        place: place_at(tokens),
    };
    Ok((comparing, after(tokens)))
}

// A comparison that begins with `!` or `not`.
#[tactic(auto, unfolding(alloy_syntax::specs::Nodes::negated_comparing))]
fn negated<'a>(tokens: Tokens<'a>) -> Result<(Comparing, Tokens<'a>), ParseStop<'a>>
    ensures value { Gives (λ x. (x.0, x.1.left.now)) result (spec.negated_comparing tokens.entry.left.now) }
    ensures shorter { IfOk result (λ x. length x.1.left.now ≤ length tokens.entry.left.now) }
{
    let rest = after(tokens);
    if next_is(rest, Class::In) || next_is(rest, Class::Equal) {
        let comparing = Comparing {
            comparison: comparison_of(rest),
            negated: true,
            place: place_at(tokens),
        };
        return Ok((comparing, after(rest)));
    }
    Err(ParseStop::Refused(rest))
}

/// What follows a word that may begin a quantifier: `disj`, or names with commas and then a colon.
#[tactic(auto, unfolding(alloy_syntax::specs::Nodes::begins_declaration))]
pub fn begins_declaration(tokens: Tokens, around: Around) -> bool
    ensures { result ≡ spec.begins_declaration around tokens.entry.left.now }
{
    if next_is(tokens, Class::Disj) {
        return true;
    }
    if in_brackets(around) {
        return colon_after_names(tokens);
    }
    next_is(tokens, Class::Name)
        && (next_is(after(tokens), Class::Comma) || next_is(after(tokens), Class::Colon))
}

/// Which quantifier `some`, `no`, `lone`, or else `one` is.
#[tactic(auto, unfolding(alloy_syntax::specs::Nodes::quantifier_of))]
pub fn quantifier_of(tokens: Tokens) -> Quantifier
    ensures { result ≡ spec.quantifier_of tokens.entry.left.now }
{
    if next_is(tokens, Class::Some) {
        Quantifier::Some
    } else if next_is(tokens, Class::No) {
        Quantifier::No
    } else if next_is(tokens, Class::Lone) {
        Quantifier::Lone
    } else {
        Quantifier::One
    }
}

/// Whether a quantifier binds one variable.
#[tactic(auto, unfolding(alloy_syntax::specs::Nodes::is_single))]
pub fn is_single(quantifier: Quantifier) -> bool
    ensures { result ≡ spec.is_single quantifier }
{
    match quantifier {
        Quantifier::All => false,
        Quantifier::Some => false,
        Quantifier::No => false,
        Quantifier::Lone => true,
        Quantifier::One => true,
    }
}

/// The tokens behind `disj`, if it stands there.
pub fn after_disj<'a>(tokens: Tokens<'a>) -> Tokens<'a>
    ensures value { result.left.now ≡ spec.after_disj tokens.entry.left.now }
    ensures shorter { length result.left.now ≤ length tokens.entry.left.now }
{
    if next_is(tokens, Class::Disj) {
        after(tokens)
    } else {
        tokens
    }
}
