// Readers of paragraphs, from signatures to commands, and of the whole model.
ghost use Rattle.std.specs.Prelude.{◌≡◌, ◌<◌, ◌≤◌, length, map, option_map, IfOk, true};
ghost use Rattle.alloy_syntax.specs.Readers.{next_is, many, others};
ghost use Rattle.alloy_syntax.specs.Paragraphs as spec;
ghost use Rattle.alloy_syntax.specs.View.{declaration_view, field_view, block_view, target_view, scope_view, paragraph_view, model_view};
ghost use Rattle.alloy_syntax.specs.Gives.{Gives};
ghost use Rattle.alloy_parse.specs.Behind as behind;

use crate::bounds::{Standing, bound_within};
use crate::expressions::nodes;
use alloy_lex::Place;
use alloy_syntax::Class;
use alloy_syntax::cursor::{
    after, after_mark, expect, fitted, is_mark, mark_at, name, names, next_is, number, path,
    place_at,
};
use alloy_syntax::parse_stop::{ParseStop, Tokens};
use alloy_syntax::reading::Form;
use alloy_syntax::tree::{
    Block, Command, CommandKind, Declaration, Entry, Field, Function, Manner, Model,
    MultiplicityWord, Name, Number, Open, Paragraph, Parent, Scope, Signatures, Target,
};
use std::alloc::Global;

// So many constructs may nest, from the paragraph on: the brackets of its own are the first.
const DEPTH_LIMIT: u32 = 200;

// A paragraph's own block.
fn own_block<'a>(alloc: Global, tokens: Tokens<'a>) -> Result<(Block, Tokens<'a>), ParseStop<'a>>
    ensures value { Gives (λ x. (block_view x.0, x.1.left.now)) result (spec.own_block true spec.depth_limit tokens.entry.left.now) }
    ensures shorter { IfOk result (λ x. length x.1.left.now < length tokens.entry.left.now) }
{
    nodes::block(alloc, tokens, DEPTH_LIMIT)
}

// ---- signatures

// Names with one bound.
#[tactic(auto, unfolding(alloy_syntax::specs::Paragraphs::field_at))]
fn field<'a>(alloc: Global, tokens: Tokens<'a>) -> Result<(Field, Tokens<'a>), ParseStop<'a>>
    ensures value { Gives (λ x. (field_view x.0, x.1.left.now)) result (spec.field_at true spec.depth_limit tokens.entry.left.now) }
    ensures shorter { IfOk result (λ x. length x.1.left.now < length tokens.entry.left.now) }
{
    let (names, rest) = names(alloc, tokens)?;
    let (_, rest) = expect(rest, Class::Colon)?;
    let mark = mark_at(rest);
    let (read, rest) = bound_within(alloc, after_mark(rest), DEPTH_LIMIT, Standing::Whole)?;
    let field = Field {
        names,
        mark,
        bound: read.bound,
    };
    Ok((field, rest))
}

#[tactic(auto, unfolding(alloy_syntax::specs::Readers::others))]
fn more_fields<'a>(
    alloc: Global,
    first: Field,
    tokens: Tokens<'a>,
) -> Result<(Vec<Field>, Tokens<'a>), ParseStop<'a>>
    ensures value { Gives (λ x. (map field_view x.0.items, x.1.left.now)) result (others (spec.field_at true spec.depth_limit) (field_view first) tokens.entry.left.now) }
    ensures shorter { IfOk result (λ x. length x.1.left.now ≤ length tokens.entry.left.now) }
{
    let mut all = Vec::new(alloc);
    all.push(first)?;
    let mut rest = tokens;
    'each: while next_is(rest, Class::Comma) {
        let (another, behind) = field(alloc, after(rest))?;
        all.push(another)?;
        rest = behind;
    }
    Ok((fitted(all), rest))
}

// The fields of a signature, if it has any.
#[tactic(auto, unfolding(alloy_syntax::specs::Paragraphs::fields_at, alloy_syntax::specs::Readers::listed))]
fn fields<'a>(alloc: Global, tokens: Tokens<'a>) -> Result<(Vec<Field>, Tokens<'a>), ParseStop<'a>>
    ensures value { Gives (λ x. (map field_view x.0.items, x.1.left.now)) result (spec.fields_at true spec.depth_limit tokens.entry.left.now) }
    ensures shorter { IfOk result (λ x. length x.1.left.now ≤ length tokens.entry.left.now) }
{
    if next_is(tokens, Class::RightBrace) {
        return Ok((Vec::new(alloc), tokens));
    }
    let (first, rest) = field(alloc, tokens)?;
    more_fields(alloc, first, rest)
}

// A parent behind `extends` or `in`, if there is one.
#[tactic(auto, unfolding(alloy_syntax::specs::Paragraphs::parent_at))]
fn parent<'a>(
    alloc: Global,
    tokens: Tokens<'a>,
) -> Result<(Option<Parent>, Tokens<'a>), ParseStop<'a>>
    ensures value { Gives (λ x. (x.0, x.1.left.now)) result (spec.parent_at tokens.entry.left.now) }
    ensures shorter { IfOk result (λ x. length x.1.left.now ≤ length tokens.entry.left.now) }
{
    if next_is(tokens, Class::Extends) {
        let (name, rest) = name(alloc, after(tokens))?;
        let manner = Manner::Extends;
        return Ok((Some(Parent { manner, name }), rest));
    }
    if next_is(tokens, Class::In) {
        let (name, rest) = name(alloc, after(tokens))?;
        let manner = Manner::In;
        return Ok((Some(Parent { manner, name }), rest));
    }
    Ok((None, tokens))
}

// What stands before `sig`: whether `abstract` does, which of `one`, `lone` and `some` does, and what is behind them.
#[derive(Clone, Copy)]
struct Qualifiers<'a> {
    is_abstract: bool,
    mark: Option<MultiplicityWord>,
    behind: Tokens<'a>,
}

// Whether `one`, `lone` or `some` stands there.
#[tactic(auto, unfolding(alloy_syntax::specs::Paragraphs::is_qualifier))]
fn is_qualifier(tokens: Tokens) -> bool
    ensures { result ≡ spec.is_qualifier tokens.entry.left.now }
{
    is_mark(tokens) && !next_is(tokens, Class::Set)
}

#[tactic(auto, unfolding(alloy_syntax::specs::Paragraphs::qualifier_at))]
fn qualifier_at(tokens: Tokens) -> Option<MultiplicityWord>
    ensures { result ≡ spec.qualifier_at tokens.entry.left.now }
{
    if is_qualifier(tokens) {
        mark_at(tokens)
    } else {
        None
    }
}

fn after_qualifier<'a>(tokens: Tokens<'a>) -> Tokens<'a>
    ensures value { result.left.now ≡ spec.after_qualifier tokens.entry.left.now }
    ensures shorter { length result.left.now ≤ length tokens.entry.left.now }
{
    if is_qualifier(tokens) {
        after(tokens)
    } else {
        tokens
    }
}

fn after_abstract<'a>(tokens: Tokens<'a>) -> Tokens<'a>
    ensures value { result.left.now ≡ spec.after_abstract tokens.entry.left.now }
    ensures shorter { length result.left.now ≤ length tokens.entry.left.now }
{
    if next_is(tokens, Class::Abstract) {
        after(tokens)
    } else {
        tokens
    }
}

// The words before `sig`, each at most once, in any order.
#[tactic(auto, unfolding(alloy_syntax::specs::Paragraphs::qualified))]
fn qualified<'a>(tokens: Tokens<'a>) -> Qualifiers<'a>
    ensures is_abstract { result.is_abstract ≡ (spec.qualified tokens.entry.left.now).is_abstract }
    ensures mark { result.mark ≡ (spec.qualified tokens.entry.left.now).mark }
    ensures behind { result.behind.left.now ≡ (spec.qualified tokens.entry.left.now).behind }
    ensures shorter { length result.behind.left.now ≤ length tokens.entry.left.now }
{
    if next_is(tokens, Class::Abstract) {
        let rest = after(tokens);
        return Qualifiers {
            is_abstract: true,
            mark: qualifier_at(rest),
            behind: after_qualifier(rest),
        };
    }
    let rest = after_qualifier(tokens);
    Qualifiers {
        is_abstract: next_is(rest, Class::Abstract),
        mark: qualifier_at(tokens),
        behind: after_abstract(rest),
    }
}

// Signatures. A block behind them is refused.
#[tactic(auto, unfolding(alloy_syntax::specs::Paragraphs::signatures_at))]
fn signatures<'a>(
    alloc: Global,
    tokens: Tokens<'a>,
) -> Result<(Paragraph, Tokens<'a>), ParseStop<'a>>
    ensures value { Gives (λ x. (paragraph_view x.0, x.1.left.now)) result (spec.signatures_at true spec.depth_limit tokens.entry.left.now) }
    ensures shorter { IfOk result (λ x. length x.1.left.now < length tokens.entry.left.now) }
{
    let front = qualified(tokens);
    let (_, rest) = expect(front.behind, Class::Sig)?;
    let (names, rest) = names(alloc, rest)?;
    let (parent, rest) = parent(alloc, rest)?;
    let Qualifiers {
        is_abstract,
        mark,
        ..
    } = front;
    with_fields(alloc, is_abstract, mark, names, parent, rest)
}

// Signatures that have been read up to their fields. A block behind these is refused.
fn with_fields<'a>(
    alloc: Global,
    is_abstract: bool,
    mark: Option<MultiplicityWord>,
    names: Vec<Name>,
    parent: Option<Parent>,
    tokens: Tokens<'a>,
) -> Result<(Paragraph, Tokens<'a>), ParseStop<'a>>
    ensures value { Gives (λ x. (paragraph_view x.0, x.1.left.now)) result (behind.with_fields is_abstract mark names.items parent tokens.entry.left.now) }
    ensures shorter { IfOk result (λ x. length x.1.left.now < length tokens.entry.left.now) }
{
    let (_, rest) = expect(tokens, Class::LeftBrace)?;
    let (fields, rest) = fields(alloc, rest)?;
    let (_, rest) = expect(rest, Class::RightBrace)?;
    if next_is(rest, Class::LeftBrace) {
        return Err(ParseStop::Unsupported(Form::Appended, rest));
    }
    let declared = Signatures {
        is_abstract,
        mark,
        names,
        parent,
        fields,
    };
    Ok((Paragraph::Signatures(declared), rest))
}

// ---- facts, predicates, functions and assertions, behind their first word

// A name, if there is one.
#[tactic(auto, unfolding(alloy_syntax::specs::Paragraphs::label_at))]
fn label<'a>(alloc: Global, tokens: Tokens<'a>) -> Result<(Option<Name>, Tokens<'a>), ParseStop<'a>>
    ensures value { Gives (λ x. (x.0, x.1.left.now)) result (spec.label_at tokens.entry.left.now) }
    ensures shorter { IfOk result (λ x. length x.1.left.now ≤ length tokens.entry.left.now) }
{
    if next_is(tokens, Class::Name) {
        let (name, rest) = name(alloc, tokens)?;
        return Ok((Some(name), rest));
    }
    Ok((None, tokens))
}

#[tactic(auto, unfolding(alloy_syntax::specs::Paragraphs::fact_at))]
fn fact<'a>(alloc: Global, tokens: Tokens<'a>) -> Result<(Paragraph, Tokens<'a>), ParseStop<'a>>
    ensures value { Gives (λ x. (paragraph_view x.0, x.1.left.now)) result (spec.fact_at true spec.depth_limit tokens.entry.left.now) }
    ensures shorter { IfOk result (λ x. length x.1.left.now < length tokens.entry.left.now) }
{
    let (name, rest) = label(alloc, tokens)?;
    let (body, rest) = own_block(alloc, rest)?;
    Ok((Paragraph::Fact(name, body), rest))
}

// Parameters, and the bracket that closes them.
fn parameters_to<'a>(
    alloc: Global,
    tokens: Tokens<'a>,
    closing: Class,
) -> Result<(Vec<Declaration>, Tokens<'a>), ParseStop<'a>>
    ensures value { Gives (λ x. (map declaration_view x.0.items, x.1.left.now)) result (spec.parameters_to true spec.depth_limit closing tokens.entry.left.now) }
    ensures shorter { IfOk result (λ x. length x.1.left.now ≤ length tokens.entry.left.now) }
{
    if next_is(tokens, closing) {
        return Ok((Vec::new(alloc), after(tokens)));
    }
    let (all, rest) = nodes::declarations(alloc, tokens, DEPTH_LIMIT - 1, false)?;
    let (_, rest) = expect(rest, closing)?;
    Ok((all, rest))
}

// Parameters in square or in round brackets, if there are any.
#[tactic(auto, unfolding(alloy_syntax::specs::Paragraphs::parameter_list))]
fn parameters<'a>(
    alloc: Global,
    tokens: Tokens<'a>,
) -> Result<(Vec<Declaration>, Tokens<'a>), ParseStop<'a>>
    ensures value { Gives (λ x. (map declaration_view x.0.items, x.1.left.now)) result (spec.parameter_list true spec.depth_limit tokens.entry.left.now) }
    ensures shorter { IfOk result (λ x. length x.1.left.now ≤ length tokens.entry.left.now) }
{
    if next_is(tokens, Class::LeftBracket) {
        return parameters_to(alloc, after(tokens), Class::RightBracket);
    }
    if next_is(tokens, Class::LeftParen) {
        return parameters_to(alloc, after(tokens), Class::RightParen);
    }
    Ok((Vec::new(alloc), tokens))
}

#[tactic(auto, unfolding(alloy_syntax::specs::Paragraphs::predicate_at))]
fn predicate<'a>(
    alloc: Global,
    tokens: Tokens<'a>,
) -> Result<(Paragraph, Tokens<'a>), ParseStop<'a>>
    ensures value { Gives (λ x. (paragraph_view x.0, x.1.left.now)) result (spec.predicate_at true spec.depth_limit tokens.entry.left.now) }
    ensures shorter { IfOk result (λ x. length x.1.left.now < length tokens.entry.left.now) }
{
    let (name, rest) = name(alloc, tokens)?;
    let (parameters, rest) = parameters(alloc, rest)?;
    let (body, rest) = own_block(alloc, rest)?;
    Ok((Paragraph::Predicate(name, parameters, body), rest))
}

#[tactic(auto, unfolding(alloy_syntax::specs::Paragraphs::function_at))]
fn function<'a>(alloc: Global, tokens: Tokens<'a>) -> Result<(Paragraph, Tokens<'a>), ParseStop<'a>>
    ensures value { Gives (λ x. (paragraph_view x.0, x.1.left.now)) result (spec.function_at true spec.depth_limit tokens.entry.left.now) }
    ensures shorter { IfOk result (λ x. length x.1.left.now < length tokens.entry.left.now) }
{
    let (name, rest) = name(alloc, tokens)?;
    let (parameters, rest) = parameters(alloc, rest)?;
    with_body(alloc, name, parameters, rest)
}

// A function that has been read up to its parameters, with its range and its body.
fn with_body<'a>(
    alloc: Global,
    name: Name,
    parameters: Vec<Declaration>,
    tokens: Tokens<'a>,
) -> Result<(Paragraph, Tokens<'a>), ParseStop<'a>>
    ensures value { Gives (λ x. (paragraph_view x.0, x.1.left.now)) result (behind.with_body name (map declaration_view parameters.items) tokens.entry.left.now) }
    ensures shorter { IfOk result (λ x. length x.1.left.now < length tokens.entry.left.now) }
{
    let (_, rest) = expect(tokens, Class::Colon)?;
    let mark = mark_at(rest);
    let (range, rest) = nodes::expression(alloc, after_mark(rest), DEPTH_LIMIT)?;
    let (body, rest) = nodes::braced(alloc, rest, DEPTH_LIMIT)?;
    let function = Function {
        name,
        parameters,
        mark,
        range,
        body,
    };
    Ok((Paragraph::Function(function), rest))
}

#[tactic(auto, unfolding(alloy_syntax::specs::Paragraphs::assertion_at))]
fn assertion<'a>(
    alloc: Global,
    tokens: Tokens<'a>,
) -> Result<(Paragraph, Tokens<'a>), ParseStop<'a>>
    ensures value { Gives (λ x. (paragraph_view x.0, x.1.left.now)) result (spec.assertion_at true spec.depth_limit tokens.entry.left.now) }
    ensures shorter { IfOk result (λ x. length x.1.left.now < length tokens.entry.left.now) }
{
    let (name, rest) = name(alloc, tokens)?;
    let (body, rest) = own_block(alloc, rest)?;
    Ok((Paragraph::Assertion(name, body), rest))
}

// ---- commands, behind their first word

// The size that a scope gives to a signature.
#[tactic(auto, unfolding(alloy_syntax::specs::Paragraphs::entry_at))]
fn entry<'a>(alloc: Global, tokens: Tokens<'a>) -> Result<(Entry, Tokens<'a>), ParseStop<'a>>
    ensures value { Gives (λ x. (x.0, x.1.left.now)) result (spec.entry_at tokens.entry.left.now) }
    ensures shorter { IfOk result (λ x. length x.1.left.now < length tokens.entry.left.now) }
{
    let exactly = next_is(tokens, Class::Exactly);
    let rest = if exactly { after(tokens) } else { tokens };
    let (number, rest) = number(rest)?;
    let (name, rest) = name(alloc, rest)?;
    let entry = Entry {
        exactly,
        number,
        name,
    };
    Ok((entry, rest))
}

#[tactic(auto, unfolding(alloy_syntax::specs::Readers::others))]
fn more_entries<'a>(
    alloc: Global,
    first: Entry,
    tokens: Tokens<'a>,
) -> Result<(Vec<Entry>, Tokens<'a>), ParseStop<'a>>
    ensures value { Gives (λ x. (x.0.items, x.1.left.now)) result (others spec.entry_at first tokens.entry.left.now) }
    ensures shorter { IfOk result (λ x. length x.1.left.now ≤ length tokens.entry.left.now) }
{
    let mut all = Vec::new(alloc);
    all.push(first)?;
    let mut rest = tokens;
    'each: while next_is(rest, Class::Comma) {
        let (another, behind) = entry(alloc, after(rest))?;
        all.push(another)?;
        rest = behind;
    }
    Ok((fitted(all), rest))
}

#[tactic(auto, unfolding(alloy_syntax::specs::Paragraphs::entries_at, alloy_syntax::specs::Readers::listed))]
fn entries<'a>(alloc: Global, tokens: Tokens<'a>) -> Result<(Vec<Entry>, Tokens<'a>), ParseStop<'a>>
    ensures value { Gives (λ x. (x.0.items, x.1.left.now)) result (spec.entries_at tokens.entry.left.now) }
    ensures shorter { IfOk result (λ x. length x.1.left.now < length tokens.entry.left.now) }
{
    let (first, rest) = entry(alloc, tokens)?;
    more_entries(alloc, first, rest)
}

// The entries behind `but`, if it is there.
#[tactic(auto, unfolding(alloy_syntax::specs::Paragraphs::exceptions_at))]
fn exceptions<'a>(
    alloc: Global,
    tokens: Tokens<'a>,
) -> Result<(Vec<Entry>, Tokens<'a>), ParseStop<'a>>
    ensures value { Gives (λ x. (x.0.items, x.1.left.now)) result (spec.exceptions_at tokens.entry.left.now) }
    ensures shorter { IfOk result (λ x. length x.1.left.now ≤ length tokens.entry.left.now) }
{
    if next_is(tokens, Class::But) {
        return entries(alloc, after(tokens));
    }
    Ok((Vec::new(alloc), tokens))
}

// Whether a number stands there that no name follows.
#[tactic(auto, unfolding(alloy_syntax::specs::Paragraphs::has_default))]
fn has_default(tokens: Tokens) -> bool
    ensures { result ≡ spec.has_default tokens.entry.left.now }
{
    next_is(tokens, Class::Number) && !next_is(after(tokens), Class::Name)
}

// A command's scope, if it has one.
#[tactic(auto, unfolding(alloy_syntax::specs::Paragraphs::scope_at))]
fn scope<'a>(
    alloc: Global,
    tokens: Tokens<'a>,
) -> Result<(Option<Scope>, Tokens<'a>), ParseStop<'a>>
    ensures value { Gives (λ x. (option_map scope_view x.0, x.1.left.now)) result (spec.scope_at tokens.entry.left.now) }
    ensures shorter { IfOk result (λ x. length x.1.left.now ≤ length tokens.entry.left.now) }
{
    if !next_is(tokens, Class::For) {
        return Ok((None, tokens));
    }
    scope_behind(alloc, after(tokens))
}

// A scope, behind its `for`.
fn scope_behind<'a>(
    alloc: Global,
    tokens: Tokens<'a>,
) -> Result<(Option<Scope>, Tokens<'a>), ParseStop<'a>>
    ensures value { Gives (λ x. (option_map scope_view x.0, x.1.left.now)) result (behind.scope_behind tokens.entry.left.now) }
    ensures shorter { IfOk result (λ x. length x.1.left.now ≤ length tokens.entry.left.now) }
{
    if !has_default(tokens) {
        let (entries, rest) = entries(alloc, tokens)?;
        let default = None;
        return Ok((Some(Scope { default, entries }), rest));
    }
    let (number, rest) = number(tokens)?;
    let (entries, rest) = exceptions(alloc, rest)?;
    let default = Some(number);
    Ok((Some(Scope { default, entries }), rest))
}

// The number behind `expect`, if it is there.
#[tactic(auto, unfolding(alloy_syntax::specs::Paragraphs::expected_at))]
fn expected<'a>(tokens: Tokens<'a>) -> Result<(Option<Number>, Tokens<'a>), ParseStop<'a>>
    ensures value { Gives (λ x. (x.0, x.1.left.now)) result (spec.expected_at tokens.entry.left.now) }
    ensures shorter { IfOk result (λ x. length x.1.left.now ≤ length tokens.entry.left.now) }
{
    if next_is(tokens, Class::Expect) {
        let (number, rest) = number(after(tokens))?;
        return Ok((Some(number), rest));
    }
    Ok((None, tokens))
}

// What a command runs or checks: a name, or a block, which may have a label.
#[tactic(auto, unfolding(alloy_syntax::specs::Paragraphs::target_at))]
fn target<'a>(alloc: Global, tokens: Tokens<'a>) -> Result<(Target, Tokens<'a>), ParseStop<'a>>
    ensures value { Gives (λ x. (target_view x.0, x.1.left.now)) result (spec.target_at true spec.depth_limit tokens.entry.left.now) }
    ensures shorter { IfOk result (λ x. length x.1.left.now < length tokens.entry.left.now) }
{
    if next_is(tokens, Class::Name) && !next_is(after(tokens), Class::LeftBrace) {
        let (name, rest) = name(alloc, tokens)?;
        return Ok((Target::Named(name), rest));
    }
    let (label, rest) = label(alloc, tokens)?;
    let (body, rest) = own_block(alloc, rest)?;
    Ok((Target::Block(label, body), rest))
}

#[tactic(auto, unfolding(alloy_syntax::specs::Paragraphs::command_at))]
fn command<'a>(
    alloc: Global,
    tokens: Tokens<'a>,
    kind: CommandKind,
    place: Place,
) -> Result<(Paragraph, Tokens<'a>), ParseStop<'a>>
    ensures value { Gives (λ x. (paragraph_view x.0, x.1.left.now)) result (spec.command_at true spec.depth_limit kind place tokens.entry.left.now) }
    ensures shorter { IfOk result (λ x. length x.1.left.now < length tokens.entry.left.now) }
{
    let (target, rest) = target(alloc, tokens)?;
    let (scope, rest) = scope(alloc, rest)?;
    let (expected, rest) = expected(rest)?;
    let command = Command {
        kind,
        place,
        target,
        scope,
        expected,
    };
    Ok((Paragraph::Command(command), rest))
}

// ---- a model

#[tactic(auto, unfolding(alloy_syntax::specs::Paragraphs::paragraph_at))]
fn paragraph<'a>(
    alloc: Global,
    tokens: Tokens<'a>,
) -> Result<(Paragraph, Tokens<'a>), ParseStop<'a>>
    ensures value { Gives (λ x. (paragraph_view x.0, x.1.left.now)) result (spec.paragraph_at true spec.depth_limit tokens.entry.left.now) }
    ensures shorter { IfOk result (λ x. length x.1.left.now < length tokens.entry.left.now) }
{
    if next_is(tokens, Class::Fact) {
        return fact(alloc, after(tokens));
    }
    if next_is(tokens, Class::Pred) {
        return predicate(alloc, after(tokens));
    }
    if next_is(tokens, Class::Fun) {
        return function(alloc, after(tokens));
    }
    if next_is(tokens, Class::Assert) {
        return assertion(alloc, after(tokens));
    }
    if next_is(tokens, Class::Run) {
        return command(alloc, after(tokens), CommandKind::Run, place_at(tokens));
    }
    if next_is(tokens, Class::Check) {
        return command(alloc, after(tokens), CommandKind::Check, place_at(tokens));
    }
    signatures(alloc, tokens)
}

#[tactic(auto, unfolding(alloy_syntax::specs::Paragraphs::is_left))]
fn is_left(tokens: Tokens) -> bool
    ensures { result ≡ spec.is_left tokens.entry.left.now }
{
    !tokens.left.is_empty()
}

fn all_paragraphs<'a>(
    alloc: Global,
    tokens: Tokens<'a>,
) -> Result<(Vec<Paragraph>, Tokens<'a>), ParseStop<'a>>
    ensures { Gives (λ x. (map paragraph_view x.0.items, x.1.left.now)) result (many spec.is_left (spec.paragraph_at true spec.depth_limit) tokens.entry.left.now) }
{
    let mut all = Vec::new(alloc);
    let mut rest = tokens;
    'each: while is_left(rest) {
        let (another, behind) = paragraph(alloc, rest)?;
        all.push(another)?;
        rest = behind;
    }
    Ok((fitted(all), rest))
}

// The name behind `module`, if it is there.
#[tactic(auto, unfolding(alloy_syntax::specs::Paragraphs::heading_at))]
fn heading<'a>(
    alloc: Global,
    tokens: Tokens<'a>,
) -> Result<(Option<Name>, Tokens<'a>), ParseStop<'a>>
    ensures { Gives (λ x. (x.0, x.1.left.now)) result (spec.heading_at tokens.entry.left.now) }
{
    if next_is(tokens, Class::Module) {
        let (name, rest) = name(alloc, after(tokens))?;
        return Ok((Some(name), rest));
    }
    Ok((None, tokens))
}

// The module of an `open`, which is that of orderings.
#[tactic(auto, unfolding(alloy_syntax::specs::Paragraphs::ordering_at))]
fn ordering<'a>(alloc: Global, tokens: Tokens<'a>) -> Result<(Name, Tokens<'a>), ParseStop<'a>>
    ensures value { Gives (λ x. (x.0, x.1.left.now)) result (spec.ordering_at tokens.entry.left.now) }
    ensures shorter { IfOk result (λ x. length x.1.left.now < length tokens.entry.left.now) }
{
    let (module, rest) = path(alloc, tokens)?;
    if module.text.text() == "util/ordering" {
        Ok((module, rest))
    } else {
        Err(ParseStop::Unsupported(Form::Open, tokens))
    }
}

// An ordering, with its first word.
#[tactic(auto, unfolding(alloy_syntax::specs::Paragraphs::open_at))]
fn open<'a>(alloc: Global, tokens: Tokens<'a>) -> Result<(Open, Tokens<'a>), ParseStop<'a>>
    ensures value { Gives (λ x. (x.0, x.1.left.now)) result (spec.open_at tokens.entry.left.now) }
    ensures shorter { IfOk result (λ x. length x.1.left.now < length tokens.entry.left.now) }
{
    let (_, rest) = ordering(alloc, after(tokens))?;
    let (_, rest) = expect(rest, Class::LeftBracket)?;
    let (signature, rest) = name(alloc, rest)?;
    with_alias(alloc, signature, rest)
}

// An ordering of that signature, with the name by which it is called.
fn with_alias<'a>(
    alloc: Global,
    signature: Name,
    tokens: Tokens<'a>,
) -> Result<(Open, Tokens<'a>), ParseStop<'a>>
    ensures value { Gives (λ x. (x.0, x.1.left.now)) result (behind.with_alias signature tokens.entry.left.now) }
    ensures shorter { IfOk result (λ x. length x.1.left.now < length tokens.entry.left.now) }
{
    let (_, rest) = expect(tokens, Class::RightBracket)?;
    let (_, rest) = expect(rest, Class::As)?;
    let (alias, rest) = name(alloc, rest)?;
    Ok((Open { signature, alias }, rest))
}

fn opens<'a>(alloc: Global, tokens: Tokens<'a>) -> Result<(Vec<Open>, Tokens<'a>), ParseStop<'a>>
    ensures { Gives (λ x. (x.0.items, x.1.left.now)) result (many (next_is Class.Open) spec.open_at tokens.entry.left.now) }
{
    let mut all = Vec::new(alloc);
    let mut rest = tokens;
    'each: while next_is(rest, Class::Open) {
        let (another, behind) = open(alloc, rest)?;
        all.push(another)?;
        rest = behind;
    }
    Ok((fitted(all), rest))
}

/// The model that the tokens are, or where reading stops.
#[tactic(auto, unfolding(alloy_syntax::specs::Paragraphs::model_at))]
pub fn model<'a>(alloc: Global, tokens: Tokens<'a>) -> Result<Model, ParseStop<'a>>
    ensures { Gives model_view result (spec.model_of tokens.entry.left.now) }
{
    let (heading, rest) = heading(alloc, tokens)?;
    let (opens, rest) = opens(alloc, rest)?;
    let (paragraphs, _) = all_paragraphs(alloc, rest)?;
    Ok(Model {
        heading,
        opens,
        paragraphs,
    })
}
