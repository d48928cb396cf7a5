// The names of variables.
ghost use Rattle.std.specs.Prelude.{◌≡◌, ◌<◌, length, IfOk};
ghost use Rattle.alloy_syntax.specs.Nodes.{variables_over, variable_names, one_name, are_several};
ghost use Rattle.alloy_syntax.specs.Gives.{Gives};

use crate::expressions::rules::Read;
use crate::expressions::signs::after_disj;
use alloy_syntax::Class;
use alloy_syntax::cursor::{after, expect, name, names, next_is};
use alloy_syntax::parse_stop::{ParseStop, Tokens};
use alloy_syntax::reading::Form;
use alloy_syntax::tree::Name;
use std::alloc::Global;

/// Names with a colon, of which there is one where only one may be bound.
#[tactic(auto, unfolding(alloy_syntax::specs::Nodes::variables_over))]
pub fn variables<'a>(alloc: Global, tokens: Tokens<'a>, single: bool) -> Read<'a, Vec<Name>>
    ensures value { Gives (λ x. (x.0.items, x.1.left.now)) result (variables_over single tokens.entry.left.now) }
    ensures shorter { IfOk result (λ x. length x.1.left.now < length tokens.entry.left.now) }
{
    let (names, rest) = variable_names(alloc, tokens, single)?;
    let (_, rest) = expect(rest, Class::Colon)?;
    if single && are_several(&names) {
        return Err(ParseStop::Unsupported(Form::Several, after(after(tokens))));
    }
    Ok((names, rest))
}

#[tactic(auto, unfolding(alloy_syntax::specs::Nodes::variable_names))]
fn variable_names<'a>(alloc: Global, tokens: Tokens<'a>, single: bool) -> Read<'a, Vec<Name>>
    ensures value { Gives (λ x. (x.0.items, x.1.left.now)) result (variable_names single tokens.entry.left.now) }
    ensures shorter { IfOk result (λ x. length x.1.left.now < length tokens.entry.left.now) }
{
    if single && next_is(tokens, Class::Disj) {
        return one_name(alloc, after(tokens));
    }
    names(alloc, after_disj(tokens))
}

// One name alone.
#[tactic(auto, unfolding(alloy_syntax::specs::Nodes::one_name))]
fn one_name<'a>(alloc: Global, tokens: Tokens<'a>) -> Read<'a, Vec<Name>>
    ensures value { Gives (λ x. (x.0.items, x.1.left.now)) result (one_name tokens.entry.left.now) }
    ensures shorter { IfOk result (λ x. length x.1.left.now < length tokens.entry.left.now) }
{
    let (first, rest) = name(alloc, tokens)?;
    if next_is(rest, Class::Comma) {
        let second = after(rest);
        let _name = name(alloc, second)?;
        return Err(ParseStop::Unsupported(Form::Several, second));
    }
    Ok((vec![in alloc; first]?, rest))
}

// More than one name.
fn are_several(names: &[Name]) -> bool
    ensures { result ≡ are_several names.now }
{
    names.len() > 1
}
