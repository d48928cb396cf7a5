// Expressions, formulas and declarations, where so many constructs may nest in them.
ghost use Rattle.std.specs.Prelude.{◌≡◌, ◌<◌, true, length, map, IfOk};
ghost use Rattle.alloy_syntax.specs.View.{view, block_view, declaration_view};
ghost use Rattle.alloy_syntax.specs.Nodes.{within, block_over, sum_over, braced_over, declarations_over};
ghost use Rattle.alloy_syntax.specs.Gives.{Gives};

use crate::expressions::rules::{Read, Rules};
use crate::expressions::signs::stop_at;
use alloy_syntax::Class;
use alloy_syntax::cursor::expect;
use alloy_syntax::parse_stop::Tokens;
use alloy_syntax::reading::{Around, Inside};
use alloy_syntax::tree::{Block, Declaration, Node};
use std::alloc::Global;

// What stands under one construct more, where so many may nest.
#[tactic(auto, using(crate::proofs::Nodes::Depth::within_at_zero, crate::proofs::Nodes::Depth::within_above))]
fn inside<'a>(
    alloc: Global,
    tokens: Tokens<'a>,
    room: u32,
    around: Around,
    part: Inside,
) -> Read<'a, Node>
    ensures value { Gives (λ x. (view x.0, x.1.left.now)) result (within true room around part tokens.entry.left.now) }
    ensures shorter { IfOk result (λ x. length x.1.left.now < length tokens.entry.left.now) }
{
    if room == 0 {
        return stop_at(tokens, part);
    }
    let rules = Rules {
        alloc,
        room: room - 1,
        reader: inside,
    };
    rules.below(tokens, around, part)
}

/// Formulas in braces. So many constructs may nest in it, less one.
pub fn block<'a>(alloc: Global, tokens: Tokens<'a>, room: u32) -> Read<'a, Block>
    ensures value { Gives (λ x. (block_view x.0, x.1.left.now)) result (block_over (within true room) tokens.entry.left.now) }
    ensures shorter { IfOk result (λ x. length x.1.left.now < length tokens.entry.left.now) }
{
    let rules = Rules {
        alloc,
        room,
        reader: inside,
    };
    rules.block(tokens)
}

/// Declarations with commas between them, of one variable alone where that is said. So many constructs may nest in them.
pub fn declarations<'a>(
    alloc: Global,
    tokens: Tokens<'a>,
    room: u32,
    single: bool,
) -> Read<'a, Vec<Declaration>>
    ensures value { Gives (λ x. (map declaration_view x.0.items, x.1.left.now)) result (declarations_over (within true room) single tokens.entry.left.now) }
    ensures shorter { IfOk result (λ x. length x.1.left.now < length tokens.entry.left.now) }
{
    let rules = Rules {
        alloc,
        room,
        reader: inside,
    };
    rules.declarations(tokens, single)
}

/// An expression. So many constructs may nest in it.
pub fn expression<'a>(alloc: Global, tokens: Tokens<'a>, room: u32) -> Read<'a, Node>
    ensures value { Gives (λ x. (view x.0, x.1.left.now)) result (sum_over (within true room) Around.Parens tokens.entry.left.now) }
    ensures shorter { IfOk result (λ x. length x.1.left.now < length tokens.entry.left.now) }
{
    let rules = Rules {
        alloc,
        room,
        reader: inside,
    };
    rules.sum(tokens, Around::Parens)
}

/// An expression in braces. So many constructs may nest in it, less one.
#[tactic(auto, unfolding(alloy_syntax::specs::Nodes::braced_over))]
pub fn braced<'a>(alloc: Global, tokens: Tokens<'a>, room: u32) -> Read<'a, Node>
    ensures value { Gives (λ x. (view x.0, x.1.left.now)) result (braced_over (within true room) tokens.entry.left.now) }
    ensures shorter { IfOk result (λ x. length x.1.left.now < length tokens.entry.left.now) }
{
    let (_, rest) = expect(tokens, Class::LeftBrace)?;
    let (inner, rest) = inside(alloc, rest, room, Around::Parens, Inside::Sum)?;
    let (_, rest) = expect(rest, Class::RightBrace)?;
    Ok((inner, rest))
}
