// The types of expressions, and of the calls in them.
ghost use Rattle.std.specs.Prelude.{ℕ, List, map, reverse, IfOk};
ghost use Rattle.named_model.specs.Phrase.{links_of, steps_of};
ghost use Rattle.named_model.specs.View.{phrase_view, phrases_view, link_view, step_view};
ghost use Rattle.model_types.specs.Bounding.{Lists, Types, type_of, types_of, links_type, steps_type};
ghost use Rattle.model_types.specs.Bounds.Same.{AreSame};
ghost use Rattle.overload_resolution.specs.Expressions.Types.{AreEachSame, StandFor};
ghost use Rattle.overload_resolution.specs.Expressions.Chains.{link_type, step_type};

use crate::expression_types::brackets::brackets_type;
use crate::expression_types::depth::Depth;
use crate::expression_types::known::Known;
use crate::expression_types::names::{kept_type, referent_type};
use model_types::bounding_types::operators::{
    constant_type, join_type, operator_type, prefix_type,
};
use model_types::bounding_types::{BoundingType, Work};
use named_model::phrase::{Link, Phrase, Step};
use std::alloc::{AllocError, Global};

/// The type of an expression; of a formula or a number, none. Calls have one where they are nested at most so many deep. The
/// locals are in the order of declaration, so that the last one is number 0. The lists are those of any types that the tables
/// stand for, whatever lists stand for the locals.
pub fn type_of(
    alloc: Global,
    work: &mut Work,
    known: &Known,
    calls: usize,
    locals: &[BoundingType],
    phrase: &Phrase,
) -> Result<BoundingType, AllocError>
    ensures { IfOk result (λ found. (t : Types) (ls : List Lists) → StandFor known.now calls t → AreEachSame (reverse locals.now) ls → AreSame found (type_of t ls (phrase_view phrase.now))) }
{
    part_type(alloc, work, known, Depth::of_calls(calls), locals, phrase)
}

/// The types of parts, in order.
pub fn types_of(
    alloc: Global,
    work: &mut Work,
    known: &Known,
    calls: usize,
    locals: &[BoundingType],
    phrases: &[Phrase],
) -> Result<Vec<BoundingType>, AllocError>
    ensures { IfOk result (λ found. (t : Types) (ls : List Lists) → StandFor known.now calls t → AreEachSame (reverse locals.now) ls → AreEachSame found.items (types_of t ls (phrases_view phrases.now))) }
{
    part_types(alloc, work, known, Depth::of_calls(calls), locals, phrases)
}

// The type of a part.
#[cycle(parts)]
fn part_type(
    alloc: Global,
    work: &mut Work,
    known: &Known,
    depth: Depth,
    locals: &[BoundingType],
    phrase: &Phrase,
) -> Result<BoundingType, AllocError>
    ensures { IfOk result (λ found. (t : Types) (ls : List Lists) → StandFor known.now depth.calls t → AreEachSame (reverse locals.now) ls → AreSame found (type_of t ls (phrase_view phrase.now))) }
{
    work.look()?;
    let depth = depth.inside()?;
    match phrase {
        Phrase::Refers(_, referent) => referent_type(alloc, work, known, locals, *referent),
        Phrase::Called(_, number, arguments) => {
            let types = part_types(alloc, work, known, depth, locals, arguments)?;
            called_type(alloc, work, known, depth, *number, &types)
        }
        Phrase::Constant(constant, _) => constant_type(alloc, work, &known.tops, *constant),
        Phrase::Bracketed(_, inner) => part_type(alloc, work, known, depth, locals, inner),
        Phrase::Prefixed(prefix, _, inner) => {
            let a = part_type(alloc, work, known, depth, locals, inner)?;
            prefix_type(alloc, work, &known.tops, *prefix, a)
        }
        Phrase::Chain(first, links) => {
            let a = part_type(alloc, work, known, depth, locals, first)?;
            with_links(alloc, work, known, depth, locals, a, links)
        }
        Phrase::Path(head, steps) => {
            let a = part_type(alloc, work, known, depth, locals, head)?;
            with_steps(alloc, work, known, depth, locals, a, steps)
        }
        Phrase::Numbered(_)
        | Phrase::Block(_, _)
        | Phrase::Compared(_, _, _)
        | Phrase::Implies(_, _, _)
        | Phrase::ImpliesElse(_, _, _, _)
        | Phrase::Quantified(_, _, _, _)
        | Phrase::Let(_, _, _) => Ok(BoundingType::new(alloc)),
    }
}

#[cycle(parts)]
fn part_types(
    alloc: Global,
    work: &mut Work,
    known: &Known,
    depth: Depth,
    locals: &[BoundingType],
    phrases: &[Phrase],
) -> Result<Vec<BoundingType>, AllocError>
    ensures { IfOk result (λ found. (t : Types) (ls : List Lists) → StandFor known.now depth.calls t → AreEachSame (reverse locals.now) ls → AreEachSame found.items (types_of t ls (phrases_view phrases.now))) }
{
    let mut types = Vec::new(alloc);
    for phrase in phrases {
        let found = part_type(alloc, work, known, depth, locals, phrase)?;
        types.push(found)?;
    }
    Ok(types)
}

// The type of a call with arguments of these types.
#[cycle(parts)]
fn called_type(
    alloc: Global,
    work: &mut Work,
    known: &Known,
    depth: Depth,
    number: usize,
    arguments: &[BoundingType],
) -> Result<BoundingType, AllocError>
    ensures { IfOk result (λ found. (t : Types) (ys : List Lists) → StandFor known.now depth.calls t → AreEachSame arguments.now ys → AreSame found (t.calls number ys)) }
{
    match kept_type(alloc, work, known, depth.calls, number, arguments)? {
        Some(kept) => Ok(kept),
        None => opened_type(alloc, work, known, depth, number, arguments),
    }
}

// The same by the body of what is called, with the arguments in place of its parameters.
#[cycle(parts)]
fn opened_type(
    alloc: Global,
    work: &mut Work,
    known: &Known,
    depth: Depth,
    number: usize,
    arguments: &[BoundingType],
) -> Result<BoundingType, AllocError>
    ensures { IfOk result (λ found. (t : Types) (ys : List Lists) → StandFor known.now depth.calls t → AreEachSame arguments.now ys → AreSame found (t.calls number ys)) }
{
    if depth.calls == 0 {
        return Ok(BoundingType::new(alloc));
    }
    match known.body(number) {
        Some(body) => Ok(part_type(alloc, work, known, depth.of_body(), arguments, body)?),
        None => Ok(BoundingType::new(alloc)),
    }
}

// The type of a chain that begins with operands of this type.
#[cycle(parts)]
fn with_links(
    alloc: Global,
    work: &mut Work,
    known: &Known,
    depth: Depth,
    locals: &[BoundingType],
    first: BoundingType,
    links: &[Link],
) -> Result<BoundingType, AllocError>
    ensures { IfOk result (λ found. (t : Types) (ls : List Lists) (x : Lists) → StandFor known.now depth.calls t → AreEachSame (reverse locals.now) ls → AreSame first x → AreSame found (links_type t ls x (links_of (map link_view links.now)))) }
{
    let mut all = first;
    for link in links {
        all = with_link(alloc, work, known, depth, locals, all, link)?;
    }
    Ok(all)
}

#[cycle(parts)]
fn with_link(
    alloc: Global,
    work: &mut Work,
    known: &Known,
    depth: Depth,
    locals: &[BoundingType],
    first: BoundingType,
    link: &Link,
) -> Result<BoundingType, AllocError>
    ensures { IfOk result (λ found. (t : Types) (ls : List Lists) (x : Lists) → StandFor known.now depth.calls t → AreEachSame (reverse locals.now) ls → AreSame first x → AreSame found (link_type t ls x (link_view link.now))) }
{
    let second = part_type(alloc, work, known, depth, locals, &link.operand)?;
    Ok(operator_type(alloc, work, link.operator, first, &second)?)
}

// The type of an expression of this type with what stands behind it.
#[cycle(parts)]
fn with_steps(
    alloc: Global,
    work: &mut Work,
    known: &Known,
    depth: Depth,
    locals: &[BoundingType],
    head: BoundingType,
    steps: &[Step],
) -> Result<BoundingType, AllocError>
    ensures { IfOk result (λ found. (t : Types) (ls : List Lists) (x : Lists) → StandFor known.now depth.calls t → AreEachSame (reverse locals.now) ls → AreSame head x → AreSame found (steps_type t ls x (steps_of (map step_view steps.now)))) }
{
    let mut all = head;
    for step in steps {
        all = with_step(alloc, work, known, depth, locals, all, step)?;
    }
    Ok(all)
}

#[cycle(parts)]
fn with_step(
    alloc: Global,
    work: &mut Work,
    known: &Known,
    depth: Depth,
    locals: &[BoundingType],
    head: BoundingType,
    step: &Step,
) -> Result<BoundingType, AllocError>
    ensures { IfOk result (λ found. (t : Types) (ls : List Lists) (x : Lists) → StandFor known.now depth.calls t → AreEachSame (reverse locals.now) ls → AreSame head x → AreSame found (step_type t ls x (step_view step.now))) }
{
    match step {
        Step::Join(_, operand) => {
            let second = part_type(alloc, work, known, depth, locals, operand)?;
            Ok(join_type(alloc, work, &head, &second)?)
        }
        Step::Brackets(_, operands) => {
            let types = part_types(alloc, work, known, depth, locals, operands)?;
            Ok(brackets_type(alloc, work, head, &types)?)
        }
    }
}
