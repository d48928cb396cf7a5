// The fact of an ordering.
ghost use Rattle.std.specs.Prelude.{◌≡◌, ◌∷◌, [], map, codes, IfOk};
ghost use Rattle.alloy_syntax.specs.View.{view, paragraph_view};
ghost use Rattle.order_lib.specs.Library as spec;

use crate::library::nodes::{
    all_atoms, compare, first_atom, in_front, join, neighbours, one_variable, variable,
};
use alloy_syntax::tree::{Block, Comparison, Node, Open, Paragraph, Prefix, Quantifier};
use std::alloc::{AllocError, Global};

// What holds of each x.
fn for_all(alloc: Global, ordering: &Open, body: Node) -> Result<Node, AllocError>
    ensures { IfOk result (λ n. view n ≡ spec.for_all ordering.now (view body)) }
{
    let body = Box::new(alloc, body)?;
    let variables = one_variable(alloc, ordering, "x")?;
    let place = ordering.alias.place;
    Ok(Node::Quantified(Quantifier::All, place, variables, body))
}

fn first_has_none_before(alloc: Global, ordering: &Open) -> Result<Node, AllocError>
    ensures { IfOk result (λ n. view n ≡ spec.first_has_none_before ordering.now) }
{
    let pairs = neighbours(alloc, ordering)?;
    let first = first_atom(alloc, ordering)?;
    let before = join(alloc, ordering, pairs, first)?;
    in_front(alloc, ordering, Prefix::No, before)
}

fn lone_behind(alloc: Global, ordering: &Open) -> Result<Node, AllocError>
    ensures { IfOk result (λ n. view n ≡ spec.lone_behind ordering.now) }
{
    let x = variable(alloc, ordering, "x")?;
    let pairs = neighbours(alloc, ordering)?;
    let behind = join(alloc, ordering, x, pairs)?;
    for_all(
        alloc,
        ordering,
        in_front(alloc, ordering, Prefix::Lone, behind)?,
    )
}

fn lone_before(alloc: Global, ordering: &Open) -> Result<Node, AllocError>
    ensures { IfOk result (λ n. view n ≡ spec.lone_before ordering.now) }
{
    let pairs = neighbours(alloc, ordering)?;
    let x = variable(alloc, ordering, "x")?;
    let before = join(alloc, ordering, pairs, x)?;
    for_all(
        alloc,
        ordering,
        in_front(alloc, ordering, Prefix::Lone, before)?,
    )
}

// All that is reached from the first atom.
fn from_first(alloc: Global, ordering: &Open) -> Result<Node, AllocError>
    ensures { IfOk result (λ n. view n ≡ spec.from_first ordering.now) }
{
    let first = first_atom(alloc, ordering)?;
    let pairs = neighbours(alloc, ordering)?;
    let steps = in_front(alloc, ordering, Prefix::ReflexiveClosure, pairs)?;
    join(alloc, ordering, first, steps)
}

fn all_from_first(alloc: Global, ordering: &Open) -> Result<Node, AllocError>
    ensures { IfOk result (λ n. view n ≡ spec.all_from_first ordering.now) }
{
    let atoms = all_atoms(alloc, ordering)?;
    let reached = from_first(alloc, ordering)?;
    compare(alloc, ordering, atoms, Comparison::In, reached)
}

// The four formulas that make an order of `First` and `Next`.
fn order_formulas(alloc: Global, ordering: &Open) -> Result<Vec<Node>, AllocError>
    ensures { IfOk result (λ ns. map view ns.items ≡ spec.order_formulas ordering.now) }
{
    let mut formulas = Vec::new(alloc);
    formulas.push(first_has_none_before(alloc, ordering)?)?;
    formulas.push(lone_behind(alloc, ordering)?)?;
    formulas.push(lone_before(alloc, ordering)?)?;
    formulas.push(all_from_first(alloc, ordering)?)?;
    Ok(formulas)
}

/// The fact of the ordering.
pub fn the_fact(alloc: Global, ordering: &Open) -> Result<Paragraph, AllocError>
    ensures { IfOk result (λ p. paragraph_view p ≡ spec.the_fact ordering.now) }
{
    let formulas = order_formulas(alloc, ordering)?;
    let place = ordering.alias.place;
    Ok(Paragraph::Fact(None, Block { place, formulas }))
}
