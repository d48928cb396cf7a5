// The predicates of an ordering.
ghost use Rattle.std.specs.Prelude.{◌≡◌, ◌∷◌, ◌++◌, [], map, codes, IfOk, OnOk};
ghost use Rattle.alloy_syntax.specs.View.{view, declaration_view, paragraph_view};
ghost use Rattle.order_lib.specs.Library as spec;

use crate::library::names::{a_and_b, own, push};
use crate::library::nodes::{
    between, call, compare, declared, one_declaration, one_node, variable,
};
use alloy_syntax::tree::{Block, Comparison, Declaration, Node, Open, Operator, Paragraph};
use std::alloc::{AllocError, Global};

// The parameters a and b.
fn two_atoms(alloc: Global, ordering: &Open) -> Result<Vec<Declaration>, AllocError>
    ensures { IfOk result (λ ds. map declaration_view ds.items ≡ spec.two_atoms ordering.now) }
{
    let names = a_and_b(alloc, ordering)?;
    one_declaration(alloc, declared(alloc, ordering, names)?)
}

// A predicate of a and b.
fn predicate_of(
    alloc: Global,
    ordering: &Open,
    word: &str,
    body: Node,
) -> Result<Paragraph, AllocError>
    ensures { IfOk result (λ p. paragraph_view p ≡ spec.predicate_of ordering.now word.now (view body)) }
{
    let formulas = one_node(alloc, body)?;
    let name = own(alloc, ordering, word)?;
    let parameters = two_atoms(alloc, ordering)?;
    let place = ordering.alias.place;
    Ok(Paragraph::Predicate(name, parameters, Block { place, formulas }))
}

// That a is in what a function gives of b.
fn is_in(alloc: Global, ordering: &Open, word: &str) -> Result<Node, AllocError>
    ensures { IfOk result (λ n. view n ≡ spec.is_in ordering.now word.now) }
{
    let arguments = one_node(alloc, variable(alloc, ordering, "b")?)?;
    let given = call(alloc, ordering, word, arguments)?;
    let a = variable(alloc, ordering, "a")?;
    compare(alloc, ordering, a, Comparison::In, given)
}

// The arguments a and b.
fn both(alloc: Global, ordering: &Open) -> Result<Vec<Node>, AllocError>
    ensures { IfOk result (λ ns. map view ns.items ≡ spec.variable ordering.now (codes "a") ∷ spec.variable ordering.now (codes "b") ∷ []) }
{
    let mut nodes = Vec::new(alloc);
    nodes.push(variable(alloc, ordering, "a")?)?;
    nodes.push(variable(alloc, ordering, "b")?)?;
    Ok(nodes)
}

fn are_equal(alloc: Global, ordering: &Open) -> Result<Node, AllocError>
    ensures { IfOk result (λ n. view n ≡ spec.are_equal ordering.now) }
{
    let a = variable(alloc, ordering, "a")?;
    let b = variable(alloc, ordering, "b")?;
    compare(alloc, ordering, a, Comparison::Equal, b)
}

// That a is b, or that a predicate holds of a and b.
fn or_equal(alloc: Global, ordering: &Open, word: &str) -> Result<Node, AllocError>
    ensures { IfOk result (λ n. view n ≡ spec.or_equal ordering.now word.now) }
{
    let called = call(alloc, ordering, word, both(alloc, ordering)?)?;
    let equal = are_equal(alloc, ordering)?;
    between(alloc, ordering, equal, Operator::Or, called)
}

fn lt(alloc: Global, ordering: &Open) -> Result<Paragraph, AllocError>
    ensures { IfOk result (λ p. paragraph_view p ≡ spec.lt ordering.now) }
{
    predicate_of(alloc, ordering, "lt", is_in(alloc, ordering, "prevs")?)
}

fn gt(alloc: Global, ordering: &Open) -> Result<Paragraph, AllocError>
    ensures { IfOk result (λ p. paragraph_view p ≡ spec.gt ordering.now) }
{
    predicate_of(alloc, ordering, "gt", is_in(alloc, ordering, "nexts")?)
}

fn lte(alloc: Global, ordering: &Open) -> Result<Paragraph, AllocError>
    ensures { IfOk result (λ p. paragraph_view p ≡ spec.lte ordering.now) }
{
    predicate_of(alloc, ordering, "lte", or_equal(alloc, ordering, "lt")?)
}

fn gte(alloc: Global, ordering: &Open) -> Result<Paragraph, AllocError>
    ensures { IfOk result (λ p. paragraph_view p ≡ spec.gte ordering.now) }
{
    predicate_of(alloc, ordering, "gte", or_equal(alloc, ordering, "gt")?)
}

/// Adds the predicates.
pub fn push_predicates(
    alloc: Global,
    ordering: &Open,
    paragraphs: &mut Vec<Paragraph>,
) -> Result<(), AllocError>
    ensures { OnOk result (map paragraph_view paragraphs.new.items ≡ map paragraph_view paragraphs.old.items ++ spec.predicates ordering.now) }
{
    push(paragraphs, lt(alloc, ordering)?)?;
    push(paragraphs, gt(alloc, ordering)?)?;
    push(paragraphs, lte(alloc, ordering)?)?;
    push(paragraphs, gte(alloc, ordering)?)?;
    Ok(())
}
