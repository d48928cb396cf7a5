// The functions of an ordering.
ghost use Rattle.std.specs.Prelude.{◌≡◌, ◌∷◌, ◌++◌, [], map, codes, IfOk, OnOk};
ghost use Rattle.alloy_syntax.specs.View.{view, declaration_view, paragraph_view};
ghost use Rattle.order_lib.specs.Library as spec;

use crate::library::names::{own, push};
use crate::library::nodes::{
    all_atoms, between, first_atom, in_front, join, neighbours, one_variable, reversed, variable,
};
use alloy_syntax::tree::{Declaration, Function, Node, Open, Operator, Paragraph, Prefix};
use std::alloc::{AllocError, Global};

// A function with a set for its range.
fn set_of(
    alloc: Global,
    ordering: &Open,
    word: &str,
    parameters: Vec<Declaration>,
    body: Node,
) -> Result<Paragraph, AllocError>
    ensures { IfOk result (λ p. paragraph_view p ≡ spec.set_of ordering.now word.now (map declaration_view parameters.items) (view body)) }
{
    let name = own(alloc, ordering, word)?;
    let range = all_atoms(alloc, ordering)?;
    Ok(Paragraph::Function(Function {
        name,
        parameters,
        mark: None,
        range,
        body,
    }))
}

// A function without parameters and with pairs for its range.
fn pairs_of(alloc: Global, ordering: &Open, word: &str, body: Node) -> Result<Paragraph, AllocError>
    ensures { IfOk result (λ p. paragraph_view p ≡ spec.pairs_of ordering.now word.now (view body)) }
{
    let name = own(alloc, ordering, word)?;
    let range = all_pairs(alloc, ordering)?;
    Ok(Paragraph::Function(Function {
        name,
        parameters: Vec::new(alloc),
        mark: None,
        range,
        body,
    }))
}

// All pairs of atoms.
fn all_pairs(alloc: Global, ordering: &Open) -> Result<Node, AllocError>
    ensures { IfOk result (λ n. view n ≡ spec.all_pairs ordering.now) }
{
    let left = all_atoms(alloc, ordering)?;
    let right = all_atoms(alloc, ordering)?;
    between(alloc, ordering, left, Operator::Product, right)
}

fn first(alloc: Global, ordering: &Open) -> Result<Paragraph, AllocError>
    ensures { IfOk result (λ p. paragraph_view p ≡ spec.first ordering.now) }
{
    let body = first_atom(alloc, ordering)?;
    set_of(alloc, ordering, "first", Vec::new(alloc), body)
}

fn next(alloc: Global, ordering: &Open) -> Result<Paragraph, AllocError>
    ensures { IfOk result (λ p. paragraph_view p ≡ spec.next ordering.now) }
{
    let body = neighbours(alloc, ordering)?;
    pairs_of(alloc, ordering, "next", body)
}

fn prev(alloc: Global, ordering: &Open) -> Result<Paragraph, AllocError>
    ensures { IfOk result (λ p. paragraph_view p ≡ spec.prev ordering.now) }
{
    let body = reversed(alloc, ordering)?;
    pairs_of(alloc, ordering, "prev", body)
}

// The atoms behind which another one stands.
fn followed(alloc: Global, ordering: &Open) -> Result<Node, AllocError>
    ensures { IfOk result (λ n. view n ≡ spec.followed ordering.now) }
{
    let pairs = neighbours(alloc, ordering)?;
    let atoms = all_atoms(alloc, ordering)?;
    join(alloc, ordering, pairs, atoms)
}

fn last(alloc: Global, ordering: &Open) -> Result<Paragraph, AllocError>
    ensures { IfOk result (λ p. paragraph_view p ≡ spec.last ordering.now) }
{
    let atoms = all_atoms(alloc, ordering)?;
    let followed = followed(alloc, ordering)?;
    let body = between(alloc, ordering, atoms, Operator::Minus, followed)?;
    set_of(alloc, ordering, "last", Vec::new(alloc), body)
}

// What is reached from e along these pairs.
fn reached(alloc: Global, ordering: &Open, pairs: Node) -> Result<Node, AllocError>
    ensures { IfOk result (λ n. view n ≡ spec.reached ordering.now (view pairs)) }
{
    let steps = in_front(alloc, ordering, Prefix::Closure, pairs)?;
    let e = variable(alloc, ordering, "e")?;
    join(alloc, ordering, e, steps)
}

fn nexts(alloc: Global, ordering: &Open) -> Result<Paragraph, AllocError>
    ensures { IfOk result (λ p. paragraph_view p ≡ spec.nexts ordering.now) }
{
    let body = reached(alloc, ordering, neighbours(alloc, ordering)?)?;
    let parameters = one_variable(alloc, ordering, "e")?;
    set_of(alloc, ordering, "nexts", parameters, body)
}

fn prevs(alloc: Global, ordering: &Open) -> Result<Paragraph, AllocError>
    ensures { IfOk result (λ p. paragraph_view p ≡ spec.prevs ordering.now) }
{
    let body = reached(alloc, ordering, reversed(alloc, ordering)?)?;
    let parameters = one_variable(alloc, ordering, "e")?;
    set_of(alloc, ordering, "prevs", parameters, body)
}

// Adds the functions without parameters.
#[tactic(auto, using(crate::proofs::Pushes::four_more))]
fn push_values(
    alloc: Global,
    ordering: &Open,
    paragraphs: &mut Vec<Paragraph>,
) -> Result<(), AllocError>
    ensures { OnOk result (map paragraph_view paragraphs.new.items ≡ map paragraph_view paragraphs.old.items ++ spec.values ordering.now) }
{
    push(paragraphs, first(alloc, ordering)?)?;
    push(paragraphs, next(alloc, ordering)?)?;
    push(paragraphs, prev(alloc, ordering)?)?;
    push(paragraphs, last(alloc, ordering)?)?;
    Ok(())
}

// Adds the functions of one atom.
#[tactic(auto, using(crate::proofs::Pushes::two_more))]
fn push_reaches(
    alloc: Global,
    ordering: &Open,
    paragraphs: &mut Vec<Paragraph>,
) -> Result<(), AllocError>
    ensures { OnOk result (map paragraph_view paragraphs.new.items ≡ map paragraph_view paragraphs.old.items ++ spec.reaches ordering.now) }
{
    push(paragraphs, nexts(alloc, ordering)?)?;
    push(paragraphs, prevs(alloc, ordering)?)?;
    Ok(())
}

/// Adds the functions.
#[tactic(auto, using(crate::proofs::Pushes::two_parts))]
pub fn push_functions(
    alloc: Global,
    ordering: &Open,
    paragraphs: &mut Vec<Paragraph>,
) -> Result<(), AllocError>
    ensures { OnOk result (map paragraph_view paragraphs.new.items ≡ map paragraph_view paragraphs.old.items ++ spec.functions ordering.now) }
{
    push_values(alloc, ordering, paragraphs)?;
    push_reaches(alloc, ordering, paragraphs)
}
