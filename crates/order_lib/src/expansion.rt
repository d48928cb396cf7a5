// A model with orderings, and what it is short for.
ghost use Rattle.std.specs.Prelude.{◌≡◌, ◌⊎◌, ◌≤◌, ◌*◌, ℕ, length, map, Ok as Well, Err as Ill, IfOk, MatchResult};
ghost use Rattle.alloy_syntax.specs.View.{paragraph_view, model_view};
ghost use Rattle.order_lib.specs.declared.fault.OrderFault.TheVariants as fault;
ghost use Rattle.order_lib.specs.Scopes as scopes;
ghost use Rattle.order_lib.specs.Expanded as spec;

use crate::fault::OrderFault;
use crate::library::paragraphs::push_orderings;
use crate::refusals::first_fault;
use crate::scopes::{ordered_in, with_exact};
use alloy_syntax::tree::{Model, Name, Open, Paragraph};
use std::alloc::{AllocError, Global};

// So many orderings times commands may there be.
const MOST_ENTRIES: usize = 1_048_576;

// 1 for a command.
fn command_count(paragraph: &Paragraph) -> usize
    ensures value { result ≡ spec.command_count (paragraph_view paragraph.now) }
    ensures few { result ≤ 1 }
{
    match paragraph {
        Paragraph::Command(_) => 1,
        _ => 0,
    }
}

// How many of the paragraphs are commands.
#[tactic(auto, using(crate::proofs::Faulting::more_commands))]
fn commands_in(paragraphs: &[Paragraph]) -> usize
    ensures { result ≡ spec.commands_in (map paragraph_view paragraphs.now) }
{
    let mut count = 0;
    for paragraph in paragraphs {
        count += command_count(paragraph);
    }
    count
}

// Whether so many orderings are too many for so many commands.
fn are_too_many(opens: usize, commands: usize) -> bool
    ensures { result ≡ spec.are_too_many opens commands }
{
    opens.saturating_mul(commands) > MOST_ENTRIES
}

// The paragraphs, with ordered signatures exact in each command.
#[tactic(auto, using(crate::proofs::Pushes::both_more))]
fn all_exact(
    alloc: Global,
    ordered: &[Name],
    paragraphs: Vec<Paragraph>,
) -> Result<Vec<Paragraph>, AllocError>
    ensures { IfOk result (λ all. map paragraph_view all.items ≡ map (scopes.with_exact ordered.now) (map paragraph_view paragraphs.items)) }
{
    let mut all = Vec::with_capacity(alloc, paragraphs.len())?;
    for paragraph in paragraphs {
        all.push(with_exact(alloc, ordered, paragraph)?)?;
    }
    Ok(all)
}

// The paragraphs of a model with these orderings.
fn paragraphs_with(
    alloc: Global,
    opens: &[Open],
    paragraphs: Vec<Paragraph>,
) -> Result<Vec<Paragraph>, AllocError>
    ensures { IfOk result (λ all. map paragraph_view all.items ≡ spec.paragraphs_with opens.now (map paragraph_view paragraphs.items)) }
{
    let ordered = ordered_in(alloc, opens)?;
    let mut all = all_exact(alloc, &ordered, paragraphs)?;
    push_orderings(alloc, opens, &mut all)?;
    Ok(all)
}

// A model whose orderings have no fault.
fn with_orderings(alloc: Global, model: Model) -> Result<Model, AllocError>
    ensures { IfOk result (λ new. model_view new ≡ spec.with_orderings (model_view model)) }
{
    let Model {
        heading,
        opens,
        paragraphs,
    } = model;
    let paragraphs = paragraphs_with(alloc, &opens, paragraphs)?;
    Ok(Model {
        heading,
        opens: Vec::new(alloc),
        paragraphs,
    })
}

/// What a model with orderings is short for, or the first fault of an ordering.
pub fn expand(alloc: Global, model: Model) -> Result<Model, OrderFault>
    // The expansion, or no memory, or the first fault of an ordering.
    ensures value { MatchResult result (λ new. spec.expanded (model_view model) ≡ Well (model_view new)) (λ f. (f ≡ fault.Memory) ⊎ (spec.expanded (model_view model) ≡ Ill f)) }
    // So many orderings times commands are want of memory.
    ensures few { IfOk result (λ _. length model.opens.items * spec.commands_in (map paragraph_view model.paragraphs.items) ≤ 1048576) }
{
    if model.opens.is_empty() {
        return Ok(model);
    }
    if let Some(fault) = first_fault(&model.paragraphs, &model.opens) {
        return Err(fault);
    }
    if are_too_many(model.opens.len(), commands_in(&model.paragraphs)) {
        return Err(OrderFault::Memory);
    }
    Ok(with_orderings(alloc, model)?)
}
