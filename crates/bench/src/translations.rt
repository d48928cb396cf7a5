// Problems of a set of atoms and one relation over them: their terms, circuits, clauses and translations.
ghost use Rattle.std.specs.Prelude.{◌≡◌, ◌+◌, ◌*◌, ◌≤◌, ◌∷◌, [], IfOk, IfSome, length};
ghost use Rattle.rel_formula.specs.Bounds.{cells_of};
ghost use Rattle.rel_formula.specs.Renaming.{IsSymmetric};
ghost use Rattle.rel_formula.specs.Shape.{IsProper};
ghost use Rattle.rel_formula.specs.View.{formula_tree};
ghost use Rattle.rel_terms.specs.Terms.{HasTerms, IsTranslatable};

use crate::conditions::{compositions, equal_images, no_cycle, some_image};
use crate::found::{ClauseForm, Found, TranslationSize};
use crate::powers::{atoms, pairs, problem, triples};
use circuit_cnf::{MOST_SIZE, clauses_of};
use rel_formula::{Formula, Problem};
use rel_terms::terms;
use rel_translate::circuit_of;
use std::alloc::{AllocError, Global};
use translation::Translation;

/// What the measure of this name finds with so many atoms: a kind of problem, `_`, and how far it is brought. `None` where no
/// measure has the name, and where the problem has too many cells or terms.
pub fn found(alloc: Global, name: &str, count: u32) -> Result<Option<Found>, AllocError> {
    let Some((kind, step)) = name.split_once('_') else {
        return Ok(None);
    };
    let Some(problem) = problem_of(alloc, kind, count)? else {
        return Ok(None);
    };
    let Some(terms) = few_terms(alloc, &problem)? else {
        return Ok(None);
    };
    Ok(brought(alloc, problem, terms, step)?)
}

// What is found where a problem is brought so far.
fn brought(
    alloc: Global,
    problem: Problem,
    terms: u32,
    step: &str,
) -> Result<Option<Found>, AllocError>
    requires translatable { IsTranslatable problem }
    requires terms { HasTerms problem terms }
    requires symmetric { IsSymmetric problem }
{
    match step {
        "terms" => Ok(Some(Found::Terms {
            cells: problem.cells(),
            terms,
        })),
        "circuit" => {
            let nodes = circuit(alloc, &problem, terms)?;
            Ok(Some(Found::Circuit { terms, nodes }))
        }
        "clauses" => match clauses(alloc, &problem)? {
            Some(form) => Ok(Some(Found::Clauses(form))),
            None => Ok(None),
        },
        "build" => Ok(Some(Found::Translation(translation(alloc, problem, terms)?))),
        _ => Ok(None),
    }
}

// The problem of this kind.
fn problem_of(alloc: Global, kind: &str, count: u32) -> Result<Option<Problem>, AllocError>
    ensures symmetric { IfOk result (λ made. IfSome made IsSymmetric) }
    ensures tops { IfOk result (λ made. IfSome made (λ p. p.tops ≡ 0 ∷ [])) }
{
    match kind {
        "compositions" => Ok(of_pairs(alloc, count, compositions(alloc)?)?),
        "closure" => Ok(of_pairs(alloc, count, no_cycle(alloc)?)?),
        "image" => Ok(of_triples(alloc, count, some_image(alloc)?)?),
        "images" => Ok(of_triples(alloc, count, equal_images(alloc)?)?),
        _ => Ok(None),
    }
}

// The problem of a relation that may have any pairs of so many atoms.
fn of_pairs(alloc: Global, count: u32, formula: Formula) -> Result<Option<Problem>, AllocError>
    requires { IsProper (1 ∷ 2 ∷ []) 0 (formula_tree formula) }
    ensures symmetric { IfOk result (λ made. IfSome made IsSymmetric) }
    ensures tops { IfOk result (λ made. IfSome made (λ p. p.tops ≡ 0 ∷ [])) }
{
    let all = atoms(alloc, count)?;
    let tuples = pairs(alloc, &all)?;
    Ok(problem(alloc, all, tuples, formula)?)
}

// The problem of a relation that may have any triples of so many atoms.
fn of_triples(alloc: Global, count: u32, formula: Formula) -> Result<Option<Problem>, AllocError>
    requires { IsProper (1 ∷ 3 ∷ []) 0 (formula_tree formula) }
    ensures symmetric { IfOk result (λ made. IfSome made IsSymmetric) }
    ensures tops { IfOk result (λ made. IfSome made (λ p. p.tops ≡ 0 ∷ [])) }
{
    let all = atoms(alloc, count.min(16))?;
    let tuples = triples(alloc, &all)?;
    Ok(problem(alloc, all, tuples, formula)?)
}

// The number of terms of a problem with one top-level signature, where it can be translated.
fn few_terms(alloc: Global, problem: &Problem) -> Result<Option<u32>, AllocError>
    requires { problem.now.tops ≡ 0 ∷ [] }
    ensures { IfOk result (λ count. IfSome count (λ n. HasTerms problem.now n × IsTranslatable problem.now)) }
{
    if problem.atoms().rows().len() > 64 {
        return Ok(None);
    }
    let count = terms(alloc, problem)?;
    Ok(count)
}

// The number of nodes of the problem's circuit.
fn circuit(alloc: Global, problem: &Problem, terms: u32) -> Result<u32, AllocError>
    requires translatable { IsTranslatable problem.now }
    requires terms { HasTerms problem.now terms }
    ensures { IfOk result (λ nodes. nodes ≤ length (cells_of problem.now) + 2 + 16 * terms) }
{
    let made = circuit_of(alloc, problem)?;
    let nodes = made.circuit.len();
    Ok(nodes)
}

// The size of the circuit's clause form.
fn clauses(alloc: Global, problem: &Problem) -> Result<Option<ClauseForm>, AllocError>
    requires { IsTranslatable problem.now }
    ensures variables { IfOk result (λ made. IfSome made (λ form. form.variables ≤ length (cells_of problem.now) + form.nodes)) }
    ensures clauses { IfOk result (λ made. IfSome made (λ form. form.clauses ≤ 3 * form.nodes + 1)) }
{
    let made = circuit_of(alloc, problem)?;
    let nodes = made.circuit.len();
    let size = made.circuit.inputs() as u64 + nodes as u64;
    if made.node.place() >= nodes || size > MOST_SIZE as u64 {
        return Ok(None);
    }
    let formula = clauses_of(alloc, &made.circuit, made.node)?;
    Ok(Some(ClauseForm {
        nodes,
        variables: formula.vars(),
        clauses: formula.len(),
    }))
}

// The size of the problem's translation.
fn translation(alloc: Global, problem: Problem, terms: u32) -> Result<TranslationSize, AllocError>
    requires translatable { IsTranslatable problem }
    requires terms { HasTerms problem terms }
    requires symmetric { IsSymmetric problem }
    ensures variables { IfOk result (λ size. size.variables ≤ 2 * length (cells_of problem) + 2 + 16 * terms) }
    ensures clauses { IfOk result (λ size. size.clauses ≤ 3 * length (cells_of problem) + 7 + 48 * terms) }
{
    let made = Translation::build(alloc, problem)?;
    let _ = made.problem(); // for the proof
    let swaps = made.pairs().len().min(64) as u32;
    Ok(TranslationSize {
        terms,
        variables: made.cnf().vars(),
        clauses: made.cnf().len(),
        swaps,
        swap_clauses: swap_clauses(&made, swaps),
    })
}

// The number of clauses of the first so many swaps.
fn swap_clauses(made: &Translation, swaps: u32) -> u32
    requires { swaps ≤ length made.now.swaps }
{
    let mut clauses = 0_u32;
    for place in 0..swaps {
        clauses = clauses.saturating_add(made.swap(place).len());
    }
    clauses
}
