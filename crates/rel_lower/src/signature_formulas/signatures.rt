// What is said of signatures.
ghost use Rattle.std.specs.Prelude.{◌<◌, length, flat_map, Some, IfOk};
ghost use Rattle.std.specs.List.{range_with_len};
ghost use Rattle.named_model.specs.Signatures.{signature_at};
ghost use Rattle.lowering_rules.specs.Formula.{parent_says, signature_says};
ghost use Rattle.lowering_rules.specs.Parts.{marked};
ghost use Rattle.rel_formula.specs.Kernel.{rel};
ghost use Rattle.rel_lower.specs.Signatures.Said.{Says};

use crate::signature_formulas::extensions::{add_apart, add_extensions};
use crate::signature_formulas::listings::add_listing;
use crate::signature_formulas::relations::relation;
use alloy_syntax::tree::{Manner, MultiplicityWord};
use body_lowering::kernel_parts::counts::marked;
use named_model::named::{Listing, Signature};
use rel_formula::{Comparison, Formula};
use std::alloc::{AllocError, Global};

/// Adds what is said of the signatures, in order of declaration: each lies in its parent and apart from what extends that one
/// before it, an abstract one has nothing beside its extensions, and then come its word and the size that is listed for it. With
/// more than 256 signatures it may answer want of memory.
pub fn add_signatures(
    alloc: Global,
    formulas: &mut Vec<Formula>,
    signatures: &[Signature],
    listings: &[Listing],
) -> Result<(), AllocError>
    ensures { IfOk result (λ _. Says formulas.old.items formulas.new.items (flat_map (signature_says signatures.now listings.now) (range_with_len 0 (length signatures.now)))) }
{
    for signature in 0..signatures.len() {
        add_signature(alloc, formulas, signatures, listings, signature)?;
    }
    Ok(())
}

fn add_signature(
    alloc: Global,
    formulas: &mut Vec<Formula>,
    signatures: &[Signature],
    listings: &[Listing],
    signature: usize,
) -> Result<(), AllocError>
    requires { signature < length signatures.now }
    ensures { IfOk result (λ _. Says formulas.old.items formulas.new.items (signature_says signatures.now listings.now signature)) }
{
    let declared = &signatures[signature];
    add_parent(alloc, formulas, signatures, signature)?;
    add_extensions(alloc, formulas, signatures, signature)?;
    add_word(alloc, formulas, declared.mark, signature)?;
    Ok(add_listing(alloc, formulas, declared, listings, signature)?)
}

// Adds that a signature lies in its parent, if it has one, and apart from what extends that one before it.
fn add_parent(
    alloc: Global,
    formulas: &mut Vec<Formula>,
    signatures: &[Signature],
    signature: usize,
) -> Result<(), AllocError>
    requires { signature < length signatures.now }
    ensures { IfOk result (λ _. Says formulas.old.items formulas.new.items (parent_says signatures.now signature (signature_at signatures.now signature).parent)) }
{
    match signatures[signature].parent {
        None => Ok(()),
        Some((manner, parent)) => add_within(
            alloc, formulas, signatures, signature, manner, parent,
        ),
    }
}

#[tactic(auto, using(crate::proofs::Signatures::FormulaLists::says_then))]
fn add_within(
    alloc: Global,
    formulas: &mut Vec<Formula>,
    signatures: &[Signature],
    signature: usize,
    manner: Manner,
    parent: usize,
) -> Result<(), AllocError>
    requires { signature < length signatures.now }
    ensures { IfOk result (λ _. Says formulas.old.items formulas.new.items (parent_says signatures.now signature (Some (manner, parent)))) }
{
    let says = Formula::Compared(Comparison::In, relation(signature)?, relation(parent)?);
    formulas.push(says)?;
    match manner {
        Manner::In => Ok(()),
        Manner::Extends => Ok(add_apart(alloc, formulas, signatures, signature, parent)?),
    }
}

// Adds what the word before a signature says.
fn add_word(
    alloc: Global,
    formulas: &mut Vec<Formula>,
    mark: Option<MultiplicityWord>,
    signature: usize,
) -> Result<(), AllocError>
    ensures { IfOk result (λ _. Says formulas.old.items formulas.new.items (marked mark (rel signature))) }
{
    if let Some(formula) = marked(alloc, mark, relation(signature)?)? {
        formulas.push(formula)?;
    }
    Ok(())
}
