// What extends a signature.
ghost use Rattle.std.specs.Prelude.{◌≡◌, ◌<◌, [], ◌∷◌, map, filter, nat_lt, length, option_map, Some, if◌then◌else◌, IfOk};
ghost use Rattle.rel_formula.specs.View.{expression_tree};
ghost use Rattle.named_model.specs.Signatures.{signature_at, extends_to, extensions};
ghost use Rattle.lowering_rules.specs.Formula.{extensions_say};
ghost use Rattle.rel_lower.specs.Signatures.Said.{Says};
ghost use Rattle.rel_lower.specs.Signatures.Extending.{apart, united, union_of};

use crate::signature_formulas::relations::relation;
use alloy_syntax::tree::Manner;
use body_lowering::kernel_parts::counts::no_of;
use body_lowering::kernel_parts::expressions::{meet, union};
use named_model::named::Signature;
use rel_formula::{Comparison, Expression, Formula};
use std::alloc::{AllocError, Global};

// Whether a signature extends the one of that number.
fn extends(declared: &Signature, parent: usize) -> bool
    ensures { result ≡ extends_to parent declared.now.parent }
{
    match declared.parent {
        None => false,
        Some((Manner::In, _)) => false,
        Some((Manner::Extends, number)) => number == parent,
    }
}

/// Adds that a signature is apart from each one before it that extends the same parent.
pub fn add_apart(
    alloc: Global,
    formulas: &mut Vec<Formula>,
    signatures: &[Signature],
    signature: usize,
    parent: usize,
) -> Result<(), AllocError>
    requires { signature < length signatures.now }
    ensures { IfOk result (λ _. Says formulas.old.items formulas.new.items (map (apart signature) (filter (λ q. nat_lt q signature) (extensions signatures.now parent)))) }
{
    for earlier in 0..signature {
        add_apart_from(
            alloc,
            formulas,
            &signatures[earlier],
            earlier,
            signature,
            parent,
        )?;
    }
    Ok(())
}

// Adds that a signature is apart from an earlier one, if that extends the same parent.
fn add_apart_from(
    alloc: Global,
    formulas: &mut Vec<Formula>,
    declared: &Signature,
    earlier: usize,
    signature: usize,
    parent: usize,
) -> Result<(), AllocError>
    ensures { IfOk result (λ _. Says formulas.old.items formulas.new.items (if extends_to parent declared.now.parent then apart signature earlier ∷ [] else [])) }
{
    if extends(declared, parent) {
        let both = meet(alloc, relation(earlier)?, relation(signature)?)?;
        formulas.push(no_of(alloc, both)?)?;
    }
    Ok(())
}

/// Adds that an abstract signature has nothing beside its extensions, if it has any.
pub fn add_extensions(
    alloc: Global,
    formulas: &mut Vec<Formula>,
    signatures: &[Signature],
    signature: usize,
) -> Result<(), AllocError>
    requires { signature < length signatures.now }
    ensures { IfOk result (λ _. Says formulas.old.items formulas.new.items (if (signature_at signatures.now signature).is_abstract then extensions_say signature (extensions signatures.now signature) else [])) }
{
    if signatures[signature].is_abstract {
        add_union(alloc, formulas, signatures, signature)?;
    }
    Ok(())
}

// Adds that a signature lies in the union of its extensions, if it has any.
#[tactic(auto, using(crate::proofs::Signatures::Extended::extensions_said, crate::proofs::Signatures::Extended::nothing_said))]
fn add_union(
    alloc: Global,
    formulas: &mut Vec<Formula>,
    signatures: &[Signature],
    signature: usize,
) -> Result<(), AllocError>
    ensures { IfOk result (λ _. Says formulas.old.items formulas.new.items (extensions_say signature (extensions signatures.now signature))) }
{
    if let Some(union) = union_of_extensions(alloc, signatures, signature)? {
        formulas.push(Formula::Compared(Comparison::In, relation(signature)?, union))?;
    }
    Ok(())
}

// The union of what extends a signature, from the left; nothing, where nothing does.
fn union_of_extensions(
    alloc: Global,
    signatures: &[Signature],
    parent: usize,
) -> Result<Option<Expression>, AllocError>
    ensures { IfOk result (λ union. option_map expression_tree union ≡ union_of (extensions signatures.now parent)) }
{
    let mut union = None;
    for number in 0..signatures.len() {
        union = with_extension(alloc, union, &signatures[number], number, parent)?;
    }
    Ok(union)
}

// A union with one signature more, if that extends the parent.
fn with_extension(
    alloc: Global,
    before: Option<Expression>,
    declared: &Signature,
    number: usize,
    parent: usize,
) -> Result<Option<Expression>, AllocError>
    ensures { IfOk result (λ union. option_map expression_tree union ≡ (if extends_to parent declared.now.parent then Some (united (option_map expression_tree before) number) else option_map expression_tree before)) }
{
    if !extends(declared, parent) {
        return Ok(before);
    }
    match before {
        None => Ok(Some(relation(number)?)),
        Some(e) => Ok(Some(union(alloc, e, relation(number)?)?)),
    }
}
