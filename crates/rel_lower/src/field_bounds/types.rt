// The bounding types of bounds.
ghost use Rattle.std.specs.Prelude.{◌≡◌, ◌∷◌, [], map, IfOk};
ghost use Rattle.named_model.specs.Phrase.{links_of};
ghost use Rattle.named_model.specs.Signatures.{top_of};
ghost use Rattle.named_model.specs.View.{link_view, phrase_view};
ghost use Rattle.model_types.specs.Bounding.{Lists, products};
ghost use Rattle.model_types.specs.Bounds.Same.{AreSame};
ghost use Rattle.rel_lower.specs.Bounding.Bounds.{bound_type, links_type_in};

use crate::relation_bounds::places::top_of;
use alloy_syntax::tree::Operator;
use model_types::bounding_types::operators::operator_type;
use model_types::bounding_types::{BoundingType, Work};
use named_model::named::{Field, Signature};
use named_model::phrase::{Link, Phrase, Referent};
use std::alloc::{AllocError, Global};

/// The lists of top-level signatures that the tuples of a field may have: its own, and then those of its bound. A phrase that
/// is no bound of a field is want of memory.
pub fn field_type(
    alloc: Global,
    work: &mut Work,
    signatures: &[Signature],
    field: &Field,
) -> Result<BoundingType, AllocError>
    ensures { IfOk result (λ t. AreSame t (products ((top_of signatures.now field.now.owner ∷ []) ∷ []) (bound_type signatures.now (phrase_view field.now.bound)))) }
{
    let owner = over(alloc, signatures, field.owner)?;
    let bound = bound_type(alloc, work, signatures, &field.bound)?;
    Ok(operator_type(alloc, work, Operator::Product, owner, &bound)?)
}

/// The lists of top-level signatures that the tuples of a bound may have. A phrase that is no bound of a field is want of
/// memory.
#[cycle(bound)]
pub fn bound_type(
    alloc: Global,
    work: &mut Work,
    signatures: &[Signature],
    bound: &Phrase,
) -> Result<BoundingType, AllocError>
    ensures { IfOk result (λ t. AreSame t (bound_type signatures.now (phrase_view bound.now))) }
{
    match bound {
        Phrase::Refers(_, Referent::Signature(signature)) => { over(alloc, signatures, *signature) }
        Phrase::Bracketed(_, inner) => bound_type(alloc, work, signatures, inner),
        Phrase::Chain(first, links) => {
            let start = bound_type(alloc, work, signatures, first)?;
            Ok(with_links(alloc, work, signatures, start, links)?)
        }
        _ => Err(AllocError),
    }
}

// What the operators that follow make of lists, whatever lists stand for them.
#[cycle(bound)]
fn with_links(
    alloc: Global,
    work: &mut Work,
    signatures: &[Signature],
    start: BoundingType,
    links: &[Link],
) -> Result<BoundingType, AllocError>
    ensures { IfOk result (λ t. (x : Lists) → AreSame start x → AreSame t (links_type_in signatures.now x (links_of (map link_view links.now)))) }
{
    let mut lists = start;
    for link in links {
        let operand = bound_type(alloc, work, signatures, &link.operand)?;
        lists = operator_type(alloc, work, link.operator, lists, &operand)?;
    }
    Ok(lists)
}

// The top-level signature over the one of this number, alone in a list.
fn over(
    alloc: Global,
    signatures: &[Signature],
    signature: usize,
) -> Result<BoundingType, AllocError>
    ensures { IfOk result (λ t. AreSame t ((top_of signatures.now signature ∷ []) ∷ [])) }
{
    let mut lists = BoundingType::new(alloc);
    lists.put(Vec::from_slice(alloc, &[top_of(signatures, signature)])?)?;
    Ok(lists)
}
