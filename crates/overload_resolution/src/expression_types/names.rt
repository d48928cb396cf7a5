// The types of names.
ghost use Rattle.std.specs.Prelude.{◌≡◌, ℕ, [], ◌∷◌, List, reverse, slice_index_or, IfOk, IfSome};
ghost use Rattle.model_types.specs.Bounding.{Lists, Types, referent_type};
ghost use Rattle.model_types.specs.Bounds.Same.{AreSame};
ghost use Rattle.overload_resolution.specs.Expressions.Types.{AreEachSame, StandFor};

use crate::expression_types::known::Known;
use alloy_syntax::tree::Operator;
use model_types::bounding_types::operators::operator_type;
use model_types::bounding_types::{BoundingType, Work};
use model_types::part_sorts::tables::entry;
use named_model::phrase::Referent;
use std::alloc::{AllocError, Global};

// The type of what a name stands for.
pub fn referent_type(
    alloc: Global,
    work: &mut Work,
    known: &Known,
    locals: &[BoundingType],
    referent: Referent,
) -> Result<BoundingType, AllocError>
    ensures { IfOk result (λ found. (calls : ℕ) (t : Types) (ls : List Lists) → StandFor known.now calls t → AreEachSame (reverse locals.now) ls → AreSame found (referent_type t ls referent)) }
{
    match referent {
        Referent::Signature(number) => Ok(single(alloc, entry(&known.over, number))?),
        Referent::Field(number) => Ok(copy_at(alloc, work, &known.fields, number)?),
        Referent::Shared(_) => Ok(BoundingType::new(alloc)),
        Referent::Local(number) => Ok(local_type(alloc, work, locals, number)?),
    }
}

// A signature alone.
fn single(alloc: Global, top: usize) -> Result<BoundingType, AllocError>
    ensures { IfOk result (λ found. AreSame found ((top ∷ []) ∷ [])) }
{
    let mut all = BoundingType::new(alloc);
    all.put(Vec::from_slice(alloc, &[top])?)?;
    Ok(all)
}

// A copy of the type of a number; no lists, where there is none.
fn copy_at(
    alloc: Global,
    work: &mut Work,
    types: &[BoundingType],
    number: usize,
) -> Result<BoundingType, AllocError>
    ensures { IfOk result (λ found. AreSame found (slice_index_or types.now number [])) }
{
    let none = BoundingType::new(alloc);
    if number >= types.len() {
        return Ok(none);
    }
    let copy = operator_type(alloc, work, Operator::Union, none, &types[number])?;
    Ok(copy)
}

// A copy of the type of a call, where it is kept; it has no arguments then.
pub fn kept_type(
    alloc: Global,
    work: &mut Work,
    known: &Known,
    calls: usize,
    number: usize,
    arguments: &[BoundingType],
) -> Result<Option<BoundingType>, AllocError>
    ensures { IfOk result (λ kept. IfSome kept (λ found. (t : Types) (ys : List Lists) → StandFor known.now calls t → AreEachSame arguments.now ys → AreSame found (t.calls number ys))) }
{
    if !arguments.is_empty() {
        return Ok(None);
    }
    match known.kept(number, calls) {
        Some(lists) => {
            let none = BoundingType::new(alloc);
            let copy = operator_type(alloc, work, Operator::Union, none, lists)?;
            Ok(Some(copy))
        }
        None => Ok(None),
    }
}

// A copy of the type of a local, counted from the last one.
fn local_type(
    alloc: Global,
    work: &mut Work,
    locals: &[BoundingType],
    number: usize,
) -> Result<BoundingType, AllocError>
    ensures { IfOk result (λ found. AreSame found (slice_index_or (reverse locals.now) number [])) }
{
    if number >= locals.len() {
        return Ok(BoundingType::new(alloc));
    }
    copy_at(alloc, work, locals, locals.len() - 1 - number)
}
