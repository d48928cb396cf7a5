// The relations of fields.
ghost use Rattle.std.specs.Prelude.{◌≡◌, ◌≤◌, ◌+◌, ◌^◌, ◌∷◌, [], length, MatchResult};
ghost use Rattle.tuple_core.specs.Rows.{IsSetOf};
ghost use Rattle.named_model.specs.Signatures.{top_of};
ghost use Rattle.named_model.specs.View.{field_view, named_view, phrase_view};
ghost use Rattle.model_types.specs.Bounding.{products};
ghost use Rattle.model_types.specs.Models.{bound_arity};
ghost use Rattle.lowering_rules.specs.Relations.{InProducts, MayHave, IsOutlined, field_outline};
ghost use Rattle.rel_lower.specs.Bounding.Bounds.{IsTooLarge, bound_type};
ghost use Rattle.rel_lower.specs.Bounding.Typed.{HasLists};

use crate::field_bounds::products::products_of;
use crate::field_bounds::types::field_type;
use crate::relation_bounds::names::field_name;
use lowering_rules::LowerFault;
use model_sizes::Size;
use model_types::bounding_types::Work;
use model_types::part_sorts::bounds::bound_arity;
use named_model::Named;
use named_model::named::{Field, Signature};
use rel_formula::Relation;
use std::alloc::Global;
use tuple_core::TupleSet;

/// The relation of a field, which may have what its bounding type allows, and need have nothing. The lists of its bound are as
/// long as it has columns, of which there are at most two. More tuples than `room` are too many cells. There are at most 65,536
/// sizes.
pub fn field_relation(
    alloc: Global,
    work: &mut Work,
    named: &Named,
    sizes: &[Size],
    field: &Field,
    room: usize,
) -> Result<Relation, LowerFault>
    requires few { length sizes.now ≤ 2 ^ 16 }
    requires typed { HasLists (named_view named.now).signatures (field_view field.now).bound }
    ensures { MatchResult result (λ r. IsOutlined sizes.now (field_outline (named_view named.now) (field_view field.now)) r × (length r.upper.rows ≤ room)) (IsTooLarge room (MayHave sizes.now (field_outline (named_view named.now) (field_view field.now)))) }
{
    let name = field_name(alloc, named, field)?;
    let upper = field_places(alloc, work, &named.signatures, sizes, field, room)?;
    let lower = TupleSet::new(alloc, upper.arity());
    Ok(Relation { name, lower, upper })
}

// The tuples that a field may have.
fn field_places(
    alloc: Global,
    work: &mut Work,
    signatures: &[Signature],
    sizes: &[Size],
    field: &Field,
    room: usize,
) -> Result<TupleSet, LowerFault>
    requires few { length sizes.now ≤ 2 ^ 16 }
    requires typed { HasLists signatures.now (phrase_view field.now.bound) }
    ensures { MatchResult result (λ v. IsSetOf v (bound_arity (phrase_view field.now.bound) + 1) (InProducts sizes.now (products ((top_of signatures.now field.now.owner ∷ []) ∷ []) (bound_type signatures.now (phrase_view field.now.bound)))) × (length v.rows ≤ room)) (IsTooLarge room (InProducts sizes.now (products ((top_of signatures.now field.now.owner ∷ []) ∷ []) (bound_type signatures.now (phrase_view field.now.bound))))) }
{
    let columns = bound_arity(&field.bound)?;
    let lists = field_type(alloc, work, signatures, field)?;
    products_of(alloc, sizes, lists.as_slice(), columns as u8 + 1, room)
}
