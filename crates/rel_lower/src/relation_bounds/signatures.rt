// The relations of signatures.
ghost use Rattle.std.specs.Prelude.{◌≡◌, ◌≤◌, ◌<◌, ◌^◌, ◌&&◌, is_none, length, map, IfOk, IsTrue, Contains};
ghost use Rattle.std.specs.List.{AllZip, range_with_len};
ghost use Rattle.tuple_core.specs.Rows.{IsSetOf};
ghost use Rattle.named_model.specs.View.{named_view};
ghost use Rattle.lowering_rules.specs.Relations.{IsOutlined, is_exact, signature_outline};

use crate::relation_bounds::places::{places_of, top_of};
use model_sizes::Size;
use named_model::Named;
use named_model::named::Signature;
use rel_formula::Relation;
use std::alloc::{AllocError, Global};
use tuple_core::{Name, TupleSet};

/// A relation for each signature, which may have all places of its top-level signature; it has them where it is top-level and
/// exact. There are at most 65,536 sizes.
pub fn signature_relations(
    alloc: Global,
    named: &Named,
    sizes: &[Size],
) -> Result<Vec<Relation>, AllocError>
    requires { length sizes.now ≤ 2 ^ 16 }
    ensures { IfOk result (λ relations. AllZip (IsOutlined sizes.now) (map (signature_outline (named_view named.now) sizes.now) (range_with_len 0 (length named.now.signatures.items))) relations.items) }
{
    let mut relations = Vec::new(alloc);
    for signature in 0..named.signatures.len() {
        relations.push(signature_relation(alloc, named, sizes, signature)?)?;
    }
    Ok(relations)
}

/// The relation of the signature of that number.
pub(crate) fn signature_relation(
    alloc: Global,
    named: &Named,
    sizes: &[Size],
    signature: usize,
) -> Result<Relation, AllocError>
    requires few { length sizes.now ≤ 2 ^ 16 }
    requires there { signature < length named.now.signatures.items }
    ensures { IfOk result (λ relation. IsOutlined sizes.now (signature_outline (named_view named.now) sizes.now signature) relation) }
{
    let declared = &named.signatures[signature];
    let fixed = is_fixed(declared, sizes, signature);
    let upper = places_of(alloc, sizes, top_of(&named.signatures, signature))?;
    Ok(Relation {
        name: Name::of(alloc, declared.name.text())?,
        lower: all_or_none(alloc, &upper, fixed)?,
        upper,
    })
}

// Whether the signature is top-level and exact.
fn is_fixed(declared: &Signature, sizes: &[Size], signature: usize) -> bool
    ensures { result ≡ (is_none declared.now.parent && is_exact sizes.now signature) }
{
    declared.parent.is_none() && is_exact(sizes, signature)
}

/// Whether each place of the top-level signature is an atom of it.
pub fn is_exact(sizes: &[Size], signature: usize) -> bool
    ensures { result ≡ is_exact sizes.now signature }
{
    sizes
        .iter()
        .any(|size| size.signature == signature && size.exact)
}

// All tuples of the set, or none.
fn all_or_none(alloc: Global, set: &TupleSet, all: bool) -> Result<TupleSet, AllocError>
    ensures { IfOk result (λ v. IsSetOf v set.now.arity (λ t. IsTrue all × Contains set.now.rows t)) }
{
    if all {
        set.copy(alloc)
    } else {
        Ok(TupleSet::new(alloc, set.arity()))
    }
}
