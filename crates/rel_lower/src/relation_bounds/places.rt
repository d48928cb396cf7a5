// The places of top-level signatures.
ghost use Rattle.std.specs.Prelude.{◌≡◌, ◌≤◌, ◌^◌, ◌∷◌, [], length, IfOk};
ghost use Rattle.tuple_core.specs.Rows.{IsSetOf, SetGains};
ghost use Rattle.named_model.specs.Signatures.{top_of};
ghost use Rattle.lowering_rules.specs.Relations.{InProduct};
ghost use Rattle.rel_lower.specs.Placing.Places.{parent_or_self, IsPlaceIn};

use model_sizes::Size;
use named_model::named::Signature;
use std::alloc::{AllocError, Global};
use tuple_core::{Atom, Tuple, TupleSet};

/// The number of the top-level signature over the one of this number, which is itself where it has no parent.
pub fn top_of(signatures: &[Signature], signature: usize) -> usize
    ensures { result ≡ top_of signatures.now signature }
{
    let mut top = signature;
    for _step in 0..signatures.len() {
        top = parent_or_self(signatures, top);
    }
    top
}

// The number of the parent, or of the signature itself where it has none.
fn parent_or_self(signatures: &[Signature], signature: usize) -> usize
    ensures { result ≡ parent_or_self signatures.now signature }
{
    match signatures.get(signature) {
        None => signature,
        Some(declared) => match declared.parent {
            None => signature,
            Some((_, parent)) => parent,
        },
    }
}

/// The places of a top-level signature, each as a tuple of one atom. There are at most 65,536 sizes.
pub fn places_of(alloc: Global, sizes: &[Size], signature: usize) -> Result<TupleSet, AllocError>
    requires { length sizes.now ≤ 2 ^ 16 }
    ensures { IfOk result (λ places. IsSetOf places 1 (InProduct sizes.now (signature ∷ []))) }
{
    let mut places = TupleSet::new(alloc, 1);
    for (top, size) in sizes.iter().enumerate() {
        add_places(&mut places, top as u16, *size, signature)?;
    }
    Ok(places)
}

// Adds the places of the size at `top`, if it is that of the signature.
fn add_places(
    places: &mut TupleSet,
    top: u16,
    size: Size,
    signature: usize,
) -> Result<(), AllocError>
    requires { places.old.arity ≡ 1 }
    ensures { IfOk result (λ _. SetGains places.old places.new (IsPlaceIn top size signature)) }
{
    if size.signature != signature {
        return Ok(());
    }
    for place in 0..size.places {
        places.insert(Tuple::single(Atom { top, place }))?;
    }
    Ok(())
}
