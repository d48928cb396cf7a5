// Closures of pairs.
ghost use Rattle.std.specs.Prelude.{◌≡◌, [], ◌∷◌, IfOk};
ghost use Rattle.model_types.specs.Bounding.{through, joins, starting_in, ending_in};
ghost use Rattle.model_types.specs.Bounds.Same.{AreSame};

use crate::bounding_types::kept::BoundingType;
use crate::bounding_types::products::{ending_in, joins, put_all, singles, starting_in};
use crate::bounding_types::work::Work;
use std::alloc::{AllocError, Global};

// The pairs between which one can go by pairs of these, by way of these signatures alone.
pub fn through(
    alloc: Global,
    work: &mut Work,
    tops: &[usize],
    pairs: BoundingType,
) -> Result<BoundingType, AllocError>
    ensures { IfOk result (λ t. AreSame t (through tops.now pairs)) }
{
    let mut all = pairs;
    for top in tops {
        let more = by_way_of(alloc, work, *top, &all)?;
        put_all(alloc, work, &mut all, more.as_slice())?;
    }
    Ok(all)
}

// The pairs that end with a signature joined with those that start with it.
fn by_way_of(
    alloc: Global,
    work: &mut Work,
    top: usize,
    pairs: &BoundingType,
) -> Result<BoundingType, AllocError>
    ensures { IfOk result (λ t. AreSame t (joins (ending_in pairs.now ((top ∷ []) ∷ [])) (starting_in ((top ∷ []) ∷ []) pairs.now))) }
{
    let way = singles(alloc, work, &[top])?;
    let before = ending_in(alloc, work, pairs, &way)?;
    let behind = starting_in(alloc, work, &way, pairs)?;
    joins(alloc, work, &before, &behind)
}
