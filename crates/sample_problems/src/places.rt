// Atoms of the first signature, by their places.
ghost use Rattle.std.specs.Prelude.{◌≡◌, ◌<◌, All, IfOk};

use std::alloc::{AllocError, Global};
use tuple_core::{Atom, Tuple, TupleSet};

/// The atom at this place of the first signature.
pub fn at(place: u16) -> Atom
    ensures { result.top ≡ 0 }
{
    Atom { top: 0, place }
}

/// The set of the atoms at these places.
pub fn atoms(alloc: Global, places: &[u16]) -> Result<TupleSet, AllocError>
    ensures arity { IfOk result (λ s. s.arity ≡ 1) }
    ensures tops { IfOk result (λ s. All (All (λ a. a.top < 1)) s.rows) }
    ensures first { IfOk result (λ s. All (All (λ a. a.top ≡ 0)) s.rows) }
{
    let mut set = TupleSet::new(alloc, 1);
    for place in places {
        set.insert(Tuple::single(at(*place)))?;
    }
    Ok(set)
}

/// All pairs of the atoms at these places.
pub fn pairs(alloc: Global, places: &[u16]) -> Result<TupleSet, AllocError>
    ensures arity { IfOk result (λ s. s.arity ≡ 2) }
    ensures tops { IfOk result (λ s. All (All (λ a. a.top < 1)) s.rows) }
{
    let set = atoms(alloc, places)?;
    let all = set.product(alloc, &set)?;
    Ok(all)
}
