// The tuples of products of places.
ghost use Rattle.std.specs.Prelude.{◌≡◌, ◌≤◌, ◌^◌, length, All, Contains, IfOk, MatchResult};
ghost use Rattle.tuple_core.specs.Operators.{United};
ghost use Rattle.tuple_core.specs.Rows.{IsSetOf, SetGains};
ghost use Rattle.lowering_rules.specs.Relations.{InProduct, InProducts};
ghost use Rattle.model_types.specs.Bounds.Same.{lists_of};
ghost use Rattle.rel_lower.specs.Bounding.Bounds.{IsTooLarge};

use crate::relation_bounds::places::places_of;
use lowering_rules::LowerFault;
use model_sizes::Size;
use std::alloc::{AllocError, Global};
use tuple_core::{Tuple, TupleSet};

/// The tuples of the places of one signature of a list after the other, for each of the lists, which are all as long as the
/// arity, 1 to 3. More tuples than `room` are too many cells. There are at most 65,536 sizes.
pub fn products_of(
    alloc: Global,
    sizes: &[Size],
    lists: &[Vec<usize>],
    arity: u8,
    room: usize,
) -> Result<TupleSet, LowerFault>
    requires few { length sizes.now ≤ 2 ^ 16 }
    requires low { 1 ≤ arity }
    requires high { arity ≤ 3 }
    requires long { All (λ l. length l ≡ arity) (lists_of lists.now) }
    ensures { MatchResult result (λ v. IsSetOf v arity (InProducts sizes.now (lists_of lists.now)) × (length v.rows ≤ room)) (IsTooLarge room (InProducts sizes.now (lists_of lists.now))) }
{
    let mut tuples = TupleSet::new(alloc, arity);
    for list in lists {
        add_product(alloc, &mut tuples, sizes, list, room)?;
    }
    Ok(tuples)
}

// Adds the tuples of the places of one signature after the other to a set of at most `room` tuples. More tuples than `room`
// are too many cells.
fn add_product(
    alloc: Global,
    set: &mut TupleSet,
    sizes: &[Size],
    tops: &[usize],
    room: usize,
) -> Result<(), LowerFault>
    requires few { length sizes.now ≤ 2 ^ 16 }
    requires low { 1 ≤ length tops.now }
    requires high { length tops.now ≤ 3 }
    requires arity { set.old.arity ≡ length tops.now }
    ensures { MatchResult result (λ _. SetGains set.old set.new (InProduct sizes.now tops.now) × (length set.new.rows ≤ room)) (IsTooLarge room (United (Contains set.old.rows) (InProduct sizes.now tops.now))) }
{
    let product = product_of(alloc, sizes, tops)?;
    if product.rows().len() > room {
        return Err(LowerFault::TooManyCells);
    }
    add_rows(set, product.rows())?;
    if set.rows().len() > room {
        return Err(LowerFault::TooManyCells);
    }
    Ok(())
}

// Adds these tuples.
fn add_rows(set: &mut TupleSet, rows: &[Tuple]) -> Result<(), AllocError>
    requires { All (λ t. length t ≡ set.old.arity) rows.now }
    ensures { IfOk result (λ _. SetGains set.old set.new (Contains rows.now)) }
{
    for row in rows {
        set.insert(row.copy())?;
    }
    Ok(())
}

// The tuples of the places of one signature after the other. The signatures are one to three.
fn product_of(alloc: Global, sizes: &[Size], tops: &[usize]) -> Result<TupleSet, AllocError>
    requires few { length sizes.now ≤ 2 ^ 16 }
    requires low { 1 ≤ length tops.now }
    requires high { length tops.now ≤ 3 }
    ensures { IfOk result (λ v. IsSetOf v (length tops.now) (InProduct sizes.now tops.now)) }
{
    let mut tuples = places_of(alloc, sizes, tops[0])?;
    for top in &tops[1..] {
        let places = places_of(alloc, sizes, *top)?;
        tuples = tuples.product(alloc, &places)?;
    }
    Ok(tuples)
}
