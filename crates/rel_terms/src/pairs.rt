// Pairs of tuples that meet: the last atom of the one is the first atom of the other.
ghost use Rattle.std.specs.Prelude.{◌≡◌, ◌≤◌, ◌<◌, ◌+◌, ◌-◌, ◌↔◌, ℕ, List, All, Contains, length, IfOk};
ghost use Rattle.tuple_core.specs.declared.atom.Atom.{Atom as AtomRecord};
ghost use Rattle.tuple_core.specs.Operators.{Joined, JoinsTo, BeginsWith};
ghost use Rattle.tuple_core.specs.Gains.{SomeGives};
ghost use Rattle.tuple_core.specs.Order.{IsAscending};
ghost use Rattle.tuple_core.specs.Rows.{IsSetOf, SetGains};
ghost use Rattle.rel_formula.specs.Sizes.{HasSize};
ghost use Rattle.rel_terms.specs.Numbers.{Is, ◌⊗◌};
ghost use Rattle.rel_terms.specs.Terms.{Meeting};
ghost use Rattle.rel_terms.specs.Counting.{AddsForEach, IsPlaceOf};

use crate::tally::Tally;
use std::alloc::{AllocError, Global};
use tuple_core::{Atom, Tuple, TupleSet};

// The place in a sorted list at which the tuples begin that don't come before this one.
fn place_of(rows: &[Tuple], tuple: &Tuple) -> usize
    requires { IsAscending rows.now }
    ensures { IsPlaceOf rows.now tuple.now result }
{
    match rows.binary_search(tuple) {
        Ok(place) => place,
        Err(place) => place,
    }
}

// The tuples of a sorted list that begin with this atom.
fn starting(rows: &[Tuple], atom: Atom) -> &[Tuple]
    requires { IsAscending rows.now }
    ensures ascending { IsAscending result.now }
    ensures just { (t : List AtomRecord) → Contains result.now t ↔ (Contains rows.now t × BeginsWith atom t) }
{
    let from = place_of(rows, &Tuple::single(atom));
    let mut to = from;
    while to < rows.len() && rows[to].first() == atom {
        to += 1;
    }
    &rows[from..to]
}

// Adds so many terms for each pair of a tuple of the one set and one of the other that meet.
pub fn add_meetings(tally: &mut Tally, times: usize, left: &TupleSet, right: &TupleSet)
    ensures { AddsForEach times (Meeting (Contains left.now.rows) (Contains right.now.rows)) tally.old.terms tally.new.terms }
{
    let rights = right.rows();
    for row in left.rows() {
        if tally.is_above() {
            return;
        }
        tally.add_product(times, starting(rights, row.last()).len());
    }
}

// What the tuples of the one set join to with those of the other. Each is tried with the tuples that it meets alone.
pub fn joins(alloc: Global, left: &TupleSet, right: &TupleSet) -> Result<TupleSet, AllocError>
    requires low { 3 ≤ left.now.arity + right.now.arity }
    requires high { left.now.arity + right.now.arity ≤ 5 }
    ensures { IfOk result (λ v. IsSetOf v (left.now.arity + right.now.arity - 2) (Joined (Contains left.now.rows) (Contains right.now.rows))) }
{
    let mut out = TupleSet::new(alloc, left.arity() + right.arity() - 2);
    let rights = right.rows();
    for row in left.rows() {
        add_joins(&mut out, row, starting(rights, row.last()))?;
    }
    Ok(out)
}

// Puts in what the tuple joins to with each of `rights`.
fn add_joins(out: &mut TupleSet, left: &Tuple, rights: &[Tuple]) -> Result<(), AllocError>
    requires low { All (λ r. 3 ≤ length left.now + length r) rights.now }
    requires high { All (λ r. length left.now + length r ≤ 5) rights.now }
    requires arities { All (λ r. length left.now + length r ≡ out.old.arity + 2) rights.now }
    ensures { IfOk result (λ _. SetGains out.old out.new (SomeGives rights.now (λ r t. JoinsTo left.now r t))) }
{
    for right in rights {
        if let Some(joined) = left.join(right) {
            out.insert(joined)?;
        }
    }
    Ok(())
}
