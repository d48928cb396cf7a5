// What each operator adds to the number of terms, and the upper value that it gives. Above the limit an upper value says
// nothing but its arity.
ghost use Rattle.std.specs.Prelude.{◌≡◌, ◌≤◌, ◌<◌, ◌+◌, ◌-◌, ◌^◌, ◌∷◌, [], ℕ, List, Contains, IfOk};
ghost use Rattle.tuple_core.specs.declared.atom.Atom.{Atom as AtomRecord};
ghost use Rattle.tuple_core.specs.Operators.{United, Met, Multiplied, Joined, Transposed, Closed, DomainIn, RangeIn, turned, may_combine, arity_with, Fit};
ghost use Rattle.rel_formula.specs.Sizes.{HasSize};
ghost use Rattle.rel_terms.specs.Numbers.{Is, ◌⊕◌, ◌⊗◌};
ghost use Rattle.rel_terms.specs.Terms.{Meeting, own_terms, turn_terms};
ghost use Rattle.rel_terms.specs.Counting.{IsCounted};

use crate::pairs::{add_meetings, joins};
use crate::tally::Tally;
use std::alloc::{AllocError, Global};
use tuple_core::{Atom, Operator, Tuple, TupleSet, UnaryOperator};

// A set that is there.
pub fn whole(alloc: Global, tally: &mut Tally, set: &TupleSet) -> Result<TupleSet, AllocError>
    ensures { IfOk result (λ v. IsCounted v set.now.arity (Contains set.now.rows) (HasSize (Contains set.now.rows)) tally.old.terms tally.new.terms) }
{
    tally.add_size(set);
    if tally.is_above() {
        return Ok(TupleSet::new(alloc, set.arity()));
    }
    set.copy(alloc)
}

// The set of this atom alone.
pub fn single(alloc: Global, tally: &mut Tally, atom: Atom) -> Result<TupleSet, AllocError>
    ensures { IfOk result (λ v. IsCounted v 1 (λ t. t ≡ atom ∷ []) (HasSize (λ t. t ≡ atom ∷ [])) tally.old.terms tally.new.terms) }
{
    let mut set = TupleSet::new(alloc, 1);
    set.insert(Tuple::single(atom))?;
    tally.add_size(&set);
    Ok(set)
}

// Each atom of the universe beside itself.
pub fn identity(
    alloc: Global,
    tally: &mut Tally,
    universe: &TupleSet,
) -> Result<TupleSet, AllocError>
    requires { universe.now.arity ≡ 1 }
    ensures { IfOk result (λ v. IsCounted v 2 (λ t. (a : AtomRecord) × Contains universe.now.rows (a ∷ []) × (t ≡ a ∷ a ∷ [])) (HasSize (λ t. (a : AtomRecord) × Contains universe.now.rows (a ∷ []) × (t ≡ a ∷ a ∷ []))) tally.old.terms tally.new.terms) }
{
    let mut pairs = TupleSet::new(alloc, 2);
    if tally.is_above() {
        return Ok(pairs);
    }
    for row in universe.rows() {
        let atom = row.first();
        pairs.insert(Tuple::of(&[atom, atom]))?;
    }
    tally.add_size(&pairs);
    Ok(pairs)
}

// The tuples of either set.
fn united(
    alloc: Global,
    tally: &mut Tally,
    left: &TupleSet,
    right: &TupleSet,
) -> Result<TupleSet, AllocError>
    requires { left.now.arity ≡ right.now.arity }
    ensures { IfOk result (λ v. IsCounted v left.now.arity (United (Contains left.now.rows) (Contains right.now.rows)) (HasSize (Contains left.now.rows) ⊕ HasSize (Contains right.now.rows)) tally.old.terms tally.new.terms) }
{
    tally.add_size(left);
    tally.add_size(right);
    let both = left.union(alloc, right)?;
    Ok(both)
}

// The tuples of the one set, of which the other takes none away for sure.
fn lessened(tally: &mut Tally, left: TupleSet, right: &TupleSet) -> TupleSet
    ensures { IsCounted result left.arity (Contains left.rows) (HasSize (Contains left.rows) ⊕ HasSize (Contains right.now.rows)) tally.old.terms tally.new.terms }
{
    tally.add_size(&left);
    tally.add_size(right);
    left
}

// The tuples of both sets.
fn met(
    alloc: Global,
    tally: &mut Tally,
    left: &TupleSet,
    right: &TupleSet,
) -> Result<TupleSet, AllocError>
    requires { left.now.arity ≡ right.now.arity }
    ensures { IfOk result (λ v. IsCounted v left.now.arity (Met (Contains left.now.rows) (Contains right.now.rows)) (HasSize (Contains left.now.rows) ⊕ HasSize (Contains right.now.rows)) tally.old.terms tally.new.terms) }
{
    tally.add_size(left);
    tally.add_size(right);
    let both = left.meet(alloc, right)?;
    Ok(both)
}

// The pairs of either set: each of the other counts twice.
fn overridden(
    alloc: Global,
    tally: &mut Tally,
    left: &TupleSet,
    right: &TupleSet,
) -> Result<TupleSet, AllocError>
    requires left { left.now.arity ≡ 2 }
    requires right { right.now.arity ≡ 2 }
    ensures { IfOk result (λ v. IsCounted v 2 (United (Contains left.now.rows) (Contains right.now.rows)) (HasSize (Contains left.now.rows) ⊕ Is 2 ⊗ HasSize (Contains right.now.rows)) tally.old.terms tally.new.terms) }
{
    tally.add_size(left);
    tally.add_product(2, right.rows().len());
    let both = left.union(alloc, right)?;
    Ok(both)
}

// Each tuple of the one set followed by each of the other.
fn multiplied(
    alloc: Global,
    tally: &mut Tally,
    left: &TupleSet,
    right: &TupleSet,
) -> Result<TupleSet, AllocError>
    requires { left.now.arity + right.now.arity ≤ 3 }
    ensures { IfOk result (λ v. IsCounted v (left.now.arity + right.now.arity) (Multiplied (Contains left.now.rows) (Contains right.now.rows)) (HasSize (Contains left.now.rows) ⊗ HasSize (Contains right.now.rows)) tally.old.terms tally.new.terms) }
{
    tally.add_product(left.rows().len(), right.rows().len());
    if tally.is_above() {
        return Ok(TupleSet::new(alloc, left.arity() + right.arity()));
    }
    let tuples = left.product(alloc, right)?;
    Ok(tuples)
}

// What the tuples of the one set join to with those of the other: each pair that meets counts.
fn joined(
    alloc: Global,
    tally: &mut Tally,
    left: &TupleSet,
    right: &TupleSet,
) -> Result<TupleSet, AllocError>
    requires low { 3 ≤ left.now.arity + right.now.arity }
    requires high { left.now.arity + right.now.arity ≤ 5 }
    ensures { IfOk result (λ v. IsCounted v (left.now.arity + right.now.arity - 2) (Joined (Contains left.now.rows) (Contains right.now.rows)) (HasSize (Meeting (Contains left.now.rows) (Contains right.now.rows))) tally.old.terms tally.new.terms) }
{
    add_meetings(tally, 1, left, right);
    if tally.is_above() {
        return Ok(TupleSet::new(alloc, left.arity() + right.arity() - 2));
    }
    let tuples = joins(alloc, left, right)?;
    Ok(tuples)
}

// The pairs turned round.
fn transposed(alloc: Global, tally: &mut Tally, pairs: &TupleSet) -> Result<TupleSet, AllocError>
    requires { pairs.now.arity ≡ 2 }
    ensures { IfOk result (λ v. IsCounted v 2 (Transposed (Contains pairs.now.rows)) (HasSize (Contains pairs.now.rows)) tally.old.terms tally.new.terms) }
{
    tally.add_size(pairs);
    pairs.transpose(alloc)
}

// The pairs with a walk from the first atom to the second: each pair of two of these that meet counts six times. The
// walks grow step by step, and no further once they count too much.
fn closed(alloc: Global, tally: &mut Tally, pairs: &TupleSet) -> Result<TupleSet, AllocError>
    requires { pairs.now.arity ≡ 2 }
    ensures { IfOk result (λ v. IsCounted v 2 (Closed (Contains pairs.now.rows)) (Is 6 ⊗ HasSize (Meeting (Closed (Contains pairs.now.rows)) (Closed (Contains pairs.now.rows)))) tally.old.terms tally.new.terms) }
{
    let _ = pairs.rows(); // for the proof
    let before = tally.terms;
    let mut walks = pairs.copy(alloc)?;
    loop {
        tally.terms = before;
        add_meetings(tally, 6, &walks, &walks);
        if tally.is_above() {
            return Ok(walks);
        }
        let longer = joins(alloc, &walks, pairs)?;
        let more = walks.union(alloc, &longer)?;
        if more.rows().len() == walks.rows().len() {
            return Ok(walks);
        }
        walks = more;
    }
}

// The tuples whose first atom is in the unary set `atoms`.
fn domain_in(
    alloc: Global,
    tally: &mut Tally,
    atoms: &TupleSet,
    tuples: &TupleSet,
) -> Result<TupleSet, AllocError>
    requires { atoms.now.arity ≡ 1 }
    ensures { IfOk result (λ v. IsCounted v tuples.now.arity (DomainIn (Contains atoms.now.rows) (Contains tuples.now.rows)) (HasSize (Contains tuples.now.rows)) tally.old.terms tally.new.terms) }
{
    tally.add_size(tuples);
    tuples.dom(alloc, atoms)
}

// The tuples whose last atom is in the unary set `atoms`.
fn range_in(
    alloc: Global,
    tally: &mut Tally,
    tuples: &TupleSet,
    atoms: &TupleSet,
) -> Result<TupleSet, AllocError>
    requires { atoms.now.arity ≡ 1 }
    ensures { IfOk result (λ v. IsCounted v tuples.now.arity (RangeIn (Contains tuples.now.rows) (Contains atoms.now.rows)) (HasSize (Contains tuples.now.rows)) tally.old.terms tally.new.terms) }
{
    tally.add_size(tuples);
    tuples.ran(alloc, atoms)
}

// What the operator may make of two sets.
pub fn combined(
    alloc: Global,
    tally: &mut Tally,
    operator: Operator,
    left: TupleSet,
    right: &TupleSet,
) -> Result<TupleSet, AllocError>
    requires { Fit operator left.arity right.now.arity }
    ensures { IfOk result (λ v. IsCounted v (arity_with operator left.arity right.now.arity) (may_combine operator (Contains left.rows) (Contains right.now.rows)) (own_terms operator (Contains left.rows) (Contains right.now.rows)) tally.old.terms tally.new.terms) }
{
    match operator {
        Operator::Union => Ok(united(alloc, tally, &left, right)?),
        Operator::Minus => Ok(lessened(tally, left, right)),
        Operator::Meet => Ok(met(alloc, tally, &left, right)?),
        Operator::Product => Ok(multiplied(alloc, tally, &left, right)?),
        Operator::Join => Ok(joined(alloc, tally, &left, right)?),
        Operator::Override => Ok(overridden(alloc, tally, &left, right)?),
        Operator::Dom => Ok(domain_in(alloc, tally, &left, right)?),
        Operator::Ran => Ok(range_in(alloc, tally, &left, right)?),
    }
}

// What the operator makes of a set of pairs.
pub fn turned_pairs(
    alloc: Global,
    tally: &mut Tally,
    operator: UnaryOperator,
    pairs: &TupleSet,
) -> Result<TupleSet, AllocError>
    requires { pairs.now.arity ≡ 2 }
    ensures { IfOk result (λ v. IsCounted v 2 (turned operator (Contains pairs.now.rows)) (turn_terms operator (Contains pairs.now.rows)) tally.old.terms tally.new.terms) }
{
    match operator {
        UnaryOperator::Transpose => Ok(transposed(alloc, tally, pairs)?),
        UnaryOperator::Closure => Ok(closed(alloc, tally, pairs)?),
    }
}
