// A set of tuples of one arity, kept and seen as the sorted list of them.
ghost use Rattle.std.specs.Prelude.{◌≡◌, ◌≤◌, ◌<◌, ◌+◌, ◌-◌, ◌++◌, [], length, slice_get, Some, All, Contains, IfOk, OnErr, IsTrue, ◌↔◌, if◌then◌else◌, false};
ghost use Rattle.tuple_core.specs.Operators.{United, Without, Met, Joined, Multiplied, Transposed, Closed, IsFirstIn, Overridden, DomainIn, RangeIn, Swapped, JoinsTo, combined, turned, arity_with, Fit};
ghost use Rattle.tuple_core.specs.Gains.{Gains, SomeGives};
ghost use Rattle.tuple_core.specs.Order.{IsAscending};
ghost use Rattle.tuple_core.specs.Rows.{IsRows, IsSetOf, SetGains};
ghost use Rattle.tuple_core.specs.Equality.{set_eq, set_eq_equiv};
ghost use Rattle.std.specs.Cmp.{partial_equiv_from_equiv};

use crate::atom::Atom;
use crate::operator::{Operator, UnaryOperator};
use crate::tuple::Tuple;
use std::alloc::{AllocError, Global};
use std::marker::Model;

/// Tuples of one arity, each once and in order.
#[derive(Drop)]
pub struct TupleSet {
    arity: u8,
    tuples: Vec<Tuple>,
}

impl Model for TupleSet {
    ghost use Rattle.tuple_core.specs.Rows.{Rows, IsRows};

    ghost Value = { Rows };

    ghost view = { λ s. record { arity = s.arity; rows = s.tuples.items } };

    ghost invariant = { λ s. IsRows (record { arity = s.arity; rows = s.tuples.items }) };
}

impl TupleSet {
    /// The empty set of this arity, which is 1 to 3.
    pub fn new(alloc: Global, arity: u8) -> TupleSet
        requires low { 1 ≤ arity }
        requires high { arity ≤ 3 }
        ensures arity { result.arity ≡ arity }
        ensures rows { result.rows ≡ [] }
    {
        TupleSet {
            arity,
            tuples: Vec::new(alloc),
        }
    }

    /// How many atoms each tuple has: 1 to 3.
    pub fn arity(&self) -> u8
        ensures value { result ≡ self.now.arity }
        ensures low { 1 ≤ result }
        ensures high { result ≤ 3 }
    {
        self.arity
    }

    /// How many tuples there are.
    pub fn len(&self) -> usize
        ensures { result ≡ length self.now.rows }
    {
        self.tuples.len()
    }

    /// Whether there is no tuple.
    pub fn is_empty(&self) -> bool
        ensures { IsTrue result ↔ (self.now.rows ≡ []) }
    {
        self.tuples.is_empty()
    }

    /// The tuple at this place in the order, from 0. The place is below `len`.
    pub fn at(&self, i: usize) -> &Tuple
        requires { i < length self.now.rows }
        ensures { slice_get self.now.rows i ≡ Some result.now }
    {
        &self.tuples[i]
    }

    /// The tuples, in order.
    pub fn rows(&self) -> &[Tuple]
        ensures value { result.now ≡ self.now.rows }
        ensures well { IsRows self.now }
    {
        self.tuples.as_slice()
    }

    /// Whether the tuple is there.
    pub fn contains(&self, tuple: &Tuple) -> bool
        ensures { IsTrue result ↔ Contains self.now.rows tuple.now }
    {
        contains_row(self.rows(), tuple)
    }

    /// Whether each tuple of this set is in the other.
    pub fn is_subset(&self, other: &TupleSet) -> bool
        ensures { IsTrue result ↔ All (Contains other.now.rows) self.now.rows }
    {
        for row in self.rows() {
            if !other.contains(row) {
                return false;
            }
        }
        true
    }

    /// Puts the tuple in, which has the set's arity, and says whether it is new.
    pub fn insert(&mut self, tuple: Tuple) -> Result<bool, AllocError>
        requires { length tuple ≡ self.old.arity }
        ensures gains { IfOk result (λ _. SetGains self.old self.new (λ t. t ≡ tuple)) }
        ensures new { IfOk result (λ is_new. IsTrue is_new ↔ (Contains self.old.rows tuple → ⊥)) }
        ensures len { IfOk result (λ is_new. length self.new.rows ≡ (if is_new then length self.old.rows + 1 else length self.old.rows)) }
        ensures same { IfOk result (λ is_new. is_new ≡ false → self.new ≡ self.old) }
        ensures err { OnErr result (self.new ≡ self.old) }
    {
        let is_new = insert_row(&mut self.tuples, tuple)?;
        Ok(is_new)
    }

    /// An equal set.
    pub fn copy(&self, alloc: Global) -> Result<TupleSet, AllocError>
        ensures { IfOk result (λ v. v ≡ self.now) }
    {
        let mut tuples = Vec::new(alloc);
        for tuple in self.rows() {
            tuples.push(tuple.copy())?;
        }
        Ok(TupleSet {
            arity: self.arity,
            tuples,
        })
    }

    /// The tuples of either set. The arities are equal.
    pub fn union(&self, alloc: Global, other: &TupleSet) -> Result<TupleSet, AllocError>
        requires { self.now.arity ≡ other.now.arity }
        ensures { IfOk result (λ v. IsSetOf v self.now.arity (United (Contains self.now.rows) (Contains other.now.rows))) }
    {
        let mut out = self.copy(alloc)?;
        out.add_all(other.rows())?;
        Ok(out)
    }

    /// The tuples of this set that the other has not. The arities are equal.
    pub fn minus(&self, alloc: Global, other: &TupleSet) -> Result<TupleSet, AllocError>
        requires { self.now.arity ≡ other.now.arity }
        ensures { IfOk result (λ v. IsSetOf v self.now.arity (Without (Contains self.now.rows) (Contains other.now.rows))) }
    {
        let mut out = TupleSet::new(alloc, self.arity());
        for row in self.rows() {
            out.insert_if(row, !other.contains(row))?;
        }
        Ok(out)
    }

    /// The tuples of both sets. The arities are equal.
    pub fn meet(&self, alloc: Global, other: &TupleSet) -> Result<TupleSet, AllocError>
        requires { self.now.arity ≡ other.now.arity }
        ensures { IfOk result (λ v. IsSetOf v self.now.arity (Met (Contains self.now.rows) (Contains other.now.rows))) }
    {
        let mut out = TupleSet::new(alloc, self.arity());
        for row in self.rows() {
            out.insert_if(row, other.contains(row))?;
        }
        Ok(out)
    }

    /// Each tuple of this set without its last atom, and then one of the other without its first, where these two
    /// atoms are equal. The sum of the arities is 3 to 5.
    pub fn join(&self, alloc: Global, other: &TupleSet) -> Result<TupleSet, AllocError>
        requires low { 3 ≤ self.now.arity + other.now.arity }
        requires high { self.now.arity + other.now.arity ≤ 5 }
        ensures { IfOk result (λ v. IsSetOf v (self.now.arity + other.now.arity - 2) (Joined (Contains self.now.rows) (Contains other.now.rows))) }
    {
        let mut out = TupleSet::new(alloc, self.arity() + other.arity() - 2);
        for left in self.rows() {
            out.add_joins(left, other.rows())?;
        }
        Ok(out)
    }

    /// Each tuple of this set followed by each of the other. The sum of the arities is at most 3.
    pub fn product(&self, alloc: Global, other: &TupleSet) -> Result<TupleSet, AllocError>
        requires { self.now.arity + other.now.arity ≤ 3 }
        ensures { IfOk result (λ v. IsSetOf v (self.now.arity + other.now.arity) (Multiplied (Contains self.now.rows) (Contains other.now.rows))) }
    {
        let mut out = TupleSet::new(alloc, self.arity() + other.arity());
        for left in self.rows() {
            out.add_products(left, other.rows())?;
        }
        Ok(out)
    }

    /// The pairs turned round. The arity is 2.
    pub fn transpose(&self, alloc: Global) -> Result<TupleSet, AllocError>
        requires { self.now.arity ≡ 2 }
        ensures { IfOk result (λ v. IsSetOf v 2 (Transposed (Contains self.now.rows))) }
    {
        let mut out = TupleSet::new(alloc, 2);
        for row in self.rows() {
            out.insert(row.transpose())?;
        }
        Ok(out)
    }

    /// The pairs with a walk of one or more pairs of this set from the first atom to the second. The arity is 2.
    pub fn closure(&self, alloc: Global) -> Result<TupleSet, AllocError>
        requires { self.now.arity ≡ 2 }
        ensures { IfOk result (λ v. IsSetOf v 2 (Closed (Contains self.now.rows))) }
    {
        let _ = self.rows(); // for the proof
        let mut walks = self.copy(alloc)?;
        loop {
            let before = walks.len();
            let longer = walks.join(alloc, self)?;
            walks.add_all(longer.rows())?;
            if walks.len() == before {
                return Ok(walks);
            }
        }
    }

    /// All of the other set, and the pairs of this one whose first atom is first in no pair of the other.
    /// Both arities are 2.
    pub fn over(&self, alloc: Global, other: &TupleSet) -> Result<TupleSet, AllocError>
        requires left { self.now.arity ≡ 2 }
        requires right { other.now.arity ≡ 2 }
        ensures { IfOk result (λ v. IsSetOf v 2 (Overridden (Contains self.now.rows) (Contains other.now.rows))) }
    {
        let mut out = other.copy(alloc)?;
        for row in self.rows() {
            out.insert_if(row, !other.has_first(row.first()))?;
        }
        Ok(out)
    }

    /// The tuples of this set whose first atom is in the unary set `atoms`.
    pub fn dom(&self, alloc: Global, atoms: &TupleSet) -> Result<TupleSet, AllocError>
        requires { atoms.now.arity ≡ 1 }
        ensures { IfOk result (λ v. IsSetOf v self.now.arity (DomainIn (Contains atoms.now.rows) (Contains self.now.rows))) }
    {
        let mut out = TupleSet::new(alloc, self.arity());
        for row in self.rows() {
            out.insert_if(row, atoms.contains(&Tuple::single(row.first())))?;
        }
        Ok(out)
    }

    /// The tuples of this set whose last atom is in the unary set `atoms`.
    pub fn ran(&self, alloc: Global, atoms: &TupleSet) -> Result<TupleSet, AllocError>
        requires { atoms.now.arity ≡ 1 }
        ensures { IfOk result (λ v. IsSetOf v self.now.arity (RangeIn (Contains self.now.rows) (Contains atoms.now.rows))) }
    {
        let mut out = TupleSet::new(alloc, self.arity());
        for row in self.rows() {
            out.insert_if(row, atoms.contains(&Tuple::single(row.last())))?;
        }
        Ok(out)
    }

    /// What the operator makes of this set and the other.
    pub fn combine(
        &self,
        alloc: Global,
        operator: Operator,
        other: &TupleSet,
    ) -> Result<TupleSet, AllocError>
        requires { Fit operator self.now.arity other.now.arity }
        ensures { IfOk result (λ v. IsSetOf v (arity_with operator self.now.arity other.now.arity) (combined operator (Contains self.now.rows) (Contains other.now.rows))) }
    {
        match operator {
            Operator::Union => Ok(self.union(alloc, other)?),
            Operator::Minus => Ok(self.minus(alloc, other)?),
            Operator::Meet => Ok(self.meet(alloc, other)?),
            Operator::Product => Ok(self.product(alloc, other)?),
            Operator::Join => Ok(self.join(alloc, other)?),
            Operator::Override => Ok(self.over(alloc, other)?),
            Operator::Dom => Ok(other.dom(alloc, self)?),
            Operator::Ran => Ok(self.ran(alloc, other)?),
        }
    }

    /// What the operator makes of this set. The arity is 2.
    pub fn turn(&self, alloc: Global, operator: UnaryOperator) -> Result<TupleSet, AllocError>
        requires { self.now.arity ≡ 2 }
        ensures { IfOk result (λ v. IsSetOf v 2 (turned operator (Contains self.now.rows))) }
    {
        match operator {
            UnaryOperator::Transpose => Ok(self.transpose(alloc)?),
            UnaryOperator::Closure => Ok(self.closure(alloc)?),
        }
    }

    /// The tuples of this set with the atoms `a` and `b` exchanged.
    pub fn swapped(&self, alloc: Global, a: Atom, b: Atom) -> Result<TupleSet, AllocError>
        ensures { IfOk result (λ v. IsSetOf v self.now.arity (Swapped a b (Contains self.now.rows))) }
    {
        let mut out = TupleSet::new(alloc, self.arity());
        for row in self.rows() {
            out.insert(row.swapped(a, b))?;
        }
        Ok(out)
    }

    /// Whether some tuple begins with this atom.
    pub fn has_first(&self, atom: Atom) -> bool
        ensures { IsTrue result ↔ IsFirstIn (Contains self.now.rows) atom }
    {
        for row in self.rows() {
            if row.first() == atom {
                return true;
            }
        }
        false
    }

    // Puts in a copy of the tuple where `keep` is true.
    fn insert_if(&mut self, row: &Tuple, keep: bool) -> Result<(), AllocError>
        requires { length row.now ≡ self.old.arity }
        ensures { IfOk result (λ _. SetGains self.old self.new (λ t. (t ≡ row.now) × IsTrue keep)) }
    {
        if keep {
            self.insert(row.copy())?;
        }
        Ok(())
    }

    // Puts in these tuples.
    fn add_all(&mut self, rows: &[Tuple]) -> Result<(), AllocError>
        requires { All (λ t. length t ≡ self.old.arity) rows.now }
        ensures gains { IfOk result (λ _. SetGains self.old self.new (SomeGives rows.now (λ x t. t ≡ x))) }
        ensures grows { IfOk result (λ _. length self.old.rows ≤ length self.new.rows) }
        ensures same { IfOk result (λ _. length self.new.rows ≡ length self.old.rows → self.new ≡ self.old) }
    {
        for row in rows {
            self.insert(row.copy())?;
        }
        Ok(())
    }

    // Puts in what `left` joins to with each of `rights`.
    fn add_joins(&mut self, left: &Tuple, rights: &[Tuple]) -> Result<(), AllocError>
        requires low { All (λ r. 3 ≤ length left.now + length r) rights.now }
        requires high { All (λ r. length left.now + length r ≤ 5) rights.now }
        requires arities { All (λ r. length left.now + length r ≡ self.old.arity + 2) rights.now }
        ensures { IfOk result (λ _. SetGains self.old self.new (SomeGives rights.now (λ r t. JoinsTo left.now r t))) }
    {
        for right in rights {
            if let Some(joined) = left.join(right) {
                self.insert(joined)?;
            }
        }
        Ok(())
    }

    // Puts in `left` followed by each of `rights`.
    fn add_products(&mut self, left: &Tuple, rights: &[Tuple]) -> Result<(), AllocError>
        requires high { All (λ r. length left.now + length r ≤ 3) rights.now }
        requires arities { All (λ r. length left.now + length r ≡ self.old.arity) rights.now }
        ensures { IfOk result (λ _. SetGains self.old self.new (SomeGives rights.now (λ r t. t ≡ left.now ++ r))) }
    {
        for right in rights {
            self.insert(left.product(right))?;
        }
        Ok(())
    }
}

impl PartialEq for TupleSet {
    ghost eq = { set_eq };

    ghost laws = { partial_equiv_from_equiv set_eq_equiv };

    fn eq(&self, other: &TupleSet) -> bool {
        self.arity() == other.arity() && self.rows() == other.rows()
    }
}

impl Eq for TupleSet {
    ghost laws = { set_eq_equiv };
}

// Whether the tuple stands in the sorted list.
fn contains_row(rows: &[Tuple], tuple: &Tuple) -> bool
    requires { IsAscending rows.now }
    ensures { IsTrue result ↔ Contains rows.now tuple.now }
{
    rows.binary_search(tuple).is_ok()
}

// Puts the tuple in its place in the sorted list, and says whether it is new.
fn insert_row(rows: &mut Vec<Tuple>, tuple: Tuple) -> Result<bool, AllocError>
    requires { IsAscending rows.old.items }
    ensures ascending { IfOk result (λ _. IsAscending rows.new.items) }
    ensures gains { IfOk result (λ _. Gains (Contains rows.old.items) (Contains rows.new.items) (λ t. t ≡ tuple)) }
    ensures new { IfOk result (λ is_new. IsTrue is_new ↔ (Contains rows.old.items tuple → ⊥)) }
    ensures len { IfOk result (λ is_new. length rows.new.items ≡ (if is_new then length rows.old.items + 1 else length rows.old.items)) }
    ensures same { IfOk result (λ is_new. is_new ≡ false → rows.new.items ≡ rows.old.items) }
    ensures err { OnErr result (rows.new.items ≡ rows.old.items) }
{
    match rows.binary_search(&tuple) {
        Ok(_) => Ok(false),
        Err(i) => {
            rows.insert(i, tuple)?;
            Ok(true)
        }
    }
}
