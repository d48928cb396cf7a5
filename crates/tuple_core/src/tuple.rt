// A tuple of one to three atoms, seen as the list of them.
ghost use Rattle.std.specs.Prelude.{◌≡◌, ◌≤◌, ◌+◌, [], ◌∷◌, ◌++◌, length, map, reverse, Option, Some, ◌↔◌, List};
ghost use Rattle.tuple_core.specs.declared.atom.Atom.{Atom as AtomRecord};
ghost use Rattle.tuple_core.specs.Swap.{swap_atoms};
ghost use Rattle.tuple_core.specs.Operators.{JoinsTo, BeginsWith, EndsWith};

use crate::atom::Atom;
use arrayvec::ArrayVec;
use std::marker::Model;

/// One to three atoms. Tuples are ordered atom by atom.
#[derive(Drop, PartialEq, Eq, PartialOrd, Ord, Hash, Debug)]
pub struct Tuple {
    atoms: ArrayVec<Atom, 3>,
}

impl Model for Tuple {
    ghost use Rattle.std.specs.Prelude.{◌≤◌, List, length};
    ghost use Rattle.tuple_core.specs.declared.atom.Atom.{Atom};

    ghost Value = { List Atom };

    ghost view = { λ t. t.atoms.items };

    ghost invariant = { λ t. (1 ≤ length t.atoms.items) × (length t.atoms.items ≤ 3) };

    ghost inverse = { λ atoms. record { atoms = record { items = atoms } } };
}

impl Tuple {
    /// The tuple of these atoms, of which there are one to three.
    pub fn of(atoms: &[Atom]) -> Tuple
        requires some { 1 ≤ length atoms.now }
        requires few { length atoms.now ≤ 3 }
        ensures { result ≡ atoms.now }
    {
        let mut copy = ArrayVec::new();
        for atom in atoms {
            copy.push(*atom);
        }
        Tuple { atoms: copy }
    }

    /// The tuple of this atom alone.
    pub fn single(atom: Atom) -> Tuple
        ensures { result ≡ atom ∷ [] }
    {
        Tuple::of(&[atom])
    }

    /// The atoms, in order.
    pub fn atoms(&self) -> &[Atom]
        ensures value { result.now ≡ self.now }
        ensures some { 1 ≤ length self.now }
        ensures few { length self.now ≤ 3 }
    {
        self.atoms.as_slice()
    }

    /// The first atom.
    pub fn first(&self) -> Atom
        ensures { BeginsWith result self.now }
    {
        self.atoms()[0]
    }

    /// The last atom.
    pub fn last(&self) -> Atom
        ensures { EndsWith result self.now }
    {
        let atoms = self.atoms();
        atoms[atoms.len() - 1]
    }

    /// An equal tuple.
    pub fn copy(&self) -> Tuple
        ensures { result ≡ self.now }
    {
        Tuple::of(self.atoms())
    }

    /// This tuple without its last atom, and then `other` without its first, where these two atoms are equal;
    /// `None` where they are not. The two tuples have three to five atoms together.
    pub fn join(&self, other: &Tuple) -> Option<Tuple>
        requires low { 3 ≤ length self.now + length other.now }
        requires high { length self.now + length other.now ≤ 5 }
        ensures { (t : List AtomRecord) → (result ≡ Some t) ↔ JoinsTo self.now other.now t }
    {
        let left = self.atoms();
        let right = other.atoms();
        let end = left.len() - 1;
        if left[end] != right[0] {
            return None;
        }
        let mut atoms = ArrayVec::new();
        for before in &left[..end] {
            atoms.push(*before);
        }
        for after in &right[1..] {
            atoms.push(*after);
        }
        Some(Tuple { atoms })
    }

    /// This tuple and then `other`, which have at most three atoms together.
    pub fn product(&self, other: &Tuple) -> Tuple
        requires { length self.now + length other.now ≤ 3 }
        ensures { result ≡ self.now ++ other.now }
    {
        let left = self.atoms();
        let right = other.atoms();
        let mut atoms = ArrayVec::new();
        for before in left {
            atoms.push(*before);
        }
        for after in right {
            atoms.push(*after);
        }
        Tuple { atoms }
    }

    /// This pair turned round.
    pub fn transpose(&self) -> Tuple
        requires { length self.now ≡ 2 }
        ensures { (x : AtomRecord) → (y : AtomRecord) → self.now ≡ x ∷ y ∷ [] → result ≡ y ∷ x ∷ [] }
    {
        let atoms = self.atoms();
        Tuple::of(&[atoms[1], atoms[0]])
    }

    /// This tuple with `a` and `b` exchanged.
    pub fn swapped(&self, a: Atom, b: Atom) -> Tuple
        ensures { result ≡ map (swap_atoms a b) self.now }
    {
        let mut atoms = ArrayVec::new();
        for atom in self.atoms() {
            atoms.push(atom.swapped(a, b));
        }
        Tuple { atoms }
    }
}
