// Laws of the definitions: each is the contract of a function that does nothing.
ghost use Rattle.std.specs.Prelude.{◌≡◌, ◌↔◌, ℕ, List};
ghost use Rattle.tuple_core.specs.declared.atom.Atom.{Atom};
ghost use Rattle.rel_formula.specs.Bounds.{Bounded};
ghost use Rattle.lowering_laws.specs.Orders.{Ordering, IsOrderable, SaysOrder, IsOrdered, ReadsOff};

/// The declarations of an ordering's fields and the four formulas of its fact are true exactly where the fields are the first
/// atom and the neighbours in some list of all atoms of the signature, each once.
pub fn the_formulas_describe_orders()
    ensures { (p : Bounded) (s : List ℕ) (o : Ordering) (own : Atom) → IsOrderable p s o own → SaysOrder p s o ↔ IsOrdered p s o own }
{}

/// No two lists have the same first atom and the same neighbours, so these formulas are true of one order alone.
pub fn orders_are_one()
    ensures { (p : Bounded) (s : List ℕ) (o : Ordering) (own : Atom) → (a b : IsOrdered p s o own) → a.atoms ≡ b.atoms }
{}

/// What the names of an ordering stand for is read off the list of its atoms: the first and the last one, the neighbours, and what
/// stands behind an atom and before it.
pub fn names_are_read_off_the_list()
    ensures { (p : Bounded) (s : List ℕ) (o : Ordering) (own : Atom) → IsOrderable p s o own → (ordering : IsOrdered p s o own) → ReadsOff p s o ordering.atoms }
{}
