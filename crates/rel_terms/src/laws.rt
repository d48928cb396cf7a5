// Laws of the definitions: each is the contract of a function that does nothing.
ghost use Rattle.std.specs.Prelude.{◌≡◌, ℕ, List, Contains};
ghost use Rattle.tuple_core.specs.declared.atom.Atom.{Atom};
ghost use Rattle.rel_formula.specs.Kernel.{ExpressionTree};
ghost use Rattle.rel_formula.specs.Bounds.{Bounded, IsProblem};
ghost use Rattle.rel_formula.specs.Meaning.{InValue};
ghost use Rattle.rel_formula.specs.Instance.{structure_of};
ghost use Rattle.rel_terms.specs.Upper.{upper_structure};
ghost use Rattle.rel_terms.specs.Terms.{InUpperAt, HasTerms};

/// A problem has at most one number of terms.
pub fn terms_are_one()
    ensures { (p : Bounded) (n m : ℕ) → HasTerms p n → HasTerms p m → n ≡ m }
{}

/// In each scenario of a problem, the value of each expression lies in its upper value.
pub fn values_lie_in_uppers()
    ensures { (p : Bounded) → IsProblem p → (s : List ℕ) (env : List Atom) (e : ExpressionTree) (t : List Atom)
        → InValue (structure_of p (Contains s)) env e t → InUpperAt (upper_structure p) env e t }
{}
