// Laws of the definitions: each is the contract of a function that does nothing.
ghost use Rattle.std.specs.Prelude.{ℕ, Bool, List, ◌↔◌, ◌++◌, All, Contains, IsTrue};
ghost use Rattle.tuple_core.specs.declared.atom.Atom.{Atom};
ghost use Rattle.rel_formula.specs.Bounds.{Bounded};
ghost use Rattle.rel_formula.specs.Instance.{AreCells, IsScenario, IsInstance, IsMinimalAbove, Includes};
ghost use Rattle.refutation_check.specs.Chain.{IsRefutation};
ghost use Rattle.refutation_check.specs.declared.log.Step.{Step as LogStep};
ghost use Rattle.swap_symmetry.specs.Swaps.{IsFreeOf, IsSettledBeside, NoSwapIsEarlier};
ghost use Rattle.translation_rules.specs.Free.{IsPicked, is_free_of};
ghost use Rattle.translation_rules.specs.Translation.{Translated, StandsFor, IsSatisfiableAt, clauses_of_swaps};
ghost use Rattle.translation_rules.specs.Locals.{IsLeft, locals_of, units_of};
ghost use Rattle.translation_rules.specs.Descents.{IsSmaller, descent_locals};
ghost use Rattle.translation_rules.specs.Offers.{IsPossible};

use refutation_check::accepted_is_entailed;

/// Whether a swap is free of a floor is what the test says; so settled beside a floor is settled for the swaps that it picks.
pub fn free_swaps_are_tested()
    ensures test { (p : Bounded) (floor : List ℕ) (a b : Atom) → IsTrue (is_free_of p floor a b) ↔ IsFreeOf p floor a b }
    ensures settled { (p : Bounded) (floor s : List ℕ) → IsSettledBeside p floor s ↔ NoSwapIsEarlier p (IsPicked p (is_free_of p floor)) (Contains s) }
{}

/// An instance that the picked swaps make no earlier can satisfy the clauses of the problem and those of the swaps at once.
pub fn an_instance_can_satisfy_both()
    ensures { (p : Bounded) (t : Translated) → StandsFor p t → (picks : Atom → Atom → Bool) (s : List ℕ) → IsInstance p s
        → NoSwapIsEarlier p (IsPicked p picks) (Contains s) → IsSatisfiableAt p s (t.cnf.clauses ++ clauses_of_swaps picks t.swaps) }
{}

/// The clauses of a translation with the local ones of a floor say just what is left to be found there.
pub fn local_clauses_say_what_is_left()
    ensures { (p : Bounded) (t : Translated) → StandsFor p t → (floor : List ℕ) (blocked : List (List ℕ)) → AreCells p floor → All (AreCells p) blocked
        → (s : List ℕ) → IsScenario p s → IsLeft p floor blocked s ↔ IsSatisfiableAt p s (t.cnf.clauses ++ locals_of t floor blocked) }
{
    an_instance_can_satisfy_both();
    free_swaps_are_tested();
}

/// The clauses of a translation with the units of some cells say that an instance has the cells.
pub fn units_say_what_is_possible()
    ensures { (p : Bounded) (t : Translated) → StandsFor p t → (cells : List ℕ) → AreCells p cells
        → (s : List ℕ) → IsScenario p s → (IsInstance p s × Includes s cells) ↔ IsSatisfiableAt p s (t.cnf.clauses ++ units_of cells) }
{}

/// The clauses of a translation with those of a descent say that an instance above the floor is a proper part of the scenario.
pub fn descent_clauses_say_what_is_smaller()
    ensures { (p : Bounded) (t : Translated) → StandsFor p t → (floor scenario : List ℕ) → AreCells p floor → AreCells p scenario
        → (s : List ℕ) → IsScenario p s → IsSmaller p floor scenario s ↔ IsSatisfiableAt p s (t.cnf.clauses ++ descent_locals p floor scenario) }
{}

/// A refutation of a descent's clauses shows that the instance from which it sets out is minimal above the floor.
pub fn a_refuted_descent_is_minimal()
    ensures { (p : Bounded) (t : Translated) → StandsFor p t → (floor scenario : List ℕ) → IsInstance p scenario → Includes scenario floor
        → (steps : List LogStep) → IsRefutation (t.cnf.clauses ++ descent_locals p floor scenario) steps → IsMinimalAbove p floor scenario }
{
    accepted_is_entailed();
    descent_clauses_say_what_is_smaller();
}

/// A refutation of the units of cells shows that no instance has them all.
pub fn refuted_units_are_impossible()
    ensures { (p : Bounded) (t : Translated) → StandsFor p t → (cells : List ℕ) (steps : List LogStep) → IsRefutation (t.cnf.clauses ++ units_of cells) steps → ¬ IsPossible p cells }
{
    accepted_is_entailed();
    units_say_what_is_possible();
}
