// Laws of the definitions: each is the contract of a function that does nothing.
ghost use Rattle.std.specs.Prelude.{◌≢◌, ◌↔◌, ◌⊎◌, ℕ, List, []};
ghost use Rattle.tuple_core.specs.declared.atom.Atom.{Atom};
ghost use Rattle.tuple_core.specs.Swap.{swap_atoms};
ghost use Rattle.rel_formula.specs.Bounds.{Bounded, IsProblem};
ghost use Rattle.rel_formula.specs.Instance.{IsScenario, IsMinimalAbove};
ghost use Rattle.rel_formula.specs.Renaming.{IsImage, IsSymmetric};
ghost use Rattle.swap_symmetry.specs.Order.{IsEarlier};
ghost use Rattle.swap_symmetry.specs.Swaps.{AreNeighbours, IsSettled, IsSettledBeside};
ghost use Rattle.swap_symmetry.specs.Due.{HasDueRenaming, HasDueRenamingBeside};

/// Of two different scenarios exactly one is earlier.
pub fn one_is_earlier()
    ensures total { (p : Bounded) (s t : List ℕ) → IsScenario p s → IsScenario p t → s ≢ t → IsEarlier s t ⊎ IsEarlier t s }
    ensures asymmetric { (s t : List ℕ) → IsEarlier s t → IsEarlier t s → ⊥ }
    ensures irreflexive { (s : List ℕ) → IsEarlier s s → ⊥ }
{}

/// A scenario that is earlier than an earlier one is earlier.
pub fn earlier_goes_on()
    ensures { (r s t : List ℕ) → IsEarlier r s → IsEarlier s t → IsEarlier r t }
{}

/// A scenario of a symmetric problem is settled exactly where no image of it under a swap of neighbours is earlier.
pub fn settled_is_by_images()
    ensures { (p : Bounded) → IsProblem p → IsSymmetric p → (s : List ℕ) → IsScenario p s
        → IsSettled p s ↔ ((a b : Atom) → AreNeighbours p a b → (t : List ℕ) → IsScenario p t → IsImage p (swap_atoms a b) s t → IsEarlier t s → ⊥) }
{}

/// Settled is settled beside the empty floor.
pub fn settled_is_beside_nothing()
    ensures { (p : Bounded) (s : List ℕ) → IsSettled p s ↔ IsSettledBeside p [] s }
{}

/// Each minimal scenario of a symmetric problem is a renaming of one that is due at the empty floor.
pub fn each_minimal_has_a_due_renaming()
    ensures { (p : Bounded) → IsProblem p → IsSymmetric p → (s : List ℕ) → IsMinimalAbove p [] s → HasDueRenaming p s }
{}

/// Each minimal scenario above a floor is a renaming, one that keeps the floor's atoms, of one that is due there.
pub fn each_minimal_has_a_due_renaming_beside()
    ensures { (p : Bounded) → IsProblem p → IsSymmetric p → (floor : List ℕ) → IsScenario p floor → (s : List ℕ) → IsMinimalAbove p floor s
        → HasDueRenamingBeside p floor s }
{}
