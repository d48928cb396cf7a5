// Laws of the definitions: each is the contract of a function that does nothing.
ghost use Rattle.std.specs.Prelude.{◌≡◌, ◌↔◌, ℕ, List, [], AllPairs, Contains};
ghost use Rattle.rel_formula.specs.Bounds.{Bounded, IsProblem};
ghost use Rattle.rel_formula.specs.Instance.{IsMinimalAbove};
ghost use Rattle.rel_formula.specs.Renaming.{IsRenamingOf, IsSymmetric};
ghost use Rattle.swap_symmetry.specs.Due.{IsDue};
ghost use Rattle.renaming_classes.specs.Least.{IsLeast, IsLeastRenamingOf};
ghost use Rattle.renaming_classes.specs.Classes.{AreClasses, AreMinimalUpToRenaming};

/// Scenarios that are renamings of each other are a class.
pub fn renamings_are_a_class()
    ensures itself { (p : Bounded) (s : List ℕ) → IsRenamingOf p s s }
    ensures back { (p : Bounded) (s t : List ℕ) → IsRenamingOf p s t → IsRenamingOf p t s }
    ensures onward { (p : Bounded) (s t u : List ℕ) → IsRenamingOf p s t → IsRenamingOf p t u → IsRenamingOf p s u }
{}

/// Renamings of each other have one least renaming.
pub fn class_has_one_least()
    ensures { (p : Bounded) (s t first second : List ℕ) → IsRenamingOf p s t → IsLeastRenamingOf p s first → IsLeastRenamingOf p t second → first ≡ second }
{}

/// What is due at the empty floor are minimal instances, and up to renaming all of them.
pub fn due_are_minimal_up_to_renaming()
    ensures { (p : Bounded) → IsProblem p → IsSymmetric p → (all : List (List ℕ)) → ((s : List ℕ) → Contains all s ↔ IsDue p [] s) → AreMinimalUpToRenaming p all }
{}

/// The classes of a list that has all minimal instances up to renaming: they are the minimal instances that are the least of
/// their renamings, and no two of them are renamings of each other.
pub fn classes_are_of_all_minimal()
    ensures exactly { (p : Bounded) → IsProblem p → IsSymmetric p → (all found : List (List ℕ)) → AreMinimalUpToRenaming p all → AreClasses p all found
        → (t : List ℕ) → Contains found t ↔ (IsMinimalAbove p [] t × IsLeast p t) }
    ensures apart { (p : Bounded) (all found : List (List ℕ)) → AreClasses p all found → AllPairs (λ t u. ¬ IsRenamingOf p t u) found }
{}
