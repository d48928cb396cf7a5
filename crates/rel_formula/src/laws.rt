// Laws of the definitions: each is the contract of a function that does nothing.
ghost use Rattle.std.specs.Prelude.{◌≡◌, ◌↔◌, ◌⊎◌, ◌<◌, ℕ, List, map, length, slice_get, Some, AllPairs, Contains};
ghost use Rattle.tuple_core.specs.declared.atom.Atom.{Atom};
ghost use Rattle.rel_formula.specs.Kernel.{ExpressionTree, FormulaTree};
ghost use Rattle.rel_formula.specs.Bounds.{Bounded, IsProblem, relation_at, cell_of, cells_of};
ghost use Rattle.rel_formula.specs.Meaning.{InValue, Truth};
ghost use Rattle.rel_formula.specs.Instance.{IsScenario, IsInstance, IsMinimalAbove, structure_of, with_cell};
ghost use Rattle.rel_formula.specs.Renaming.{IsRenaming, KeepsBounds, IsImage};

/// A renaming that keeps a problem's bounds renames the value of every expression.
pub fn renaming_keeps_values()
    ensures { (p : Bounded) (f g : Atom → Atom) → IsProblem p → IsRenaming p f g → KeepsBounds p f
        → (s t : List ℕ) → IsImage p f s t
        → (env : List Atom) (e : ExpressionTree) (row : List Atom)
        → InValue (structure_of p (Contains s)) env e row ↔ InValue (structure_of p (Contains t)) (map f env) e (map f row) }
{}

/// A renaming that keeps a problem's bounds keeps the truth of every formula.
pub fn renaming_keeps_truth()
    ensures { (p : Bounded) (f g : Atom → Atom) → IsProblem p → IsRenaming p f g → KeepsBounds p f
        → (s t : List ℕ) → IsImage p f s t
        → (env : List Atom) (formula : FormulaTree)
        → Truth (structure_of p (Contains s)) env formula ↔ Truth (structure_of p (Contains t)) (map f env) formula }
{}

/// The image of an instance under a renaming that keeps the problem's bounds is an instance.
pub fn renaming_keeps_instances()
    ensures { (p : Bounded) (f g : Atom → Atom) → IsProblem p → IsRenaming p f g → KeepsBounds p f
        → (s t : List ℕ) → IsScenario p t → IsImage p f s t → IsInstance p s → IsInstance p t }
{}

/// The image of a minimal scenario above a floor is minimal above the floor's image.
pub fn renaming_keeps_minimal()
    ensures { (p : Bounded) (f g : Atom → Atom) → IsProblem p → IsRenaming p f g → KeepsBounds p f
        → (s t floor image : List ℕ) → IsScenario p t → IsScenario p floor → IsScenario p image → IsImage p f s t → IsImage p f floor image
        → IsMinimalAbove p floor s → IsMinimalAbove p image t }
{}

/// Each scenario has an image under a renaming that keeps the problem's bounds.
pub fn renaming_has_images()
    ensures { (p : Bounded) (f g : Atom → Atom) → IsRenaming p f g → KeepsBounds p f
        → (s : List ℕ) → IsScenario p s → (t : List ℕ) × IsScenario p t × IsImage p f s t }
{}

/// Each cell of a problem stands at exactly one number: each open tuple of a relation at some, and none at two.
pub fn cells_are_numbered()
    ensures some { (p : Bounded) → IsProblem p → (r : ℕ) (t : List Atom) → r < length p.relations
        → Contains (relation_at p.relations r).upper.rows t → (Contains (relation_at p.relations r).lower.rows t → ⊥)
        → (n : ℕ) × (slice_get (cells_of p) n ≡ Some (cell_of r t)) }
    ensures only { (p : Bounded) → IsProblem p → (n r : ℕ) (t : List Atom) → slice_get (cells_of p) n ≡ Some (cell_of r t)
        → (r < length p.relations) × Contains (relation_at p.relations r).upper.rows t × (Contains (relation_at p.relations r).lower.rows t → ⊥) }
    ensures once { (p : Bounded) → IsProblem p → (n m r : ℕ) (t : List Atom) → slice_get (cells_of p) n ≡ Some (cell_of r t)
        → slice_get (cells_of p) m ≡ Some (cell_of r t) → n ≡ m }
{}

/// A scenario with one cell more has its own cells and that one, in rising order.
pub fn with_cell_adds_one()
    ensures cells { (n : ℕ) (s : List ℕ) (m : ℕ) → Contains (with_cell n s) m ↔ (Contains s m ⊎ (m ≡ n)) }
    ensures rising { (n : ℕ) (s : List ℕ) → AllPairs (λ k m. k < m) s → AllPairs (λ k m. k < m) (with_cell n s) }
{}
