// A law of the definitions: the contract of a function that does nothing.
ghost use Rattle.std.specs.Prelude.{◌≢◌, ◌≤◌, ℕ, List, length, All, AllPairs};
ghost use Rattle.tuple_core.specs.Rows.{IsRows};
ghost use Rattle.rel_formula.specs.declared.problem.Relation.{Relation};
ghost use Rattle.rel_formula.specs.Bounds.{Bounded, IsProblem, cells_of, most_cells};
ghost use Rattle.named_model.specs.Model.{NamedTree};
ghost use Rattle.lowering_rules.specs.Problem.{ProblemOf};
ghost use Rattle.rel_lower.specs.Lowered.{IsTyped};

use lowering_rules::laws::{
    formulas_are_proper, models_without_faults_are_typed, problems_are_formed,
};

/// The problem of a model with types is as every problem is, where its sets are in order, its names differ, and its relations and
/// its cells are few.
pub fn typed_problems_are_formed()
    ensures { (m : NamedTree) → IsTyped m → (n : ℕ) (facts : List ℕ) (p : Bounded) → ProblemOf m n facts p
        → All (λ (r : Relation). IsRows r.lower × IsRows r.upper) p.relations → AllPairs (λ (r s : Relation). r.name ≢ s.name) p.relations
        → length p.relations ≤ 128 → length (cells_of p) ≤ most_cells → IsProblem p }
{
    models_without_faults_are_typed();
    formulas_are_proper();
    problems_are_formed();
}
