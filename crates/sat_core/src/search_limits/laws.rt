// Laws of the definitions: each is the contract of a function that does nothing.
ghost use Rattle.std.specs.Prelude.{◌<◌, ◌≤◌, ◌^◌, ℕ, List, length};
ghost use Rattle.cnf_core.specs.declared.literal.Lit.{Lit};
ghost use Rattle.refutation_check.specs.declared.log.Step.{Step};
ghost use Rattle.refutation_check.specs.Log.{IsLog};
ghost use Rattle.refutation_check.specs.SearchLog.{HasNoEmpty, IsAllNovel};
ghost use Rattle.sat_core.specs.declared.search.Answer.TheVariants.{Spent};
ghost use Rattle.sat_core.specs.Answers.{IsRight};
ghost use Rattle.sat_core.specs.Limits.Over.{AreOver};

/// Novel steps over so many variables, none of them empty, are fewer than three to the power of that number: each variable
/// occurs in a clause with one sign, with the other, or not at all, and no two of the clauses are the same.
pub fn novel_clauses_are_few()
    ensures { (vars : ℕ) (given : List (List Lit)) (log : List Step) → IsLog log → AreOver vars log → IsAllNovel given log → HasNoEmpty log → length log < 3 ^ vars }
{}

/// A budget of at least three to the power of the number of variables is never spent.
pub fn enough_budget_is_never_spent()
    ensures { (vars first : ℕ) (clauses : List (List Lit)) (pool log : List Step) (budget : ℕ) → IsLog log → AreOver vars log → 3 ^ vars ≤ budget → ¬ IsRight first clauses pool budget (Spent log) }
{}
