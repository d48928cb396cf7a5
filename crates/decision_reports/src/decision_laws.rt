// Laws of the definitions: each is the contract of a function that does nothing.
ghost use Rattle.std.specs.Prelude.{◌≡◌, ◌≤◌, ◌↔◌, ℕ, Bool, List, [], Some, true, filter, Contains};
ghost use Rattle.named_model.specs.Model.{CommandTree, NamedTree};
ghost use Rattle.rel_formula.specs.Bounds.{Bounded, IsProblem};
ghost use Rattle.rel_formula.specs.Instance.{IsInstance};
ghost use Rattle.rel_formula.specs.Renaming.{IsSymmetric};
ghost use Rattle.rel_terms.specs.Terms.{HasTerms};
ghost use Rattle.swap_symmetry.specs.Due.{IsDue};
ghost use Rattle.lowering_rules.specs.Formula.{all_facts, is_check};
ghost use Rattle.lowering_rules.specs.Problem.{ProblemOf, command_at};
ghost use Rattle.decision_reports.specs.Decided.{HasNoInstance};
ghost use Rattle.decision_reports.specs.Assertions.{IsCounterexample};
ghost use Rattle.decision_reports.specs.FewerFacts.{IsWeaker};
ghost use Rattle.decision_reports.specs.FactSets.{IsCore, IsWitness};
ghost use Rattle.decision_reports.specs.declared.needed_facts.trials.Core.{Core};

use lowering_rules::laws::problems_are_one;
use swap_symmetry::laws::each_minimal_has_a_due_renaming;

/// A symmetric problem of which no scenario is due at the empty floor has no instance.
pub fn nothing_due_is_no_instance()
    ensures { (p : Bounded) → IsProblem p → IsSymmetric p → ((s : List ℕ) → ¬ IsDue p [] s) → HasNoInstance p }
{
    each_minimal_has_a_due_renaming();
}

/// The instances of the problem of a `check` command are its counterexamples: the scenarios in which the constraints and the
/// facts are true and what it checks is false.
pub fn instances_are_counterexamples()
    ensures { (m : NamedTree) (n : ℕ) (facts : List ℕ) (p : Bounded) (c : CommandTree) → ProblemOf m n facts p → command_at m n ≡ Some c → is_check c.kind ≡ true
        → (s : List ℕ) → IsInstance p s ↔ IsCounterexample m c facts p s }
{}

/// With some of the facts, in their order, a command has a problem too, which has each instance and no more terms.
pub fn fewer_facts_are_weaker()
    ensures { (m : NamedTree) (n : ℕ) (facts : List ℕ) (p : Bounded) → IsProblem p → ProblemOf m n facts p
        → (keep : ℕ → Bool) → (q : Bounded) × IsProblem q × ProblemOf m n (filter keep facts) q × IsWeaker p q }
{}

/// Where all facts can be true under a command, there are none among them that can't be.
pub fn satisfiable_facts_have_no_core()
    ensures { (m : NamedTree) (n : ℕ) (s : List ℕ) → IsWitness m n (all_facts m) s → (core : Core) → ¬ IsCore m n core }
{
    problems_are_one();
}
