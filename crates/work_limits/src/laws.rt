// Laws of the definitions: each is the contract of a function that does nothing.
ghost use Rattle.std.specs.Prelude.{◌≡◌, ◌≤◌, ◌<◌, ◌+◌, ◌*◌, ℕ, List, [], length, All};
ghost use Rattle.refutation_check.specs.declared.log.Step.{Step as LogStep};
ghost use Rattle.refutation_check.specs.Part.{Parted};
ghost use Rattle.cnf_core.specs.Formula.{IsFormula};
ghost use Rattle.refutation_check.specs.SearchLog.{HasVarsOf};
ghost use Rattle.rel_formula.specs.Bounds.{IsProblem, cells_of};
ghost use Rattle.rel_formula.specs.Instance.{IsScenario};
ghost use Rattle.renaming_classes.specs.Counts.{IsNumberOfRenamings};
ghost use Rattle.rel_terms.specs.Terms.{HasTerms};
ghost use Rattle.translation_rules.specs.Translation.{Translated};
ghost use Rattle.translation_rules.specs.Parts.{AreSearched, novel_in};
ghost use Rattle.translation.specs.Kept.{IsTranslation};
ghost use Rattle.session_words.specs.declared.steps.Step.{Step as StepType};
ghost use Rattle.session_rules.specs.declared.answers.Reply.TheVariants.{Refused};
ghost use Rattle.session_rules.specs.declared.answers.Refusal.TheVariants.{Spent};
ghost use Rattle.session_rules.specs.declared.answers.WorkDone.{WorkDone as WorkDoneType};
ghost use Rattle.session_rules.specs.States.{State, shown_here};
ghost use Rattle.session_rules.specs.Steps.{IsReached, MayAnswer};
ghost use Rattle.session_rules.specs.Sound.{IsSound};
ghost use Rattle.session_rules.specs.Work.{IsRound, IsWork, Round, parts_of_round, units_in};
ghost use Rattle.session_rules.specs.Evidence.{HasEvidence};
ghost use Rattle.work_limits.specs.Units.{AreLogs, most_in_round, most_units};
ghost use Rattle.work_limits.specs.Variables.{AreOverFirst, all_clauses, most_variables};

use renaming_classes::laws::renamings_are_a_class;
use session_rules::laws::{a_run_is_sound, rounds_find_new_copies};
use session_words::Step;

/// Whatever work is done for a step, it has few units.
pub fn work_has_few_units()
    ensures { (v : ℕ) (t : Translated) (pool : List LogStep) → AreOverFirst v t pool → (s : State) → IsSound t.problem s
        → (step : StepType) (parts : List Parted) (copies : List (List ℕ)) → IsWork t pool s step parts copies → AreLogs parts
        → units_in t pool parts copies ≤ most_units step (length (cells_of t.problem)) v }
{
    rounds_find_new_copies();
}

/// So a step with a greater budget isn't answered by a spent one.
pub fn enough_is_never_spent()
    ensures few { (v : ℕ) (t : Translated) (pool : List LogStep) → AreOverFirst v t pool → (s : State) → IsSound t.problem s
        → (step : StepType) (done : WorkDoneType) → HasEvidence t pool s step (Refused (Spent done)) → AreLogs done.parts
        → done.budget ≤ most_units step (length (cells_of t.problem)) v }
    ensures never { (v : ℕ) (t : Translated) (pool : List LogStep) → AreOverFirst v t pool → (s : State) → IsSound t.problem s
        → (step : StepType) → most_units step (length (cells_of t.problem)) v < s.budget
        → (done : WorkDoneType) → MayAnswer t.problem s step (Refused (Spent done)) → HasEvidence t pool s step (Refused (Spent done)) → AreLogs done.parts → ⊥ }
{
    work_has_few_units();
}

/// Where nothing was shown at the floor yet, there is nothing to be a copy of, and the search for the next scenario is one round.
pub fn first_scenarios_take_one_round()
    ensures { (v : ℕ) (t : Translated) (pool : List LogStep) → AreOverFirst v t pool → (s : State) → IsSound t.problem s → shown_here s ≡ []
        → (parts : List Parted) (copies : List (List ℕ)) → IsWork t pool s Step.Next parts copies → AreLogs parts
        → (copies ≡ []) × (units_in t pool parts copies ≤ most_in_round (length (cells_of t.problem)) v) }
{
    rounds_find_new_copies();
}

/// Each copy takes one more round.
pub fn each_copy_takes_a_round()
    ensures { (v : ℕ) (t : Translated) (pool : List LogStep) → AreOverFirst v t pool → (s : State) → IsSound t.problem s
        → (parts : List Parted) (copies : List (List ℕ)) → IsWork t pool s Step.Next parts copies → AreLogs parts
        → units_in t pool parts copies ≤ most_in_round (length (cells_of t.problem)) v + length copies * (most_in_round (length (cells_of t.problem)) v + 1) }
{
    rounds_find_new_copies();
}

/// Copies are renamings of what was shown: of each scenario that was shown there are at most as many, itself among them, as the
/// problem has renamings.
pub fn copies_are_renamings_of_what_was_shown()
    ensures { (t : Translated) (pool : List LogStep) (s : State) → IsSound t.problem s → IsProblem t.problem
        → (renamings : ℕ) → IsNumberOfRenamings t.problem renamings → (parts : List Parted) (copies : List (List ℕ)) → IsWork t pool s Step.Next parts copies
        → length (shown_here s) + length copies ≤ length (shown_here s) * renamings }
{
    rounds_find_new_copies();
    renamings_are_a_class();
}

/// A round has few novel steps, whichever scenarios are blocked.
pub fn a_round_has_few_steps()
    ensures { (v : ℕ) (t : Translated) (pool : List LogStep) → AreOverFirst v t pool → (floor : List ℕ) → IsScenario t.problem floor
        → (blocked : List (List ℕ)) → All (IsScenario t.problem) blocked → (round : Round) → IsRound t floor blocked round
        → AreSearched t pool (parts_of_round round) → AreLogs (parts_of_round round)
        → novel_in t pool (parts_of_round round) ≤ most_in_round (length (cells_of t.problem)) v }
{}

/// A translation has few variables, and so has a pool over its clauses and those of its swaps.
pub fn translations_have_few_variables()
    ensures { (t : Translated) → IsTranslation t → IsFormula t.cnf → (terms : ℕ) → HasTerms t.problem terms
        → (pool : List LogStep) → HasVarsOf (all_clauses t) pool
        → AreOverFirst (most_variables (length (cells_of t.problem)) terms (length t.swaps)) t pool }
{}

/// So over a translation, and in a state that a run from the start reaches, a step isn't answered by a spent budget that is
/// greater than a number of the problem's cells and terms, and of the swaps.
pub fn enough_for_the_problem_is_never_spent()
    ensures { (t : Translated) → IsTranslation t → IsFormula t.cnf → (terms : ℕ) → HasTerms t.problem terms
        → (pool : List LogStep) → HasVarsOf (all_clauses t) pool → (s : State) → IsReached t.problem s
        → (step : StepType) → most_units step (length (cells_of t.problem)) (most_variables (length (cells_of t.problem)) terms (length t.swaps)) < s.budget
        → (done : WorkDoneType) → MayAnswer t.problem s step (Refused (Spent done)) → HasEvidence t pool s step (Refused (Spent done)) → AreLogs done.parts → ⊥ }
{
    enough_is_never_spent();
    translations_have_few_variables();
    a_run_is_sound();
}
