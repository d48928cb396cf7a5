// What a session proposes.
ghost use Rattle.std.specs.Prelude.{◌≢◌, ◌<◌, ℕ, List, length};
ghost use Rattle.refutation_check.specs.declared.log.Step.{Step as LogStep};
ghost use Rattle.refutation_check.specs.SearchLog.{HasVarsOf};
ghost use Rattle.rel_formula.specs.Bounds.{cells_of};
ghost use Rattle.rel_terms.specs.Terms.{HasTerms};
ghost use Rattle.session_words.specs.declared.steps.Step.{Step as StepType};
ghost use Rattle.session_rules.specs.declared.answers.Reply.TheVariants.{Refused};
ghost use Rattle.session_rules.specs.declared.answers.Refusal.TheVariants.{Spent};
ghost use Rattle.session_rules.specs.declared.answers.WorkDone.{WorkDone};
ghost use Rattle.session_rules.specs.States.{State};
ghost use Rattle.session_rules.specs.Steps.{IsReached};
ghost use Rattle.session_state.specs.Sessions.Proposed.{IsProposal};
ghost use Rattle.work_limits.specs.Units.{most_units};
ghost use Rattle.work_limits.specs.Variables.{all_clauses, most_variables};

use crate::kept::{parts_are_logs, translations_are_formulas};
use crate::laws::enough_for_the_problem_is_never_spent;
use session_state::session_search::Proposal;
use translation::Translation;

/// Whatever a session with a greater budget proposes over the translation, it isn't to refuse the step for a spent budget.
pub fn enough_is_not_proposed_as_spent(translation: &Translation, proposal: &Proposal)
    ensures { (terms : ℕ) → HasTerms translation.now.problem terms → (pool : List LogStep) → HasVarsOf (all_clauses translation.now) pool
        → (s : State) → IsReached translation.now.problem s → (step : StepType)
        → most_units step (length (cells_of translation.now.problem)) (most_variables (length (cells_of translation.now.problem)) terms (length translation.now.swaps)) < s.budget
        → IsProposal translation.now pool s step proposal.now → (done : WorkDone) → proposal.now.reply ≢ Refused (Spent done) }
{
    enough_for_the_problem_is_never_spent();
    translations_are_formulas(translation);
    parts_are_logs(proposal.parts());
}
