// How many steps of a descent are novel.
ghost use Rattle.std.specs.Prelude.{◌≡◌, ◌≢◌, ◌↔◌, ◌≤◌, ◌+◌, ◌++◌, [], List, All, Contains, IsTrue};
ghost use Rattle.cnf_core.specs.declared.literal.Lit.{Lit};
ghost use Rattle.refutation_check.specs.declared.log.Step.{Step as LogStep};
ghost use Rattle.refutation_check.specs.Chain.{members_of};
ghost use Rattle.refutation_check.specs.SearchLog.{HasNoEmpty, IsNovelButLast, novel_steps};
ghost use Rattle.translation_rules.specs.Translation.{Translated};
ghost use Rattle.translation_rules.specs.Parts.{AreSearched, novel_in};

use refutation_check::{Part, Step};

/// What is left of a budget after the novel steps of these parts of a search, which are no more than the budget. No clause of
/// the problem and no imported step is empty.
pub(crate) fn left_after(parts: &[Part], budget: u64) -> u64
    ensures { (t : Translated) (pool : List LogStep) → All (λ c. c ≢ []) t.cnf.clauses → HasNoEmpty pool → AreSearched t pool parts.now
        → novel_in t pool parts.now ≤ budget → novel_in t pool parts.now + result ≡ budget }
{
    let mut left = budget;
    for part in parts {
        left = left.saturating_sub(novel_steps_of(part));
    }
    left
}

// The number of novel steps of a part. The step that ends it isn't novel where a clause of its own or an earlier step is empty.
fn novel_steps_of(part: &Part) -> u64
    ensures { (clauses : List (List Lit)) (pool : List LogStep) → All (λ c. c ≢ []) clauses → HasNoEmpty pool
        → IsNovelButLast (members_of (clauses ++ part.now.local) pool) part.now.log → result ≡ novel_steps (members_of (clauses ++ part.now.local) pool) part.now.log }
{
    let steps = part.log().steps();
    match steps.split_last() {
        None => 0,
        Some((last, before)) => {
            if is_known(part, before, last) {
                before.len() as u64
            } else {
                steps.len() as u64
            }
        }
    }
}

// Whether a step is empty, and so is one of the local clauses of its part or of the steps before.
fn is_known(part: &Part, before: &[Step], step: &Step) -> bool
    ensures { IsTrue result ↔ ((step.now.clause ≡ []) × Contains (members_of part.now.local before.now) []) }
{
    step.clause.lits().is_empty() && has_empty(part, before)
}

// Whether one of the local clauses of a part, or of these steps, is empty.
fn has_empty(part: &Part, steps: &[Step]) -> bool
    ensures { IsTrue result ↔ Contains (members_of part.now.local steps.now) [] }
{
    for place in 0..part.local_len() {
        if part.local(place).lits().is_empty() {
            return true;
        }
    }
    for step in steps {
        if step.clause.lits().is_empty() {
            return true;
        }
    }
    false
}
