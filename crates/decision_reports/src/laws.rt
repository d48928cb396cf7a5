//! Laws of the definitions: each is the contract of a function that does nothing.
ghost use Rattle.std.specs.Prelude.{◌≡◌, ◌++◌, ℕ, List, codes, decimal, Contains};
ghost use Rattle.alloy_syntax.specs.declared.tree.CommandKind.{CommandKind};
ghost use Rattle.alloy_syntax.specs.declared.tree.CommandKind.TheVariants.{Run, Check};
ghost use Rattle.named_model.specs.Model.{NamedTree};
ghost use Rattle.script_format.specs.declared.entries.ModelEntry.{ModelEntry as ModelData};
ghost use Rattle.decision_reports.specs.Taken.{numbers_of, IsFirstRefusedFor};
ghost use Rattle.decision_reports.specs.FactReports.{AreFactSetsOf};
ghost use Rattle.decision_reports.specs.Reports.{command_front, AreAssertionsOf, FailsIn, HasNoCounterexample, IsDecisionOn, WasSpent};

use crate::decision_laws::instances_are_counterexamples;
use lowering_rules::laws::{problems_are_not_refused, problems_are_one, refusals_are_one};
use model_texts::typed_texts::laws::a_text_is_one_thing;

/// What is told of a `check` command is so. Where it holds, there is no counterexample: in each scenario in which the constraints of
/// the signatures and fields and the facts are true, what the command checks isn't false. Where it fails, the lines are those of a
/// counterexample that is minimal and settled. Where the budget is spent, a search of just so many novel steps over a
/// translation of the command's problem had no answer.
pub fn what_is_told_is_so()
    ensures holds { (budget : ℕ) (name : List ℕ) (m : NamedTree) (number : ℕ) (text : List ℕ) → Contains (numbers_of Check m) number → IsDecisionOn budget name m number text
        → text ≡ command_front name number ++ codes "holds\n" → HasNoCounterexample m number }
    ensures fails { (budget : ℕ) (name : List ℕ) (m : NamedTree) (number : ℕ) (text lines : List ℕ) → Contains (numbers_of Check m) number → IsDecisionOn budget name m number text
        → text ≡ command_front name number ++ codes "fails\n" ++ lines → FailsIn m number lines }
    ensures spent { (budget : ℕ) (name : List ℕ) (m : NamedTree) (number : ℕ) (text : List ℕ) → Contains (numbers_of Check m) number → IsDecisionOn budget name m number text
        → text ≡ command_front name number ++ codes "spent " ++ decimal budget ++ codes "\n" → WasSpent budget m number }
{
    instances_are_counterexamples();
    problems_are_one();
}

/// Of models there is one first refusal at most, and none where decisions on them, or what is known of their facts, are told.
pub fn reports_are_one_way()
    ensures refused { (kind : CommandKind) (entries : List ModelData) (name words others more : List ℕ)
        → IsFirstRefusedFor kind entries name words → IsFirstRefusedFor kind entries others more → (name ≡ others) × (words ≡ more) }
    ensures either { (budget : ℕ) (entries : List ModelData) (text name words : List ℕ) → AreAssertionsOf budget entries text → IsFirstRefusedFor Check entries name words → ⊥ }
    ensures facts { (budget : ℕ) (entries : List ModelData) (text name words : List ℕ) → AreFactSetsOf budget entries text → IsFirstRefusedFor Run entries name words → ⊥ }
{
    problems_are_not_refused();
    refusals_are_one();
    a_text_is_one_thing();
}
