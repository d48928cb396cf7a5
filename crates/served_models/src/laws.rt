// Laws of the definitions: each is the contract of a function that does nothing.
ghost use Rattle.std.specs.Prelude.{◌≡◌, ℕ, List};
ghost use Rattle.rel_formula.specs.Bounds.{Bounded};
ghost use Rattle.named_model.specs.Model.{NamedTree};
ghost use Rattle.script_format.specs.declared.entries.ModelEntry.{ModelEntry as ModelData};
ghost use Rattle.script_format.specs.declared.entries.SessionEntry.{SessionEntry as SessionData};
ghost use Rattle.served_models.specs.declared.purposes.Purpose.{Purpose as PurposeData};
ghost use Rattle.served_models.specs.Served.{IsProblemOf, AreUsable, IsFirstRefused};

use lowering_rules::laws::{problems_are_not_refused, problems_are_one, refusals_are_one};
use model_texts::typed_texts::laws::a_text_is_one_thing;

/// A command has one problem at most; entries say one list of models at most, and either can be used or have one first refusal.
pub fn models_are_used_one_way()
    ensures problem { (m : NamedTree) (number : ℕ) (p q : Bounded) → IsProblemOf m number p → IsProblemOf m number q → p ≡ q }
    ensures models { (purpose : PurposeData) (sessions : List SessionData) (entries : List ModelData) (ms ns : List NamedTree) → AreUsable purpose sessions 0 entries ms → AreUsable purpose sessions 0 entries ns → ms ≡ ns }
    ensures refused { (purpose : PurposeData) (sessions : List SessionData) (entries : List ModelData) (name words others more : List ℕ)
        → IsFirstRefused purpose sessions entries name words → IsFirstRefused purpose sessions entries others more → (name ≡ others) × (words ≡ more) }
    ensures either { (purpose : PurposeData) (sessions : List SessionData) (entries : List ModelData) (ms : List NamedTree) (name words : List ℕ)
        → AreUsable purpose sessions 0 entries ms → IsFirstRefused purpose sessions entries name words → ⊥ }
{
    problems_are_one();
    problems_are_not_refused();
    refusals_are_one();
    a_text_is_one_thing();
}
