// Laws of workers and of `load`: each is the contract of a function that does nothing.
ghost use Rattle.std.specs.Prelude.{◌≡◌, ℕ, List, All};
ghost use Rattle.command_words.specs.declared.reading.Command.TheVariants.{Run, Distinct, Load};
ghost use Rattle.script_format.specs.declared.entries.Script.{Script as ScriptData};
ghost use Rattle.script_format.specs.declared.entries.SessionEntry.{SessionEntry as SessionData};
ghost use Rattle.script_format.specs.declared.fault.ScriptFault.{ScriptFault as ScriptFaultData};
ghost use Rattle.script_format.specs.Generated.{generated};
ghost use Rattle.outside_io.specs.declared.status.Status.{Status};
ghost use Rattle.outside_io.specs.declared.status.Status.TheVariants.{Done, InputRefused, ModelRefused};
ghost use Rattle.command_words.specs.Words.{default_budget};
ghost use Rattle.script_format.specs.Script.{IsScript, HasFault};
ghost use Rattle.script_text.specs.Faults.{script_line, fault_words};
ghost use Rattle.script_text.specs.Printed.{Printed};
ghost use Rattle.script_text.specs.Replies.{PrintedSession};
ghost use Rattle.named_model.specs.Model.{NamedTree};
ghost use Rattle.served_models.specs.declared.purposes.Purpose.TheVariants.{Lists};
ghost use Rattle.served_models.specs.Served.{AreUsable, IsFirstRefused, model_line};
ghost use Rattle.explorer_cli.specs.Outcome.{IsAnswerTo};
ghost use Rattle.explorer_cli.specs.Runs.{AreRuns};
ghost use Rattle.explorer_cli.specs.Load.{IsSummaryOf, TellsWholeLists, sum_over};
ghost use Rattle.explorer_cli.specs.Shown.{AsksForList, IsListed};

use crate::laws::{each_answer_has_its_cause, lists_are_one_text};
use served_models::laws::models_are_used_one_way;
use session_rules::laws::{a_run_is_sound, an_all_lists_what_is_due};

/// What may be answered is the same for each number of workers; and for `load` it doesn't hang on the input.
pub fn workers_change_no_answer()
    ensures run { (workers others budget : ℕ) (bytes : List ℕ) (status : Status) (text : List ℕ) → IsAnswerTo (Run workers budget) bytes status text → IsAnswerTo (Run others budget) bytes status text }
    ensures distinct { (workers others budget : ℕ) (bytes : List ℕ) (status : Status) (text : List ℕ) → IsAnswerTo (Distinct workers budget) bytes status text → IsAnswerTo (Distinct others budget) bytes status text }
    ensures load { (number workers others : ℕ) (bytes more : List ℕ) (status : Status) (text : List ℕ) → IsAnswerTo (Load number workers) bytes status text → IsAnswerTo (Load number others) more status text }
{}

/// Two answers of `run` to a script of `all` and `budget` alone are one text, where they tell each list to its end: whatever the
/// numbers of workers were, in whichever order their turns came, and from whichever budgets.
pub fn lists_have_one_output()
    ensures { (workers others budget other : ℕ) (bytes : List ℕ) (s : ScriptData) (models : List NamedTree) (status code : Status) (text words : List ℕ)
        → IsScript bytes s → AreUsable Lists s.sessions 0 s.models models → All (λ x. All AsksForList x.commands) s.sessions
        → IsAnswerTo (Run workers budget) bytes status text → IsAnswerTo (Run others other) bytes code words
        → TellsWholeLists budget s.sessions models text → TellsWholeLists other s.sessions models words → (status ≡ code) × (text ≡ words) }
{
    each_answer_has_its_cause();
    lists_are_one_text();
}

/// The answer of `load` is one of three, each with its cause: it tells the fault of the script that is made, or the first of its
/// models that can't be used; or, where it is a script whose models all can be, under 0 the summary of runs of its sessions.
pub fn each_load_has_its_cause()
    ensures fault { (number workers : ℕ) (bytes : List ℕ) (f : ScriptFaultData) (status : Status) (text : List ℕ)
        → HasFault (generated number) f → IsAnswerTo (Load number workers) bytes status text → (status ≡ InputRefused) × (text ≡ script_line (fault_words f)) }
    ensures model { (number workers : ℕ) (bytes : List ℕ) (s : ScriptData) (name words : List ℕ) (status : Status) (text : List ℕ)
        → IsScript (generated number) s → IsFirstRefused Lists s.sessions s.models name words → IsAnswerTo (Load number workers) bytes status text → (status ≡ ModelRefused) × (text ≡ model_line name words) }
    ensures load { (number workers : ℕ) (bytes : List ℕ) (s : ScriptData) (models : List NamedTree) (status : Status) (text : List ℕ)
        → IsScript (generated number) s → AreUsable Lists s.sessions 0 s.models models → IsAnswerTo (Load number workers) bytes status text → (status ≡ Done) × IsSummaryOf default_budget s.sessions models text }
{
    models_are_used_one_way();
}

/// A script of `all` and `budget` alone has one summary, where each `all` reaches the end of its floor: whatever is counted of the
/// replies, the sums are the same for all runs.
pub fn lists_have_one_summary()
    ensures { (budget other : ℕ) (sessions : List SessionData) (models : List NamedTree) (runs more : List PrintedSession) → AreRuns budget sessions models runs → AreRuns other sessions models more
        → All (λ x. All AsksForList x.commands) sessions → All (λ s. All IsListed s.replies) runs → All (λ s. All IsListed s.replies) more
        → (count : Printed → ℕ) → sum_over count runs ≡ sum_over count more }
{
    a_run_is_sound();
    an_all_lists_what_is_due();
    models_are_used_one_way();
}
