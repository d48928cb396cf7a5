// Laws of `crew`: each is the contract of a function that does nothing.
ghost use Rattle.std.specs.Prelude.{◌≡◌, ◌++◌, [], ℕ, List, Some, slice_get, Contains};
ghost use Rattle.command_words.specs.declared.reading.Command.TheVariants.{Crew};
ghost use Rattle.rel_formula.specs.Bounds.{Bounded};
ghost use Rattle.session_words.specs.declared.commands.Command.{Command as CommandData};
ghost use Rattle.session_rules.specs.declared.answers.Reply.{Reply};
ghost use Rattle.session_rules.specs.declared.answers.Reply.TheVariants.{All as AllShown};
ghost use Rattle.script_format.specs.declared.entries.ModelEntry.{ModelEntry as ModelData};
ghost use Rattle.script_format.specs.declared.entries.Script.{Script as ScriptData};
ghost use Rattle.script_format.specs.declared.entries.SessionEntry.{SessionEntry as SessionData};
ghost use Rattle.script_format.specs.declared.fault.ScriptFault.{ScriptFault as ScriptFaultData};
ghost use Rattle.outside_io.specs.declared.status.Status.{Status};
ghost use Rattle.outside_io.specs.declared.status.Status.TheVariants.{Done, InputRefused, ModelRefused};
ghost use Rattle.script_format.specs.Script.{IsScript, HasFault};
ghost use Rattle.script_text.specs.Faults.{script_line, fault_words};
ghost use Rattle.script_text.specs.Printed.{listed};
ghost use Rattle.script_text.specs.Replies.{IsReplyText};
ghost use Rattle.named_model.specs.Model.{NamedTree};
ghost use Rattle.served_models.specs.declared.purposes.Purpose.TheVariants.{Lists};
ghost use Rattle.served_models.specs.Served.{AreUsable, IsFirstRefused, model_line};
ghost use Rattle.explorer_cli.specs.Outcome.{IsAnswerTo};
ghost use Rattle.explorer_cli.specs.Runs.{AreRepliesOn, IsProblemAt};
ghost use Rattle.explorer_cli.specs.Shown.{IsReplyAt};
ghost use Rattle.explorer_cli.specs.CrewTexts.{heading, IsBlock, AreCrewTexts, TellsEnds, ListsAllDue, TellsAllDue};

use crate::laws::{a_list_has_all, none_is_shown_twice};
use script_text::laws::what_is_printed_has_one_text;
use served_models::laws::models_are_used_one_way;

/// The answer of `crew` to bytes is one of three, each with its cause: bytes that are no script are answered under 3 with their fault;
/// a script under 4 with its first model that can't be used, or, where all its models can be, under 0 with what crews find of the
/// commands on which its sessions are.
pub fn each_crew_has_its_cause()
    ensures fault { (workers budget : ℕ) (bytes : List ℕ) (f : ScriptFaultData) (status : Status) (text : List ℕ)
        → HasFault bytes f → IsAnswerTo (Crew workers budget) bytes status text → (status ≡ InputRefused) × (text ≡ script_line (fault_words f)) }
    ensures model { (workers budget : ℕ) (bytes : List ℕ) (s : ScriptData) (name words : List ℕ) (status : Status) (text : List ℕ)
        → IsScript bytes s → IsFirstRefused Lists s.sessions s.models name words → IsAnswerTo (Crew workers budget) bytes status text → (status ≡ ModelRefused) × (text ≡ model_line name words) }
    ensures crew { (workers budget : ℕ) (bytes : List ℕ) (s : ScriptData) (models : List NamedTree) (status : Status) (text : List ℕ)
        → IsScript bytes s → AreUsable Lists s.sessions 0 s.models models → IsAnswerTo (Crew workers budget) bytes status text → (status ≡ Done) × AreCrewTexts workers budget s.sessions s.models models text }
{
    models_are_used_one_way();
}

/// Two answers of `crew` to one script are one text, where no line of them tells of a spent budget or of a full journal: whatever the
/// numbers of workers were, in whichever order their turns came, and with whichever budgets.
pub fn crews_have_one_output()
    ensures { (workers others budget other : ℕ) (bytes text words : List ℕ)
        → IsAnswerTo (Crew workers budget) bytes Done text → IsAnswerTo (Crew others other) bytes Done words → TellsEnds budget text → TellsEnds other words → text ≡ words }
{
    models_are_used_one_way();
    what_is_printed_has_one_text();
}

/// What is told of a command without such a line lists what is due at the empty floor, and nothing else, each scenario once. So a
/// text without such lines lists it for each command on which a session is. And where a session on the command ends the bottom floor
/// with a list, that has the very same lines.
pub fn a_crew_lists_what_is_due()
    ensures block { (workers budget number : ℕ) (name : List ℕ) (p : Bounded) (text : List ℕ) → IsBlock workers budget name number p text → TellsEnds budget text
        → (lines : List ℕ) × ListsAllDue p lines × (text ≡ heading name number ++ lines) }
    ensures text { (workers budget : ℕ) (sessions : List SessionData) (entries : List ModelData) (models : List NamedTree) (text : List ℕ) → AreCrewTexts workers budget sessions entries models text → TellsEnds budget text
        → (x : SessionData) (entry : ModelData) (p : Bounded) → Contains sessions x → slice_get entries x.model ≡ Some entry → IsProblemAt models x p → TellsAllDue p (heading entry.name x.number) text }
    ensures run { (p : Bounded) (budget : ℕ) (commands : List CommandData) (replies : List Reply) (floors : List (List ℕ)) → AreRepliesOn p budget commands replies floors
        → (place : ℕ) (scenarios : List (List ℕ)) → IsReplyAt replies floors place (AllShown scenarios) [] → (lines words : List ℕ) → IsReplyText p (listed scenarios) lines → ListsAllDue p words → lines ≡ words }
{
    a_list_has_all();
    models_are_used_one_way();
    none_is_shown_twice();
    what_is_printed_has_one_text();
}
