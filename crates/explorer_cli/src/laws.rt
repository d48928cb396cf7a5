// Laws of the definitions: each is the contract of a function that does nothing.
ghost use Rattle.std.specs.Prelude.{◌≡◌, ◌≢◌, ◌↔◌, ◌<◌, ◌≤◌, ◌+◌, ◌++◌, ◌∷◌, [], ℕ, Bool, List, Some, codes, length, slice_get, All, AllPairs, Contains};
ghost use Rattle.cnf_core.specs.declared.literal.Lit.{Lit as LitData};
ghost use Rattle.cnf_core.specs.Valuation.{Satisfies};
ghost use Rattle.refutation_check.specs.declared.log.Step.{Step as LogStep};
ghost use Rattle.refutation_check.specs.Chain.{IsRefutation, EachEntailed};
ghost use Rattle.refutation_check.specs.WrittenProof.{proof_text};
ghost use Rattle.alloy_syntax.specs.declared.tree.CommandKind.TheVariants as kind;
ghost use Rattle.command_words.specs.declared.reading.Command.TheVariants.{Run, Distinct, Assert, Facts};
ghost use Rattle.rel_formula.specs.Bounds.{Bounded};
ghost use Rattle.rel_formula.specs.Instance.{IsMinimalAbove};
ghost use Rattle.rel_terms.specs.Terms.{HasTerms};
ghost use Rattle.swap_symmetry.specs.Due.{IsDue};
ghost use Rattle.swap_symmetry.specs.Order.{IsEarlier};
ghost use Rattle.translation_rules.specs.Offers.{IsPossible};
ghost use Rattle.translation_rules.specs.Translation.{Translated, StandsFor};
ghost use Rattle.translation.specs.Kept.{IsSmall};
ghost use Rattle.session_words.specs.declared.commands.Command.{Command as CommandData};
ghost use Rattle.session_words.specs.declared.commands.Command.TheVariants.{All as AskedAll};
ghost use Rattle.session_words.specs.declared.steps.Step.{Step as StepData};
ghost use Rattle.session_rules.specs.ProofOfEnd.{ProofOfEnd};
ghost use Rattle.session_rules.specs.Proofs.{HasRenamingAmong};
ghost use Rattle.session_rules.specs.States.{State, top_floor};
ghost use Rattle.session_rules.specs.Evidence.{IsSpentOn};
ghost use Rattle.session_rules.specs.declared.answers.WorkDone.{WorkDone};
ghost use Rattle.session_rules.specs.declared.answers.Refusal.TheVariants.{NoInstance, Spent};
ghost use Rattle.session_rules.specs.declared.answers.Reply.{Reply};
ghost use Rattle.session_rules.specs.declared.answers.Reply.TheVariants.{End, Offers, Augmented, Back, All as AllShown, Partly, Refused};
ghost use Rattle.hub_state.specs.Journal.Journal.{IsPool, pool_of};
ghost use Rattle.hub_turns.specs.Interleaved.{IsInterleaving};
ghost use Rattle.script_format.specs.declared.entries.Script.{Script as ScriptData};
ghost use Rattle.script_format.specs.declared.entries.SessionEntry.{SessionEntry as SessionData};
ghost use Rattle.script_format.specs.declared.fault.ScriptFault.{ScriptFault as ScriptFaultData};
ghost use Rattle.outside_io.specs.declared.status.Status.{Status};
ghost use Rattle.outside_io.specs.declared.status.Status.TheVariants.{Done, InputRefused, ModelRefused};
ghost use Rattle.script_format.specs.Script.{IsScript, HasFault};
ghost use Rattle.script_text.specs.Faults.{script_line, fault_words};
ghost use Rattle.script_text.specs.Printable.{IsWritable};
ghost use Rattle.script_text.specs.Printed.{proved};
ghost use Rattle.script_text.specs.Proofs.Printed.{IsAcceptedText};
ghost use Rattle.script_text.specs.Replies.{PrintedSession, IsOutput};
ghost use Rattle.named_model.specs.Model.{NamedTree};
ghost use Rattle.served_models.specs.declared.purposes.Purpose.{Purpose as PurposeData};
ghost use Rattle.served_models.specs.declared.purposes.Purpose.TheVariants.{Lists, Classes};
ghost use Rattle.served_models.specs.Served.{IsProblemOf, AreUsable, IsFirstRefused, model_line};
ghost use Rattle.decision_reports.specs.Taken.{IsFirstRefusedFor};
ghost use Rattle.decision_reports.specs.Reports.{AreAssertionsOf};
ghost use Rattle.decision_reports.specs.FactReports.{AreFactSetsOf};
ghost use Rattle.explorer_cli.specs.Outcome.{IsAnswerTo};
ghost use Rattle.explorer_cli.specs.Runs.{AreRepliesOn, IsRunOn, IsProblemAt, Translations, IsRunAmong, Together, TellsRun, AreRuns, AreRunsOf};
ghost use Rattle.explorer_cli.specs.Classes.{IsClassedRun, AreClassedRunsOf, HasClasses};
ghost use Rattle.explorer_cli.specs.Shown.{AllKeepFloors, IsReplyAt, Shows, ShowsNew, EndsAt, OffersAt, AsksAt, AsksForList, IsListed};

use decision_reports::laws::reports_are_one_way;
use hub_state::journal_rules::laws::a_pool_rests_on_the_translation_alone;
use lowering_rules::laws::problems_are_symmetric;
use refutation_check::accepted_is_entailed;
use renaming_classes::laws::{
    classes_are_of_all_minimal, due_are_minimal_up_to_renaming, renamings_are_a_class,
};
use script_format::laws::scripts_keep_to_limits;
use script_text::laws::{
    equal_outputs_agree, transcripts_may_be_printed, what_is_printed_has_one_text,
};
use served_models::laws::models_are_used_one_way;
use session_rules::laws::{a_run_is_sound, an_all_lists_what_is_due};
use swap_symmetry::laws::each_minimal_has_a_due_renaming_beside;

/// The answer to bytes is one of three, each with its cause: bytes that are no script are answered under 3 with their fault; a
/// script under 4 with its first model that can't be used, or, where all its models can be, under 0 with runs of its sessions
/// on these.
pub fn each_answer_has_its_cause()
    ensures fault { (workers budget : ℕ) (bytes : List ℕ) (f : ScriptFaultData) (status : Status) (text : List ℕ)
        → HasFault bytes f → IsAnswerTo (Run workers budget) bytes status text → (status ≡ InputRefused) × (text ≡ script_line (fault_words f)) }
    ensures model { (workers budget : ℕ) (bytes : List ℕ) (s : ScriptData) (name words : List ℕ) (status : Status) (text : List ℕ)
        → IsScript bytes s → IsFirstRefused Lists s.sessions s.models name words → IsAnswerTo (Run workers budget) bytes status text → (status ≡ ModelRefused) × (text ≡ model_line name words) }
    ensures run { (workers budget : ℕ) (bytes : List ℕ) (s : ScriptData) (models : List NamedTree) (status : Status) (text : List ℕ)
        → IsScript bytes s → AreUsable Lists s.sessions 0 s.models models → IsAnswerTo (Run workers budget) bytes status text → (status ≡ Done) × AreRunsOf budget s.sessions models text }
{
    models_are_used_one_way();
}

/// So it is under `assert` and `facts`: a script is answered under 4 with its first model that has a fault, or a `check`, or under
/// `facts` a `run`, that can't be run; and where it has none, under 0 with the decisions on its `check` commands, or with what is
/// known of its facts under its `run` commands.
pub fn each_report_has_its_cause()
    ensures fault { (budget : ℕ) (bytes : List ℕ) (f : ScriptFaultData) (status : Status) (text : List ℕ)
        → HasFault bytes f → IsAnswerTo (Assert budget) bytes status text → (status ≡ InputRefused) × (text ≡ script_line (fault_words f)) }
    ensures model { (budget : ℕ) (bytes : List ℕ) (s : ScriptData) (name words : List ℕ) (status : Status) (text : List ℕ)
        → IsScript bytes s → IsFirstRefusedFor kind.Check s.models name words → IsAnswerTo (Assert budget) bytes status text → (status ≡ ModelRefused) × (text ≡ model_line name words) }
    ensures told { (budget : ℕ) (bytes : List ℕ) (s : ScriptData) (status : Status) (text : List ℕ)
        → IsScript bytes s → ((name words : List ℕ) → ¬ IsFirstRefusedFor kind.Check s.models name words) → IsAnswerTo (Assert budget) bytes status text → (status ≡ Done) × AreAssertionsOf budget s.models text }
    ensures facts_fault { (budget : ℕ) (bytes : List ℕ) (f : ScriptFaultData) (status : Status) (text : List ℕ)
        → HasFault bytes f → IsAnswerTo (Facts budget) bytes status text → (status ≡ InputRefused) × (text ≡ script_line (fault_words f)) }
    ensures facts_model { (budget : ℕ) (bytes : List ℕ) (s : ScriptData) (name words : List ℕ) (status : Status) (text : List ℕ)
        → IsScript bytes s → IsFirstRefusedFor kind.Run s.models name words → IsAnswerTo (Facts budget) bytes status text → (status ≡ ModelRefused) × (text ≡ model_line name words) }
    ensures facts_told { (budget : ℕ) (bytes : List ℕ) (s : ScriptData) (status : Status) (text : List ℕ)
        → IsScript bytes s → ((name words : List ℕ) → ¬ IsFirstRefusedFor kind.Run s.models name words) → IsAnswerTo (Facts budget) bytes status text → (status ≡ Done) × AreFactSetsOf budget s.models text }
{
    reports_are_one_way();
}

/// Bytes say one list of models at most that can be used, and the command of each session has one problem at most, on which its
/// runs are.
pub fn a_session_has_one_problem()
    ensures models { (purpose : PurposeData) (bytes : List ℕ) (s t : ScriptData) (ms ns : List NamedTree) → IsScript bytes s → IsScript bytes t
        → AreUsable purpose s.sessions 0 s.models ms → AreUsable purpose t.sessions 0 t.models ns → ms ≡ ns }
    ensures problem { (models : List NamedTree) (x : SessionData) (p q : Bounded) → IsProblemAt models x p → IsProblemAt models x q → p ≡ q }
    ensures run { (budget : ℕ) (models : List NamedTree) (over : Translations) (x : SessionData) (s : PrintedSession) (p : Bounded) → IsRunAmong budget models over x s → IsProblemAt models x p → s.problem ≡ p }
{
    models_are_used_one_way();
}

/// Each scenario that a reply shows is due at its floor: a minimal instance above it.
pub fn shown_are_due()
    ensures { (p : Bounded) (budget : ℕ) (commands : List CommandData) (replies : List Reply) (floors : List (List ℕ)) → AreRepliesOn p budget commands replies floors
        → (place : ℕ) (reply : Reply) (floor x : List ℕ) → IsReplyAt replies floors place reply floor → Shows reply x → IsDue p floor x }
{
    a_run_is_sound();
}

/// No scenario is shown as new twice at a floor: not by two replies, nor by one that shows several; and no list has one twice.
pub fn none_is_shown_twice()
    ensures apart { (p : Bounded) (budget : ℕ) (commands : List CommandData) (replies : List Reply) (floors : List (List ℕ)) → AreRepliesOn p budget commands replies floors
        → (first second : ℕ) (reply other : Reply) (floor x : List ℕ) → IsReplyAt replies floors first reply floor → IsReplyAt replies floors second other floor
        → ShowsNew reply x → ShowsNew other x → first ≡ second }
    ensures partly { (p : Bounded) (budget : ℕ) (commands : List CommandData) (replies : List Reply) (floors : List (List ℕ)) → AreRepliesOn p budget commands replies floors
        → (place number : ℕ) (scenarios : List (List ℕ)) (floor : List ℕ) → IsReplyAt replies floors place (Partly number scenarios) floor → AllPairs (λ x y. x ≢ y) scenarios }
    ensures listed { (p : Bounded) (budget : ℕ) (commands : List CommandData) (replies : List Reply) (floors : List (List ℕ)) → AreRepliesOn p budget commands replies floors
        → (place : ℕ) (scenarios : List (List ℕ)) (floor : List ℕ) → IsReplyAt replies floors place (AllShown scenarios) floor → AllPairs IsEarlier scenarios }
{
    a_run_is_sound();
}

/// At an end all that is due at the floor counts as shown there, and the end's number is how many scenarios these are. What
/// replies showed before is among it, and nothing else is, but for what an `all` had found that was refused or wanted memory.
pub fn an_end_shows_all()
    ensures { (p : Bounded) (budget : ℕ) (commands : List CommandData) (replies : List Reply) (floors : List (List ℕ)) → AreRepliesOn p budget commands replies floors
        → (place number : ℕ) (proof : ProofOfEnd) (floor : List ℕ) → IsReplyAt replies floors place (End number proof) floor → EndsAt p commands replies floors place floor number }
{
    a_run_is_sound();
}

/// The list that ends a floor has what is due there, and nothing else.
pub fn a_list_has_all()
    ensures { (p : Bounded) (budget : ℕ) (commands : List CommandData) (replies : List Reply) (floors : List (List ℕ)) → AreRepliesOn p budget commands replies floors
        → (place : ℕ) (scenarios : List (List ℕ)) (floor : List ℕ) → IsReplyAt replies floors place (AllShown scenarios) floor → (x : List ℕ) → Contains scenarios x ↔ IsDue p floor x }
{
    a_run_is_sound();
    an_all_lists_what_is_due();
}

/// Offers are exactly the cells that some instance adds to the current scenario, which is due at the floor; none of them is in it.
pub fn offers_are_possible()
    ensures exactly { (p : Bounded) (budget : ℕ) (commands : List CommandData) (replies : List Reply) (floors : List (List ℕ)) → AreRepliesOn p budget commands replies floors
        → (place : ℕ) (cells floor : List ℕ) → IsReplyAt replies floors place (Offers cells) floor → OffersAt p commands replies floors place floor cells }
    ensures outside { (p : Bounded) (commands : List CommandData) (replies : List Reply) (floors : List (List ℕ)) (place : ℕ) (floor cells : List ℕ)
        → (x : OffersAt p commands replies floors place floor cells) → (cell : ℕ) → Contains cells cell → ¬ Contains x.current cell }
{
    a_run_is_sound();
}

/// An `all` that is answered by a part of what is due shows just as many scenarios as it asks for.
pub fn parts_are_as_many_as_were_asked()
    ensures { (p : Bounded) (budget : ℕ) (commands : List CommandData) (replies : List Reply) (floors : List (List ℕ)) → AreRepliesOn p budget commands replies floors
        → (place number asked : ℕ) (scenarios : List (List ℕ)) (floor : List ℕ) → IsReplyAt replies floors place (Partly number scenarios) floor → slice_get commands place ≡ Some (AskedAll asked)
        → length scenarios ≡ asked }
{}

/// An augmentation that succeeds leads to the floor that it asks for, the current scenario with one cell more, which some
/// instance has; one that is refused as `no_instance` asks for a floor that no instance has.
pub fn augmentations_are_exact()
    ensures augmented { (p : Bounded) (budget : ℕ) (commands : List CommandData) (replies : List Reply) (floors : List (List ℕ)) → AreRepliesOn p budget commands replies floors
        → (place : ℕ) (floor above : List ℕ) → IsReplyAt replies floors place (Augmented above) floor → AsksAt p commands replies floors place floor above × IsPossible p above }
    ensures next { (p : Bounded) (budget : ℕ) (commands : List CommandData) (replies : List Reply) (floors : List (List ℕ)) → AreRepliesOn p budget commands replies floors
        → (place : ℕ) (floor above later : List ℕ) → IsReplyAt replies floors place (Augmented above) floor → slice_get floors (place + 1) ≡ Some later → later ≡ above }
    ensures no_instance { (p : Bounded) (budget : ℕ) (commands : List CommandData) (replies : List Reply) (floors : List (List ℕ)) → AreRepliesOn p budget commands replies floors
        → (place : ℕ) (floor : List ℕ) (proof : ProofOfEnd) → IsReplyAt replies floors place (Refused (NoInstance proof)) floor
        → (above : List ℕ) × AsksAt p commands replies floors place floor above × (¬ IsPossible p above) }
{
    a_run_is_sound();
}

/// Once all that is due at a floor is among some scenarios, as at an end or in a list that ends the floor, each scenario that is
/// minimal above the floor has a renaming among them that keeps the floor's atoms.
pub fn nothing_is_left()
    ensures { (m : NamedTree) (number : ℕ) (p : Bounded) → IsProblemOf m number p → (budget : ℕ) (commands : List CommandData) (replies : List Reply) (floors : List (List ℕ)) → AreRepliesOn p budget commands replies floors
        → (place : ℕ) (reply : Reply) (floor : List ℕ) → IsReplyAt replies floors place reply floor → (shown : List (List ℕ)) → ((x : List ℕ) → IsDue p floor x → Contains shown x)
        → (x : List ℕ) → IsMinimalAbove p floor x → HasRenamingAmong p floor shown x }
{
    a_run_is_sound();
    problems_are_symmetric();
    each_minimal_has_a_due_renaming_beside();
}

/// `back` undoes an augmentation: it leads to the floor at which that was asked for, where no reply between the two adds a floor
/// or leaves one.
pub fn back_leads_to_the_floor_below()
    ensures { (p : Bounded) (budget : ℕ) (commands : List CommandData) (replies : List Reply) (floors : List (List ℕ)) → AreRepliesOn p budget commands replies floors
        → (first second : ℕ) (floor above top later : List ℕ) → IsReplyAt replies floors first (Augmented above) floor → IsReplyAt replies floors second Back top → first < second
        → AllKeepFloors replies first second → slice_get floors (second + 1) ≡ Some later → later ≡ floor }
{}

/// Sessions on one command run over one translation. It stands for the command's problem, and is no larger than that asks for.
pub fn a_command_has_one_translation()
    ensures stands { (t : Translated) (budget : ℕ) (x : SessionData) (s : PrintedSession) → IsRunOn t budget x s → StandsFor s.problem t }
    ensures small { (t : Translated) (budget : ℕ) (x : SessionData) (s : PrintedSession) → IsRunOn t budget x s → (terms : ℕ) → HasTerms s.problem terms → IsSmall t terms }
    ensures one { (budget : ℕ) (models : List NamedTree) (over : Translations) (x y : SessionData) (s r : PrintedSession) → (run : IsRunAmong budget models over x s) → (other : IsRunAmong budget models over y r)
        → x.model ≡ y.model → x.number ≡ y.number → run.0 ≡ other.0 }
{}

/// A proof that is printed refutes the clauses that are printed with it, the first of which are the translation's: no valuation
/// satisfies them all. Where its lines are no longer than a proof text may be, `check` accepts them.
pub fn printed_proofs_are_right()
    ensures { (t : Translated) (budget : ℕ) (x : SessionData) (s : PrintedSession) → IsRunOn t budget x s
        → (place : ℕ) (clauses : List (List LitData)) (log : List LogStep) → slice_get s.replies place ≡ Some (proved clauses log)
        → IsRefutation clauses log × ((v : ℕ → Bool) → ¬ Satisfies v clauses) × ((local : List (List LitData)) × (clauses ≡ t.cnf.clauses ++ local))
        × (length (proof_text clauses log) ≤ 268435456 → IsAcceptedText (proof_text clauses log)) }
{
    accepted_is_entailed();
}

/// A budget that is told as spent was spent: the work of a step at that floor, over the translation and steps that rest on it
/// alone, has exactly so many units, and was stopped there: one more step can be derived, or there is one more copy.
pub fn spent_budgets_were_spent()
    ensures { (t : Translated) (budget : ℕ) (x : SessionData) (s : PrintedSession) → (run : IsRunOn t budget x s) → (place : ℕ) (done : WorkDone) (floor : List ℕ)
        → IsReplyAt run.replies run.floors place (Refused (Spent done)) floor
        → (old : State) × (step : StepData) × (pool : List LogStep) × (top_floor old ≡ floor) × IsPool t pool × IsSpentOn t pool old step done }
{}

/// What a session may have learnt from others rests on the translation alone: the clauses of its command's translation entail each
/// step that any session shared for the command's key.
pub fn what_is_shared_rests_on_the_translation()
    ensures { (all : Together) (sessions : ℕ) → IsInterleaving all.problems all.journal sessions
        → (number budget : ℕ) (models : List NamedTree) (over : Translations) (x : SessionData) (s : PrintedSession) → (run : IsRunAmong budget models over x s) → TellsRun all number budget models over x s run
        → EachEntailed run.0.cnf.clauses (pool_of (all.key_of x.model x.number) all.journal) }
{
    a_pool_rests_on_the_translation_alone();
}

/// The output begins with the line of the first session's name.
pub fn outputs_begin_with_a_name()
    ensures { (budget : ℕ) (x : SessionData) (sessions : List SessionData) (models : List NamedTree) (text : List ℕ) → AreRunsOf budget (x ∷ sessions) models text
        → (rest : List ℕ) × (text ≡ codes "== " ++ x.name ++ codes "\n" ++ rest) }
{}

/// Bytes fix what is printed: where the names of the problems' relations are such as a text can tell apart, two lists of runs of
/// one script with one text print the same.
pub fn bytes_fix_what_is_printed()
    ensures { (bytes : List ℕ) (s : ScriptData) (models : List NamedTree) → IsScript bytes s → ((x : SessionData) (p : Bounded) → Contains s.sessions x → IsProblemAt models x p → IsWritable p)
        → (budget other : ℕ) → budget ≤ 100000 → other ≤ 100000 → (runs more : List PrintedSession) → AreRuns budget s.sessions models runs → AreRuns other s.sessions models more
        → (text : List ℕ) → IsOutput runs text → IsOutput more text → runs ≡ more }
{
    a_run_is_sound();
    equal_outputs_agree();
    models_are_used_one_way();
    scripts_keep_to_limits();
    transcripts_may_be_printed();
}

/// A script of `all` and `budget` alone has one output, where each `all` reaches the end of its floor: whatever was searched
/// first, over whichever translations, and from whichever budget.
pub fn lists_are_one_text()
    ensures { (budget other : ℕ) (sessions : List SessionData) (models : List NamedTree) (runs more : List PrintedSession) → AreRuns budget sessions models runs → AreRuns other sessions models more
        → All (λ x. All AsksForList x.commands) sessions → All (λ s. All IsListed s.replies) runs → All (λ s. All IsListed s.replies) more
        → (text words : List ℕ) → IsOutput runs text → IsOutput more words → text ≡ words }
{
    a_run_is_sound();
    what_is_printed_has_one_text();
    an_all_lists_what_is_due();
    models_are_used_one_way();
}

/// Of a list that ends the bottom floor the text tells exactly the least members of the renaming classes of the minimal instances:
/// of each class one, so that no two of them are renamings of each other, and each minimal instance is a renaming of one.
pub fn one_of_each_class_is_told()
    ensures { (budget : ℕ) (models : List NamedTree) (over : Translations) (x : SessionData) (text : List ℕ) → (run : IsClassedRun budget models over x text)
        → (place : ℕ) (scenarios : List (List ℕ)) → IsReplyAt run.1.3.replies run.1.3.floors place (AllShown scenarios) [] → HasClasses run.0.problem text }
{
    a_list_has_all();
    due_are_minimal_up_to_renaming();
    classes_are_of_all_minimal();
    renamings_are_a_class();
}

/// The answer of `distinct` to bytes is one of three, each with its cause: bytes that are no script are answered under 3 with their
/// fault; a script under 4 with its first model that can't be used for classes, or, where all its models can be, under 0 with runs
/// of its sessions on these, told by classes.
pub fn each_answer_of_classes_has_its_cause()
    ensures fault { (workers budget : ℕ) (bytes : List ℕ) (f : ScriptFaultData) (status : Status) (text : List ℕ)
        → HasFault bytes f → IsAnswerTo (Distinct workers budget) bytes status text → (status ≡ InputRefused) × (text ≡ script_line (fault_words f)) }
    ensures model { (workers budget : ℕ) (bytes : List ℕ) (s : ScriptData) (name words : List ℕ) (status : Status) (text : List ℕ)
        → IsScript bytes s → IsFirstRefused Classes s.sessions s.models name words → IsAnswerTo (Distinct workers budget) bytes status text → (status ≡ ModelRefused) × (text ≡ model_line name words) }
    ensures run { (workers budget : ℕ) (bytes : List ℕ) (s : ScriptData) (models : List NamedTree) (status : Status) (text : List ℕ)
        → IsScript bytes s → AreUsable Classes s.sessions 0 s.models models → IsAnswerTo (Distinct workers budget) bytes status text → (status ≡ Done) × AreClassedRunsOf budget s.sessions models text }
{
    models_are_used_one_way();
}
