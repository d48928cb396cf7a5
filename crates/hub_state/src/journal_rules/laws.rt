// Laws of the definitions: each is the contract of a function that does nothing.
ghost use Rattle.std.specs.Prelude.{◌≡◌, ◌≢◌, ◌++◌, ◌∷◌, [], ℕ, List, length, All};
ghost use Rattle.refutation_check.specs.declared.log.Step.{Step as LogStep};
ghost use Rattle.refutation_check.specs.Chain.{IsAccepted, EachEntailed};
ghost use Rattle.rel_formula.specs.Bounds.{Bounded, IsProblem};
ghost use Rattle.rel_formula.specs.Instance.{IsMinimalAbove};
ghost use Rattle.rel_formula.specs.Renaming.{IsSymmetric};
ghost use Rattle.translation_rules.specs.Translation.{Translated};
ghost use Rattle.session_words.specs.declared.commands.Command.{Command as CommandType};
ghost use Rattle.session_words.specs.declared.steps.Step.{Step as StepType};
ghost use Rattle.session_rules.specs.ProofOfEnd.{ProofOfEnd};
ghost use Rattle.session_rules.specs.States.{State, Start, shown_here, top_floor};
ghost use Rattle.session_rules.specs.Steps.{state_after};
ghost use Rattle.session_rules.specs.Proofs.{HasRenamingAmong};
ghost use Rattle.session_rules.specs.declared.answers.Reply.{Reply as ReplyType};
ghost use Rattle.hub_state.specs.Journal.Noted.{Noted, Published as WasPublished, Imported as WasImported, Shared as WasShared, Opened as WasOpened, Recorded as WasRecorded};
ghost use Rattle.hub_state.specs.Journal.Journal.{HasNoted, HasImported, IsPublished, pool_of, exchanges_of, IsPool, IsReplay, MayFollow, IsLegal};
ghost use Rattle.hub_state.specs.Journal.Told.{IsTold};

use refutation_check::accepted_is_entailed;
use session_rules::laws::{a_transcript_is_a_run, an_end_is_complete, memory_changes_nothing};
use session_rules::{Reply, Step};

/// The entries that come first in a legal journal are a legal journal.
pub fn a_prefix_is_legal()
    ensures { (problems : List Bounded) (before after : List Noted) → IsLegal problems (before ++ after) → IsLegal problems before }
{}

/// The journal without entries is legal, and stays so with an entry that may follow.
pub fn a_legal_journal_grows()
    ensures empty { (problems : List Bounded) → IsLegal problems [] }
    ensures grows { (problems : List Bounded) (journal : List Noted) (x : Noted) → IsLegal problems journal → MayFollow problems journal x.by x.note → IsLegal problems (journal ++ x ∷ []) }
{}

/// Entries of other sessions change nothing in what a session recorded, nor in the state that this leads to.
pub fn others_change_no_replay()
    ensures exchanges { (by : ℕ) (journal others : List Noted) → All (λ x. x.by ≢ by) others → exchanges_of by (journal ++ others) ≡ exchanges_of by journal }
    ensures replay { (problems : List Bounded) (journal others : List Noted) (by key : ℕ) (problem : Bounded) (s : State)
        → All (λ x. x.by ≢ by) others → IsReplay problems journal by key problem s → IsReplay problems (journal ++ others) by key problem s }
{}

/// What a session imported last stays until it imports again, however the journal grows; the import names its length; and it
/// is an accepted log over the translation's clauses.
pub fn an_import_stays()
    ensures length { (problems : List Bounded) (journal : List Noted) → IsLegal problems journal → (by key : ℕ) (t : Translated) (pool : List LogStep)
        → (has : HasImported journal by key t pool) → length pool ≡ has.steps }
    ensures stays { (problems : List Bounded) (journal : List Noted) → IsLegal problems journal → (by key : ℕ) (later : List Noted) → ((n : ℕ) → ¬ HasNoted later by (WasImported key n))
        → (t : Translated) (pool : List LogStep) → HasImported journal by key t pool → HasImported (journal ++ later) by key t pool }
    ensures accepted { (problems : List Bounded) (journal : List Noted) → IsLegal problems journal → (by key : ℕ) (t : Translated) (pool : List LogStep)
        → HasImported journal by key t pool → IsAccepted t.cnf.clauses pool }
{}

/// A session is opened once, and records nothing before; nothing is imported or shared for a key before its translation is
/// there.
pub fn what_comes_first()
    ensures once { (problems : List Bounded) (journal : List Noted) → IsLegal problems journal → (by key budget other most : ℕ)
        → HasNoted journal by (WasOpened key budget) → HasNoted journal by (WasOpened other most) → (key ≡ other) × (budget ≡ most) }
    ensures opened { (problems : List Bounded) (before after : List Noted) (by key budget : ℕ) → IsLegal problems (before ++ record { by = by; note = WasOpened key budget } ∷ after)
        → (step : StepType) (reply : ReplyType) → ¬ HasNoted before by (WasRecorded step reply) }
    ensures imported { (problems : List Bounded) (before after : List Noted) (by key : ℕ) (t : Translated) → IsLegal problems (before ++ record { by = by; note = WasPublished key t } ∷ after)
        → (other steps : ℕ) → ¬ HasNoted before other (WasImported key steps) }
    ensures shared { (problems : List Bounded) (before after : List Noted) (by key : ℕ) (t : Translated) → IsLegal problems (before ++ record { by = by; note = WasPublished key t } ∷ after)
        → (other : ℕ) (steps : List LogStep) → ¬ HasNoted before other (WasShared key steps) }
{}

/// Where a session's transcript tells what the journal has of it, the state after the transcript is that of the session's
/// replay.
pub fn a_transcript_tells_the_replay()
    ensures { (problems : List Bounded) (journal : List Noted) (number key budget : ℕ) (commands : List CommandType) (replies : List ReplyType) (floors : List (List ℕ))
        → (told : IsTold problems journal number key budget commands replies floors) → IsReplay problems journal number key told.problem (state_after (Start budget) told.exchanges) }
{
    a_transcript_is_a_run();
    memory_changes_nothing();
}

/// What a session recorded leads to one state.
pub fn a_session_has_one_replay()
    ensures { (problems : List Bounded) (journal : List Noted) → IsLegal problems journal → (by key other : ℕ) (p q : Bounded) (s t : State)
        → IsReplay problems journal by key p s → IsReplay problems journal by other q t → (key ≡ other) × (p ≡ q) × (s ≡ t) }
{}

/// Where a session recorded an end at a floor, each scenario of its problem that is minimal above the floor has a renaming that
/// keeps the floor's atoms and was shown to it there.
pub fn a_recorded_end_is_complete()
    ensures { (problems : List Bounded) → All IsProblem problems → All IsSymmetric problems → (before after : List Noted) (by number : ℕ) (proof : ProofOfEnd)
        → IsLegal problems (before ++ record { by = by; note = WasRecorded Step.Next (Reply.End number proof) } ∷ after)
        → (key : ℕ) (p : Bounded) (s : State) → IsReplay problems before by key p s
        → (x : List ℕ) → IsMinimalAbove p (top_floor s) x → HasRenamingAmong p (top_floor s) (shown_here s) x }
{
    a_session_has_one_replay();
    a_prefix_is_legal();
    an_end_is_complete();
}

/// A key has one translation, its pool is one over it, and its clauses entail each step of the pool.
pub fn a_pool_rests_on_the_translation_alone()
    ensures one { (problems : List Bounded) (journal : List Noted) → IsLegal problems journal → (key : ℕ) (t u : Translated) → IsPublished journal key t → IsPublished journal key u → t ≡ u }
    ensures pool { (problems : List Bounded) (key : ℕ) (journal : List Noted) → IsLegal problems journal → (t : Translated) → IsPublished journal key t → IsPool t (pool_of key journal) }
    ensures entailed { (problems : List Bounded) (key : ℕ) (journal : List Noted) → IsLegal problems journal → (t : Translated) → IsPublished journal key t → EachEntailed t.cnf.clauses (pool_of key journal) }
{
    accepted_is_entailed();
}
