// Laws of the definitions: each is the contract of a function that does nothing.
ghost use Rattle.std.specs.Prelude.{◌≡◌, ◌≢◌, ◌↔◌, ◌+◌, ◌≤◌, ◌<◌, ◌++◌, ◌∷◌, [], ℕ, List, length, IsTrue, All, AllPairs, Contains};
ghost use Rattle.std.specs.List.{AllZip};
ghost use Rattle.rel_formula.specs.Bounds.{Bounded, IsProblem};
ghost use Rattle.rel_formula.specs.Instance.{IsMinimalAbove};
ghost use Rattle.rel_formula.specs.Renaming.{IsSymmetric};
ghost use Rattle.swap_symmetry.specs.Due.{IsDue};
ghost use Rattle.refutation_check.specs.Chain.{IsAccepted, EndsEmpty};
ghost use Rattle.refutation_check.specs.SearchLog.{IsSearchLog, novel_steps};
ghost use Rattle.refutation_check.specs.Part.{Parted};
ghost use Rattle.refutation_check.specs.declared.log.Step.{Step as LogStep};
ghost use Rattle.translation_rules.specs.Offers.{IsPossible};
ghost use Rattle.translation_rules.specs.Parts.{given_to};
ghost use Rattle.translation_rules.specs.Translation.{Translated, StandsFor};
ghost use Rattle.session_words.specs.declared.atom_names.AtomName.{AtomName as AtomNameType};
ghost use Rattle.session_words.specs.declared.commands.Command.{Command as CommandType};
ghost use Rattle.session_words.specs.declared.steps.Step.{Step as StepType};
ghost use Rattle.session_rules.specs.declared.answers.Reply.{Reply as ReplyType};
ghost use Rattle.session_rules.specs.declared.answers.Refusal.{Refusal as RefusalType};
ghost use Rattle.session_rules.specs.declared.end_proof.ProofKind.{ProofKind as ProofKindType};
ghost use Rattle.session_rules.specs.ProofOfEnd.{ProofOfEnd};
ghost use Rattle.session_rules.specs.States.{KeepsFloors, State, Start as start, after, has_ended, shown_here, top_floor};
ghost use Rattle.session_rules.specs.Steps.{AsksFor, Exchange, IsReached, MachineRun, MayAnswer, state_after};
ghost use Rattle.session_rules.specs.Sound.{IsSound};
ghost use Rattle.session_rules.specs.Proofs.{HasRenamingAmong, IsCovered, Proves, RefutesWith};
ghost use Rattle.session_rules.specs.Work.{AreRounds, IsWork, Round, units_in};
ghost use Rattle.session_rules.specs.Evidence.{IsEndShown, IsNoInstanceShown};
ghost use Rattle.session_rules.specs.Transcripts.{IsTranscript, Serves, without_memory};

use crate::answers::{Refusal, Reply};
use crate::end_proof::ProofKind;
use refutation_check::{accepted_is_entailed, lifted_pool_and_log_are_accepted};
use session_words::{Command, Step};
use swap_symmetry::laws::each_minimal_has_a_due_renaming_beside;
use translation_rules::laws::{local_clauses_say_what_is_left, refuted_units_are_impossible};

/// What a run from the start shows at a floor is due there, each scenario once; where a floor has ended, all that is due there
/// was shown.
pub fn a_run_is_sound()
    ensures { (p : Bounded) (s : State) → IsReached p s → IsSound p s }
{}

/// Where a session answers an end, each scenario that is minimal above the floor has a renaming that keeps the floor's atoms
/// and was shown there.
pub fn an_end_is_complete()
    ensures { (p : Bounded) → IsProblem p → IsSymmetric p → (s : State) → IsReached p s → (number : ℕ) (proof : ProofOfEnd) → MayAnswer p s Step.Next (Reply.End number proof)
        → (x : List ℕ) → IsMinimalAbove p (top_floor s) x → HasRenamingAmong p (top_floor s) (shown_here s) x }
{
    a_run_is_sound();
    each_minimal_has_a_due_renaming_beside();
}

/// Where all that is due was shown, no reply shows another scenario.
pub fn nothing_is_shown_when_all_was()
    ensures { (p : Bounded) (s : State) → ((x : List ℕ) → IsDue p (top_floor s) x → Contains (shown_here s) x)
        → (number : ℕ) (scenario : List ℕ) → MayAnswer p s Step.Next (Reply.Shown number scenario) → ⊥ }
{}

/// A step asks for one floor at most.
pub fn one_floor_is_asked_for()
    ensures { (p : Bounded) → IsProblem p → (s : State) (name : List ℕ) (names : List AtomNameType) (floor other : List ℕ) → AsksFor p s name names floor → AsksFor p s name names other → floor ≡ other }
{}

/// A run is one run after another, and leads to the state that the second leads to from the end of the first.
pub fn runs_join()
    ensures run { (p : Bounded) (s : State) (xs ys : List Exchange) → MachineRun p s (xs ++ ys) ↔ (MachineRun p s xs × MachineRun p (state_after s xs) ys) }
    ensures state { (s : State) (xs ys : List Exchange) → state_after s (xs ++ ys) ≡ state_after (state_after s xs) ys }
{}

/// A refusal, a spent budget among them, changes nothing: without that exchange the run is one too, to the same state.
pub fn a_refusal_changes_nothing()
    ensures run { (p : Bounded) (s : State) (xs ys : List Exchange) (step : StepType) (refusal : RefusalType)
        → MachineRun p s (xs ++ record { step = step; reply = Reply.Refused refusal } ∷ ys) → MachineRun p s (xs ++ ys) }
    ensures state { (s : State) (xs ys : List Exchange) (step : StepType) (refusal : RefusalType)
        → state_after s (xs ++ record { step = step; reply = Reply.Refused refusal } ∷ ys) ≡ state_after s (xs ++ ys) }
{
    runs_join();
}

/// Want of memory changes nothing: without these exchanges the run is one too, to the same state.
pub fn memory_changes_nothing()
    ensures run { (p : Bounded) (s : State) (xs : List Exchange) → MachineRun p s xs → MachineRun p s (without_memory xs) }
    ensures state { (s : State) (xs : List Exchange) → state_after s (without_memory xs) ≡ state_after s xs }
{}

/// Where a translation stands for a problem, a proof of an end over it shows that all that is due at the floor was shown.
pub fn a_proof_of_an_end_is_right()
    ensures { (p : Bounded) (t : Translated) → StandsFor p t → (floor : List ℕ) (shown : List (List ℕ)) → All (IsDue p floor) shown
        → (proof : ProofOfEnd) → Proves t floor ProofKind.End proof → IsCovered p floor shown proof.blocked → (x : List ℕ) → IsDue p floor x → Contains shown x }
{
    accepted_is_entailed();
    local_clauses_say_what_is_left();
}

/// Where a translation stands for a problem, a proof over it that no instance contains a floor is right.
pub fn a_proof_of_no_instance_is_right()
    ensures { (p : Bounded) (t : Translated) → StandsFor p t → (floor : List ℕ) (proof : ProofOfEnd) → Proves t floor ProofKind.NoInstance proof → ¬ IsPossible p floor }
{
    refuted_units_are_impossible();
}

/// A search that ends with the empty clause makes a proof: its log behind the imported steps, lifted over its local clauses.
pub fn a_refuting_part_makes_a_proof()
    ensures { (t : Translated) (pool : List LogStep) (part : Parted) (blocked : List (List ℕ)) → IsAccepted t.cnf.clauses pool → IsSearchLog (given_to t pool part) part.log
        → EndsEmpty part.log → RefutesWith t part.local (record { imported = length pool; blocked = blocked; pool = pool; log = part.log }) }
{
    lifted_pool_and_log_are_accepted();
}

/// The machine may answer an end, and the refusal of an augmentation that no instance allows, where their proofs are right over
/// a translation that stands for the problem.
pub fn evidence_makes_an_answer()
    ensures end { (p : Bounded) (t : Translated) → StandsFor p t → (s : State) → IsSound p s → ¬ IsTrue (has_ended (top_floor s) s)
        → (pool : List LogStep) (proof : ProofOfEnd) → IsEndShown t pool s proof → MayAnswer p s Step.Next (Reply.End (length (shown_here s)) proof) }
    ensures no_instance { (p : Bounded) (t : Translated) → StandsFor p t → (s : State) (name : List ℕ) (names : List AtomNameType) (floor : List ℕ)
        → AsksFor p s name names floor → length s.above < 64 → (pool : List LogStep) (proof : ProofOfEnd) → IsNoInstanceShown t pool floor proof
        → MayAnswer p s (Step.Augment name names) (Reply.Refused (Refusal.NoInstance proof)) }
{
    a_proof_of_an_end_is_right();
    a_proof_of_no_instance_is_right();
}

/// A transcript is a run, with one reply and one floor for each command.
pub fn a_transcript_is_a_run()
    ensures run { (p : Bounded) (old : State) (commands : List CommandType) (replies : List ReplyType) (floors : List (List ℕ)) (xs : List Exchange)
        → IsTranscript p old commands replies floors xs → MachineRun p old xs }
    ensures each { (p : Bounded) (old : State) (commands : List CommandType) (replies : List ReplyType) (floors : List (List ℕ)) (xs : List Exchange)
        → IsTranscript p old commands replies floors xs → (length replies ≡ length commands) × (length floors ≡ length commands) }
{
    runs_join();
}

/// The list that answers `all` has what is due at the floor, and nothing else.
pub fn an_all_lists_what_is_due()
    ensures { (p : Bounded) (old : State) (n : ℕ) (scenarios : List (List ℕ)) (xs : List Exchange) → IsSound p old → Serves p old (Command.All n) (Reply.All scenarios) xs
        → (x : List ℕ) → Contains scenarios x ↔ IsDue p (top_floor (state_after old xs)) x }
{
    runs_join();
}

/// `all` that is answered by a part shows just as many scenarios as it asks for.
pub fn a_part_is_as_many_as_were_asked()
    ensures { (p : Bounded) (old : State) (n first : ℕ) (scenarios : List (List ℕ)) (xs : List Exchange) → Serves p old (Command.All n) (Reply.Partly first scenarios) xs → length scenarios ≡ n }
{}

/// `back` undoes an augmentation: right behind it the state is as before both, and later the floors are.
pub fn back_undoes_an_augmentation()
    ensures at_once { (s : State) (floor : List ℕ) → after (after s (Reply.Augmented floor)) Reply.Back ≡ s }
    ensures later { (s : State) (floor : List ℕ) (xs : List Exchange) → All (λ x. KeepsFloors x.reply) xs → (after (state_after (after s (Reply.Augmented floor)) xs) Reply.Back).above ≡ s.above }
{}

/// No parts and no copies are work for each step.
pub fn nothing_done_is_work()
    ensures { (t : Translated) (pool : List LogStep) (s : State) (step : StepType) → IsWork t pool s step [] [] }
{}

/// A search makes at most one round more than it finds copies, which are distinct, and none of which was blocked.
pub fn rounds_find_new_copies()
    ensures few { (t : Translated) (floor : List ℕ) (shown blocked : List (List ℕ)) (rounds : List Round) (copies : List (List ℕ))
        → AreRounds t floor shown blocked rounds copies → (length copies ≤ length rounds) × (length rounds ≤ length copies + 1) }
    ensures new { (t : Translated) (floor : List ℕ) (shown blocked : List (List ℕ)) (rounds : List Round) (copies : List (List ℕ))
        → AreRounds t floor shown blocked rounds copies → All (λ c. ¬ Contains blocked c) copies × AllPairs (λ x y. x ≢ y) copies }
{}

/// Units add up: nothing done has none, each part adds its novel steps, and each copy one.
pub fn units_add_up()
    ensures none { (t : Translated) (pool : List LogStep) → units_in t pool [] [] ≡ 0 }
    ensures part { (t : Translated) (pool : List LogStep) (part : Parted) (parts : List Parted) (copies : List (List ℕ))
        → units_in t pool (part ∷ parts) copies ≡ novel_steps (given_to t pool part) part.log + units_in t pool parts copies }
    ensures copy { (t : Translated) (pool : List LogStep) (parts : List Parted) (found : List ℕ) (copies : List (List ℕ))
        → units_in t pool parts (found ∷ copies) ≡ units_in t pool parts copies + 1 }
{}
