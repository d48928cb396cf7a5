// Laws of what sessions add to a journal: each is the contract of a function that does nothing.
ghost use Rattle.std.specs.Prelude.{◌≡◌, ◌≢◌, ◌++◌, ◌∷◌, ℕ, List, Some, slice_get, All};
ghost use mathlib.Core.List.{IsPrefix};
ghost use Rattle.hub_lock.specs.Passes.{of_pass};
ghost use Rattle.refutation_check.specs.declared.log.Step.{Step as LogStep};
ghost use Rattle.rel_formula.specs.Bounds.{Bounded};
ghost use Rattle.translation_rules.specs.Translation.{Translated, StandsFor};
ghost use Rattle.session_words.specs.declared.commands.Command.{Command as CommandType};
ghost use Rattle.session_words.specs.declared.steps.Step.{Step as StepType};
ghost use Rattle.session_rules.specs.States.{State, Start};
ghost use Rattle.session_rules.specs.Steps.{Exchange};
ghost use Rattle.session_rules.specs.Transcripts.{without_memory};
ghost use Rattle.session_rules.specs.declared.answers.Reply.{Reply as ReplyType};
ghost use Rattle.hub_state.specs.Journal.Noted.{Note, Noted, Opened as WasOpened, Recorded as WasRecorded};
ghost use Rattle.hub_state.specs.Journal.Journal.{HasImported, IsPublished, exchanges_of, IsPool, IsReplay, MayFollow, IsLegal};
ghost use Rattle.hub_state.specs.Journal.Told.{IsTold};
ghost use Rattle.hub_turns.specs.Backed.{AreBacked};
ghost use Rattle.hub_turns.specs.Groups.{notes_of, AreGroups};
ghost use Rattle.hub_turns.specs.Interleaved.{IsServedBy};

/// What was published is the translation of the key's problem, and stands for it.
pub fn what_was_published_stands()
    ensures { (problems : List Bounded) (journal : List Noted) → IsLegal problems journal → (key : ℕ) (t : Translated) → IsPublished journal key t
        → (slice_get problems key ≡ Some t.problem) × StandsFor t.problem t }
{}

/// What a session did is told by the entries under its number. Where a journal has the same entries under a number as an
/// earlier one, all that came since is of others.
pub fn own_entries_tell_all()
    ensures exchanges { (by : ℕ) (journal : List Noted) → exchanges_of by (of_pass (λ x. x.by) by journal) ≡ exchanges_of by journal }
    ensures replay { (problems : List Bounded) (journal : List Noted) (by key : ℕ) (problem : Bounded) (s : State)
        → IsReplay problems (of_pass (λ x. x.by) by journal) by key problem s → IsReplay problems journal by key problem s }
    ensures others { (by : ℕ) (seen journal : List Noted) → IsPrefix seen journal → of_pass (λ x. x.by) by journal ≡ of_pass (λ x. x.by) by seen
        → (rest : List Noted) × (journal ≡ seen ++ rest) × All (λ x. x.by ≢ by) rest }
{}

/// Others take nothing away: what was published stays, and so does what a session imported last, which is a pool over the key's
/// translation; and what it may open or record by all that it has seen, it may whatever they have added since.
pub fn others_take_nothing_away()
    ensures published { (seen journal : List Noted) → IsPrefix seen journal → (key : ℕ) (t : Translated) → IsPublished seen key t → IsPublished journal key t }
    ensures imported { (problems : List Bounded) (seen journal : List Noted) → IsLegal problems seen → IsPrefix seen journal → (by key : ℕ)
        → of_pass (λ x. x.by) by journal ≡ of_pass (λ x. x.by) by seen → (t : Translated) (pool : List LogStep) → HasImported seen by key t pool → HasImported journal by key t pool }
    ensures pool { (problems : List Bounded) (journal : List Noted) → IsLegal problems journal → (by key : ℕ) (t : Translated) (pool : List LogStep)
        → HasImported journal by key t pool → IsPool t pool }
    ensures opened { (problems : List Bounded) (seen journal : List Noted) → IsPrefix seen journal → (by key budget : ℕ)
        → of_pass (λ x. x.by) by journal ≡ of_pass (λ x. x.by) by seen → MayFollow problems seen by (WasOpened key budget) → MayFollow problems journal by (WasOpened key budget) }
    ensures recorded { (problems : List Bounded) (seen journal : List Noted) → IsLegal problems seen → IsPrefix seen journal → (by : ℕ) (step : StepType) (reply : ReplyType)
        → of_pass (λ x. x.by) by journal ≡ of_pass (λ x. x.by) by seen → MayFollow problems seen by (WasRecorded step reply) → MayFollow problems journal by (WasRecorded step reply) }
{}

/// Groups one after the other are groups, and record what their exchanges have but for want of memory.
pub fn groups_tell_what_was_recorded()
    ensures join { (key : ℕ) (xs ys : List Exchange) (notes more : List Note) → AreGroups key xs notes → AreGroups key ys more → AreGroups key (xs ++ ys) (notes ++ more) }
    ensures recorded { (by key budget : ℕ) (journal : List Noted) (xs : List Exchange) (groups : List Note) → notes_of by journal ≡ WasOpened key budget ∷ groups → AreGroups key xs groups
        → exchanges_of by journal ≡ without_memory xs }
{}

/// What a legal journal tells of a session is backed, over the translation of the session's key.
pub fn a_told_session_is_backed()
    ensures { (problems : List Bounded) (journal : List Noted) → IsLegal problems journal
        → (number key budget : ℕ) (commands : List CommandType) (replies : List ReplyType) (floors : List (List ℕ)) → (told : IsTold problems journal number key budget commands replies floors)
        → (t : Translated) → IsPublished journal key t → AreBacked t (Start budget) told.exchanges }
{}

/// What a session did stays, whatever others add.
pub fn what_a_session_did_stays()
    ensures { (problems : List Bounded) (seen journal : List Noted) (t : Translated) (number key budget : ℕ) (commands : List CommandType) (replies : List ReplyType) (floors : List (List ℕ))
        → IsPrefix seen journal → of_pass (λ x. x.by) number journal ≡ of_pass (λ x. x.by) number seen
        → IsServedBy problems seen t number key budget commands replies floors → IsServedBy problems journal t number key budget commands replies floors }
{}
