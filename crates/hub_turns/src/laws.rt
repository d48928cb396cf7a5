// A law of the definitions: it is the contract of a function that does nothing.
ghost use Rattle.std.specs.Prelude.{◌≡◌, ◌+◌, List, []};
ghost use Rattle.atomic_table.specs.Seated.{TableId};
ghost use Rattle.hub_lock.specs.Passes.{PassView, of_pass, first_view, splitting, split_off, joining};
ghost use Rattle.rel_formula.specs.Bounds.{Bounded};
ghost use Rattle.hub_state.specs.Journal.Noted.{Noted};
ghost use Rattle.hub_turns.specs.Turned.{IsIdle};

/// The first pass of a new lock round a hub is idle; a pass that is split off from an idle one is, as is the one that it is split
/// off from; and so is an idle pass that takes another one back.
pub fn passes_stay_idle()
    ensures first { (lock : TableId) (problems : List Bounded) (p : PassView Noted (List Bounded)) → p.lock ≡ lock → p.view ≡ first_view problems → IsIdle lock p }
    ensures split { (lock : TableId) (old new other : PassView Noted (List Bounded)) → IsIdle lock old → (new.lock ≡ old.lock) × (other.lock ≡ old.lock) → new.view ≡ splitting old.view → other.view ≡ split_off old.view
        → of_pass (λ x. x.by) (old.view.made + 1) old.view.seen ≡ [] → IsIdle lock new × IsIdle lock other }
    ensures joined { (lock : TableId) (old new other : PassView Noted (List Bounded)) → IsIdle lock old → IsIdle lock other → old.view.base ≡ other.view.base → new.lock ≡ old.lock → new.view ≡ joining old.view other.view
        → of_pass (λ x. x.by) old.view.number new.view.seen ≡ new.view.own → IsIdle lock new }
{}
