// What a turn does to the hub that it holds.
ghost use Rattle.std.specs.Prelude.{◌≡◌, Some, IfOk, OnOk, OnErr, length, slice_get, take};
ghost use mathlib.Core.List.{IsPrefix};
ghost use Rattle.clause_pool.specs.Limits.{IsLongestFit};
ghost use Rattle.translation_rules.specs.Translation.{Translated};
ghost use Rattle.hub_state.specs.Journal.Noted.{Imported as WasImported, Shared as WasShared, Opened as WasOpened, Recorded as WasRecorded};
ghost use Rattle.hub_state.specs.Journal.Journal.{IsPublished, MayFollow, pool_of};
ghost use Rattle.hub_state.specs.HubView.{with_entry, HasTranslation, IsPublishing, GoesOn, moved};
ghost use Rattle.hub_turns.specs.Turned.{Leaves};

use hub_lock::Held;
use hub_state::{Event, Hub};
use refutation_check::Log;
use session_rules::{Reply, Step};
use std::alloc::{AllocError, Global};
use std::sync::Arc;
use translation::Translation;

/// Publishes the translation of the key's problem, where none was published.
pub(crate) fn publish_held(
    held: &mut Held<Hub>,
    by: u32,
    key: u32,
    t: Arc<Translation>,
) -> Result<Arc<Translation>, AllocError>
    requires { slice_get held.old.value.problems key ≡ Some t.value.problem }
    ensures pass { held.new.pass ≡ held.old.pass }
    ensures leaves { Leaves by held.old.value held.new.value }
    ensures entry { IfOk result (λ kept. IsPublishing held.old.value by key t.value held.new.value kept.value) }
    ensures kept { IfOk result (λ kept. IsPublished held.new.value.journal key kept.value) }
    ensures err { OnErr result (held.new.value ≡ held.old.value) }
{
    let kept = held.get_mut().publish(by, key, t);
    let _ = held.get().journal(); // for the proof
    kept
}

/// Puts behind steps that begin the key's pool all that came since.
pub(crate) fn import_held(
    alloc: Global,
    held: &mut Held<Hub>,
    by: u32,
    key: u32,
    have: &mut Log,
) -> Result<(), AllocError>
    requires published { HasTranslation held.old.value.journal key }
    requires begins { IsPrefix have.old (pool_of key held.old.value.journal) }
    ensures pass { held.new.pass ≡ held.old.pass }
    ensures leaves { Leaves by held.old.value held.new.value }
    ensures pool { OnOk result (have.new ≡ pool_of key held.old.value.journal) }
    ensures grows { IsPrefix have.old have.new }
    ensures begins { IsPrefix have.new (pool_of key held.old.value.journal) }
    ensures entry { OnOk result (held.new.value ≡ with_entry held.old.value by (WasImported key (length (pool_of key held.old.value.journal)))) }
    ensures err { OnErr result (held.new.value ≡ held.old.value) }
{
    let imported = held.get_mut().import_behind(alloc, by, key, have);
    let _ = held.get().journal(); // for the proof
    imported
}

/// Adds to the key's pool what fits of the steps.
pub(crate) fn share_held(
    alloc: Global,
    held: &mut Held<Hub>,
    by: u32,
    key: u32,
    at: u32,
    free: &Log,
) -> Result<u32, AllocError>
    requires { GoesOn held.old.value.journal key at free.now }
    ensures pass { held.new.pass ≡ held.old.pass }
    ensures leaves { Leaves by held.old.value held.new.value }
    ensures entry { (t : Translated) → IsPublished held.old.value.journal key t → IfOk result (λ n. held.new.value ≡ with_entry held.old.value by (WasShared key (take n (moved held.old.value.journal key t at free.now)))) }
    ensures longest { (t : Translated) → IsPublished held.old.value.journal key t → IfOk result (λ n. IsLongestFit (pool_of key held.old.value.journal) (moved held.old.value.journal key t at free.now) n) }
    ensures err { OnErr result (held.new.value ≡ held.old.value) }
{
    let count = held.get_mut().share(alloc, by, key, at, free);
    let _ = held.get().journal(); // for the proof
    count
}

/// Appends that a session was opened.
pub(crate) fn open_held(
    held: &mut Held<Hub>,
    by: u32,
    key: u32,
    budget: u32,
) -> Result<(), AllocError>
    requires { MayFollow held.old.value.problems held.old.value.journal by (WasOpened key budget) }
    ensures pass { held.new.pass ≡ held.old.pass }
    ensures leaves { Leaves by held.old.value held.new.value }
    ensures ok { OnOk result (held.new.value ≡ with_entry held.old.value by (WasOpened key budget)) }
    ensures err { OnErr result (held.new.value ≡ held.old.value) }
{
    let opened = held.get_mut().record(by, Event::Opened { key, budget });
    let _ = held.get().journal(); // for the proof
    opened
}

/// Appends a step with its reply.
pub(crate) fn record_held(
    held: &mut Held<Hub>,
    by: u32,
    step: Step,
    reply: Reply,
) -> Result<(), AllocError>
    requires { MayFollow held.old.value.problems held.old.value.journal by (WasRecorded step reply) }
    ensures pass { held.new.pass ≡ held.old.pass }
    ensures leaves { Leaves by held.old.value held.new.value }
    ensures ok { OnOk result (held.new.value ≡ with_entry held.old.value by (WasRecorded step reply)) }
    ensures err { OnErr result (held.new.value ≡ held.old.value) }
{
    let recorded = held.get_mut().record(by, Event::Recorded { step, reply });
    let _ = held.get().journal(); // for the proof
    recorded
}
