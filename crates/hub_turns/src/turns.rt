// One call of the hub in one turn of a pass.
ghost use Rattle.std.specs.Prelude.{◌≡◌, List, IfOk, OnOk, OnErr, length};
ghost use mathlib.Core.List.{IsPrefix};
ghost use Rattle.refutation_check.specs.declared.log.Step.{Step as LogStep};
ghost use Rattle.refutation_check.specs.Chain.{members_of, IsAccepted};
ghost use Rattle.translation_rules.specs.Translation.{Translated};
ghost use Rattle.hub_state.specs.Journal.Noted.{Imported as WasImported, Shared as WasShared, Opened as WasOpened, Recorded as WasRecorded};
ghost use Rattle.hub_state.specs.Journal.Journal.{IsPublished, HasImported, IsPool, pool_of};
ghost use Rattle.hub_turns.specs.Groups.{SharesFront};
ghost use Rattle.hub_state.specs.HubView.{HasTranslation};
ghost use Rattle.hub_turns.specs.Turned.{IsIdle, WentOn, HasAdded, HasPublished, IsOfKey, MayAdd};

use crate::in_turn::{import_held, open_held, publish_held, record_held, share_held};
use hub_lock::{Pass, Turns};
use hub_state::Hub;
use refutation_check::Log;
use session_rules::{Reply, Step};
use std::alloc::{AllocError, Global};
use std::sync::{Arc, Wait};
use translation::Translation;

/// Publishes the translation of the key's problem, and answers the key's translation: the first that was published. Adds an
/// entry where there was none. After an error nothing was added.
pub fn publish<R: Wait>(
    rt: &R,
    lock: &Turns<Hub>,
    pass: &mut Pass<Hub>,
    key: u32,
    t: Arc<Translation>,
) -> Result<Arc<Translation>, AllocError>
    requires idle { IsIdle lock.now pass.old }
    requires key { IsOfKey pass.old key t.value }
    ensures goes { WentOn lock.now pass.old pass.new }
    ensures added { IfOk result (λ kept. HasPublished pass.old pass.new key t.value kept.value) }
    ensures kept { IfOk result (λ kept. IsPublished pass.new.view.seen key kept.value) }
    ensures err { OnErr result (pass.new.view.own ≡ pass.old.view.own) }
{
    let by = pass.number();
    let mut held = lock.take(rt, pass);
    let kept = publish_held(&mut held, by, key, t);
    lock.give(pass, held);
    kept
}

/// Puts behind steps that begin the pool of a key that has its translation all that came since: so they are the whole pool, which
/// is an accepted log over the translation's clauses. Adds an entry that names the pool's length. After an error nothing was
/// added, and the steps still begin the pool.
pub fn import<R: Wait>(
    rt: &R,
    alloc: Global,
    lock: &Turns<Hub>,
    pass: &mut Pass<Hub>,
    key: u32,
    have: &mut Log,
) -> Result<(), AllocError>
    requires idle { IsIdle lock.now pass.old }
    requires published { HasTranslation pass.old.view.seen key }
    requires begins { IsPrefix have.old (pool_of key pass.old.view.seen) }
    ensures goes { WentOn lock.now pass.old pass.new }
    ensures added { OnOk result (HasAdded pass.old pass.new (WasImported key (length have.new))) }
    ensures pool { OnOk result (have.new ≡ pool_of key pass.new.view.seen) }
    ensures imported { (t : Translated) → IsPublished pass.old.view.seen key t → OnOk result (HasImported pass.new.view.seen pass.old.view.number key t have.new × IsPool t have.new) }
    ensures grows { IsPrefix have.old have.new }
    ensures begins { IsPrefix have.new (pool_of key pass.new.view.seen) }
    ensures err { OnErr result (pass.new.view.own ≡ pass.old.view.own) }
{
    let by = pass.number();
    let mut held = lock.take(rt, pass);
    let imported = import_held(alloc, &mut held, by, key, have);
    lock.give(pass, held);
    imported
}

/// Adds to the key's pool as many of the steps, the first ones, as fit its limits, and answers how many they are. The steps go
/// on from the pool that the pass imported last, which has `at` steps, over the clauses of the key's translation alone. Adds an
/// entry with the steps as they came into the pool. After an error nothing was added.
pub fn share<R: Wait>(
    rt: &R,
    alloc: Global,
    lock: &Turns<Hub>,
    pass: &mut Pass<Hub>,
    key: u32,
    at: u32,
    free: &Log,
) -> Result<u32, AllocError>
    requires idle { IsIdle lock.now pass.old }
    requires imported { (t : Translated) × (pool : List LogStep) × HasImported pass.old.view.seen pass.old.view.number key t pool × (at ≡ length pool) × IsAccepted (members_of t.cnf.clauses pool) free.now }
    ensures goes { WentOn lock.now pass.old pass.new }
    ensures added { (t : Translated) → IsPublished pass.old.view.seen key t
        → IfOk result (λ n. (shared : List LogStep) × (n ≡ length shared) × HasAdded pass.old pass.new (WasShared key shared) × SharesFront t pass.old.view.number key at free.now pass.new.view.seen) }
    ensures stays { (t : Translated) (pool : List LogStep) → HasImported pass.old.view.seen pass.old.view.number key t pool → HasImported pass.new.view.seen pass.old.view.number key t pool }
    ensures err { OnErr result (pass.new.view.own ≡ pass.old.view.own) }
{
    let by = pass.number();
    let mut held = lock.take(rt, pass);
    let count = share_held(alloc, &mut held, by, key, at, free);
    lock.give(pass, held);
    count
}

/// Adds that a session of the pass's number was opened, on the problem of this key, with this budget. After an error nothing was
/// added.
pub fn record_opening<R: Wait>(
    rt: &R,
    lock: &Turns<Hub>,
    pass: &mut Pass<Hub>,
    key: u32,
    budget: u32,
) -> Result<(), AllocError>
    requires idle { IsIdle lock.now pass.old }
    requires may { MayAdd pass.old (WasOpened key budget) }
    ensures goes { WentOn lock.now pass.old pass.new }
    ensures ok { OnOk result (HasAdded pass.old pass.new (WasOpened key budget)) }
    ensures err { OnErr result (pass.new.view.own ≡ pass.old.view.own) }
{
    let by = pass.number();
    let mut held = lock.take(rt, pass);
    let opened = open_held(&mut held, by, key, budget);
    lock.give(pass, held);
    opened
}

/// Adds a step with its reply, which the session of the pass's number may record by all that the pass has seen. After an error
/// nothing was added.
pub fn record_step<R: Wait>(
    rt: &R,
    lock: &Turns<Hub>,
    pass: &mut Pass<Hub>,
    step: Step,
    reply: Reply,
) -> Result<(), AllocError>
    requires idle { IsIdle lock.now pass.old }
    requires may { MayAdd pass.old (WasRecorded step reply) }
    ensures goes { WentOn lock.now pass.old pass.new }
    ensures ok { OnOk result (HasAdded pass.old pass.new (WasRecorded step reply)) }
    ensures err { OnErr result (pass.new.view.own ≡ pass.old.view.own) }
{
    let by = pass.number();
    let mut held = lock.take(rt, pass);
    let recorded = record_held(&mut held, by, step, reply);
    lock.give(pass, held);
    recorded
}
