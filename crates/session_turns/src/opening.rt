// Sessions begin.
ghost use Rattle.std.specs.Prelude.{◌≡◌, ◌≤◌, [], IfOk, OnErr};
ghost use Rattle.translation_rules.specs.Translation.{Translated};
ghost use Rattle.session_rules.specs.States.{Start};
ghost use Rattle.hub_state.specs.Journal.Noted.{Opened as WasOpened};
ghost use Rattle.hub_state.specs.Journal.Journal.{IsPublished};
ghost use Rattle.hub_state.specs.HubView.{HasTranslation};
ghost use Rattle.hub_turns.specs.Turned.{IsIdle, WentOn, HasAdded};
ghost use Rattle.session_turns.specs.Seated.{IsSeated};
ghost use Rattle.session_turns.specs.Served.{IsOpened};

use hub_lock::{Pass, Turns};
use hub_state::Hub;
use hub_turns::journal_laws::what_was_published_stands;
use hub_turns::record_opening;
use session_state::session_search::Session;
use std::alloc::{AllocError, Global};
use std::sync::Wait;

/// Opens the session of the pass's number, on the problem of this key, with this budget, which is at most 100,000. The pass has
/// no entries yet, and has seen the key's translation. After an error nothing was added.
pub fn open_session<R: Wait>(
    rt: &R,
    alloc: Global,
    lock: &Turns<Hub>,
    pass: &mut Pass<Hub>,
    key: u32,
    budget: u32,
) -> Result<Session, AllocError>
    requires idle { IsIdle lock.now pass.old }
    requires none { pass.old.view.own ≡ [] }
    requires published { HasTranslation pass.old.view.seen key }
    requires budget { budget ≤ 100000 }
    ensures goes { WentOn lock.now pass.old pass.new }
    ensures session { IfOk result (λ session. (session.key ≡ key) × (session.kept.state ≡ Start budget)) }
    ensures added { IfOk result (λ _. HasAdded pass.old pass.new (WasOpened key budget)) }
    ensures opened { IfOk result (IsOpened key budget pass.new) }
    ensures seated { (t : Translated) → IsPublished pass.old.view.seen key t → IfOk result (λ session. IsSeated lock.now t 0 pass.new session) }
    ensures err { OnErr result (pass.new.view.own ≡ pass.old.view.own) }
{
    what_was_published_stands();
    let session = Session::new(alloc, pass.number(), key, budget)?;
    record_opening(rt, lock, pass, key, budget)?;
    Ok(session)
}
