// Commands of a session over the hub.
ghost use Rattle.std.specs.Prelude.{◌≡◌, ◌≤◌, ◌+◌, ℕ};
ghost use Rattle.script_format.specs.Limits.{IsAllowed};
ghost use Rattle.script_format.specs.Reading.{asks};
ghost use Rattle.session_rules.specs.States.{top_floor};
ghost use Rattle.session_turns.specs.Serving.{IsPrintable};
ghost use Rattle.hub_turns.specs.Turned.{WentOn};
ghost use Rattle.session_turns.specs.Added.{HasServed};
ghost use Rattle.session_turns.specs.Allowed.{cost_of, MayLeave};
ghost use Rattle.session_turns.specs.Seated.{IsSeated, BeginsPool};

use crate::showing::show_all;
use crate::steps::take_step;
use hub_lock::{Pass, Turns};
use hub_state::Hub;
use refutation_check::Log;
use session_rules::Reply;
use session_state::search_rounds::StepCount;
use session_state::session_search::Session;
use session_words::Command;
use std::alloc::Global;
use std::sync::Wait;
use translation::Translation;

/// Answers a command of the session of the pass's number, in turns of the pass. Each step that a search answers imports the pool
/// of the session's key first, shares the search's free steps, and is recorded before the session takes its reply in. `all` does
/// so for each scenario; what was shown before it was refused, or wanted memory, stays shown and recorded. The first import of a
/// command brings the whole pool, the later ones of `all` what came since.
///
/// The session is one over the translation of its key, which the pass has seen, and has shown at most 20,000 scenarios with those
/// that the command asks for. A budget is at most 100,000, and `all` asks for some scenario. Whatever comes of the command, its
/// searches raise the count by no more than it may cost.
pub fn command<R: Wait>(
    rt: &R,
    alloc: Global,
    lock: &Turns<Hub>,
    pass: &mut Pass<Hub>,
    session: &mut Session,
    translation: &Translation,
    command: &Command,
    count: &mut StepCount,
) -> Reply
    requires seated { (shown : ℕ) × IsSeated lock.now translation.now shown pass.old session.old × (shown + asks command.now ≤ 20000) }
    requires allowed { IsAllowed command.now }
    ensures goes { WentOn lock.now pass.old pass.new }
    ensures served { HasServed translation.now pass.old pass.new session.old session.new command.now result }
    ensures printable { IsPrintable translation.now (top_floor session.old.kept.state) result }
    ensures seated { (shown : ℕ) → IsSeated lock.now translation.now shown pass.old session.old → IsSeated lock.now translation.now (shown + asks command.now) pass.new session.new }
    ensures key { session.new.key ≡ session.old.key }
    ensures spent { count.new ≤ count.old + cost_of session.old.kept.state.budget command.now }
    ensures budget { MayLeave session.old.kept.state.budget command.now session.new.kept.state.budget }
{
    let mut pool = Log::new(alloc);
    answer(
        rt,
        alloc,
        lock,
        pass,
        session,
        &mut pool,
        translation,
        command,
        count,
    )
}

/// Answers a command of a session that has these steps of its key's pool: an import puts only those behind them that came since.
pub(crate) fn answer<R: Wait>(
    rt: &R,
    alloc: Global,
    lock: &Turns<Hub>,
    pass: &mut Pass<Hub>,
    session: &mut Session,
    pool: &mut Log,
    translation: &Translation,
    command: &Command,
    count: &mut StepCount,
) -> Reply
    requires seated { (shown : ℕ) × IsSeated lock.now translation.now shown pass.old session.old × (shown + asks command.now ≤ 20000) }
    requires allowed { IsAllowed command.now }
    requires begins { BeginsPool pool.old pass.old session.old }
    ensures goes { WentOn lock.now pass.old pass.new }
    ensures served { HasServed translation.now pass.old pass.new session.old session.new command.now result }
    ensures printable { IsPrintable translation.now (top_floor session.old.kept.state) result }
    ensures seated { (shown : ℕ) → IsSeated lock.now translation.now shown pass.old session.old → IsSeated lock.now translation.now (shown + asks command.now) pass.new session.new }
    ensures key { session.new.key ≡ session.old.key }
    ensures spent { count.new ≤ count.old + cost_of session.old.kept.state.budget command.now }
    ensures budget { MayLeave session.old.kept.state.budget command.now session.new.kept.state.budget }
    ensures begins { BeginsPool pool.new pass.new session.new }
{
    match command {
        Command::Step(step) => take_step(
            rt,
            alloc,
            lock,
            pass,
            session,
            pool,
            translation,
            step,
            count,
        ),
        Command::All(wanted) => show_all(
            rt,
            alloc,
            lock,
            pass,
            session,
            pool,
            translation,
            *wanted,
            count,
        ),
    }
}
