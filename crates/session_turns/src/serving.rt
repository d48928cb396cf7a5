// Whole sessions.
ghost use Rattle.std.specs.Prelude.{◌≡◌, ◌≤◌, ◌<◌, ◌+◌, ◌^◌, ℕ, List, Some, length, All, IfOk};
ghost use Rattle.rel_formula.specs.Bounds.{Bounded};
ghost use Rattle.script_format.specs.Limits.{IsAllowed, asked_by};
ghost use Rattle.hub_turns.specs.Turned.{WentOn};
ghost use Rattle.session_turns.specs.Allowed.{allowed};
ghost use Rattle.session_turns.specs.Seated.{IsSeated};
ghost use Rattle.session_turns.specs.Served.{IsOpened, IsServedScript};

use crate::commands::answer;
use hub_lock::{Gate, Pass, Turns};
use hub_state::Hub;
use refutation_check::Log;
use session_rules::laws::a_run_is_sound;
use session_rules::{Replies, Scenarios, Transcript};
use session_state::search_rounds::StepCount;
use session_state::session_search::Session;
use session_words::Command;
use std::alloc::{AllocError, Global};
use std::sync::Wait;
use translation::Translation;

/// Serves a session that was just opened to the last of its commands, in turns of its pass: one reply for each, and the top floor
/// before it. The gate is passed before each command, with the session's place and the command's.
///
/// The session keeps what it imported, so that each later import brings only what came since. At the end it lets go of what its searches
/// left for those to come, as it is asked nothing more.
///
/// Whatever comes of them, the searches for all commands together raise the count by no more than these may cost.
///
/// What the pass has then seen tells the transcript, which can be printed over the translation. The commands are fewer than 2^32,
/// and ask for at most 20,000 scenarios. Where a command wants memory its reply says so, and the next one is served; the error
/// comes only for want of memory for the replies and the floors.
pub fn serve_session<R: Wait, G: Gate>(
    rt: &R,
    alloc: Global,
    lock: &Turns<Hub>,
    gate: &G,
    place: u32,
    pass: &mut Pass<Hub>,
    session: &mut Session,
    translation: &Translation,
    commands: &[Command],
    count: &mut StepCount,
) -> Result<Transcript, AllocError>
    requires seated { IsSeated lock.now translation.now 0 pass.old session.old }
    requires allowed { All IsAllowed commands.now }
    requires asked { asked_by commands.now ≤ 20000 }
    requires few { length commands.now < 2 ^ 32 }
    ensures goes { WentOn lock.now pass.old pass.new }
    ensures served { (problems : List Bounded) (key budget : ℕ) → pass.old.view.base ≡ Some problems → IsOpened key budget pass.old session.old
        → IfOk result (λ x. IsServedScript problems pass.new.view.seen translation.now pass.new.view.number key budget commands.now x) }
    ensures spent { count.new ≤ count.old + allowed session.old.kept.state.budget commands.now }
{
    a_run_is_sound();
    let mut pool = Log::new(alloc);
    let mut replies = Vec::with_capacity(alloc, commands.len())?;
    let mut floors = Vec::with_capacity(alloc, commands.len())?;
    for (number, asked) in commands.iter().enumerate() {
        gate.pass(place, number as u32);
        floors.push_reserved(session.floor().copy(alloc)?);
        replies.push_reserved(answer(
            rt,
            alloc,
            lock,
            pass,
            session,
            &mut pool,
            translation,
            asked,
            count,
        ));
    }
    session.let_go();
    Ok(Transcript {
        replies: Replies::of(replies),
        floors: Scenarios::of(floors),
    })
}
