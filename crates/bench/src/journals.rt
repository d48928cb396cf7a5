// Recording in the journal of a hub.
ghost use Rattle.std.specs.Prelude.{◌≡◌, ◌*◌, ◌^◌, ◌<◌, ◌≤◌, [], ◌∷◌, All, IfOk, OnOk, length};
ghost use Rattle.rel_formula.specs.Kernel.{conjunction, no_formulas};
ghost use Rattle.bench.specs.Journals.{with_session};

use hub_state::{Event, Hub};
use rel_formula::{Formula, Problem, Scenario};
use session_rules::{Reply, Step};
use std::alloc::{AllocError, Global};

// The most sessions that are recorded.
const MOST_SESSIONS: u32 = 1_000_000;

/// Records for so many sessions, at most a million, that each was opened and was shown a scenario, and gives the number of
/// the journal's entries: two for each.
pub fn recorded(alloc: Global, sessions: u32) -> Result<u32, AllocError>
    ensures { sessions ≤ 1000000 → IfOk result (λ entries. entries ≡ 2 * sessions) }
{
    let mut hub = hub_of_one(alloc)?;
    let count = sessions.min(MOST_SESSIONS);
    for session in 0..count {
        record_session(alloc, &mut hub, session)?;
    }
    Ok(entries_of(&hub))
}

// The number of the journal's entries.
fn entries_of(hub: &Hub) -> u32
    requires { length hub.now.journal < 2 ^ 32 }
    ensures { result ≡ length hub.now.journal }
{
    let length = hub.journal().len();
    let entries = length as u32;
    entries
}

// A hub of the problem without relations whose formula is always true.
fn hub_of_one(alloc: Global) -> Result<Hub, AllocError>
    ensures { IfOk result (λ h. h ≡ record { problems = record { relations = []; tops = []; formula = conjunction no_formulas } ∷ []; journal = [] }) }
{
    let formula = Formula::all_of(Vec::new(alloc));
    let problem = Problem::of(alloc, Vec::new(alloc), Vec::new(alloc), formula)?;
    let mut problems = Vec::new(alloc);
    problems.push(problem)?;
    Ok(Hub::new(alloc, problems)?)
}

// Records that a session was opened on that problem, and that it was shown the empty scenario.
fn record_session(alloc: Global, hub: &mut Hub, session: u32) -> Result<(), AllocError>
    requires problems { hub.old.problems ≡ record { relations = []; tops = []; formula = conjunction no_formulas } ∷ [] }
    requires others { All (λ x. x.by < session) hub.old.journal }
    ensures { OnOk result (hub.new ≡ with_session hub.old session) }
{
    hub.record(session, Event::Opened { key: 0, budget: 5 })?;
    let reply = Reply::Shown {
        number: 1,
        scenario: Scenario::new(alloc),
    };
    hub.record(
        session,
        Event::Recorded {
            step: Step::Next,
            reply,
        },
    )?;
    Ok(())
}
