// The numbers of commands on which sessions are.
ghost use Rattle.std.specs.Prelude.{◌≡◌, ◌++◌, ◌∷◌, [], List};
ghost use Rattle.script_format.specs.declared.entries.SessionEntry.{SessionEntry as SessionData};
ghost use Rattle.served_models.specs.Served.{IsNext};

use script_format::SessionEntry;

/// Of the numbers, from this one on, of commands of the model at this place on which sessions are, the least.
pub fn next_asked(sessions: &[SessionEntry], place: usize, from: u64) -> Option<u32>
    ensures { IsNext sessions.now place from result }
{
    let mut least = None;
    for session in sessions {
        least = with_session(least, place, from, session);
    }
    least
}

// The least such number, with one session more.
fn with_session(least: Option<u32>, place: usize, from: u64, session: &SessionEntry) -> Option<u32>
    ensures { (sessions : List SessionData) → IsNext sessions place from least → IsNext (sessions ++ session.now ∷ []) place from result }
{
    if session.model as usize != place || u64::from(session.number) < from {
        return least;
    }
    match least {
        Some(number) => Some(number.min(session.number)),
        None => Some(session.number),
    }
}
