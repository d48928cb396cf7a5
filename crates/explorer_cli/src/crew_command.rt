// What `crew` answers.
ghost use Rattle.std.specs.Prelude.{◌≡◌, ◌≤◌, ◌⊎◌, IfOk};
ghost use Rattle.command_words.specs.declared.reading.Command.TheVariants.{Crew};
ghost use Rattle.explorer_cli.specs.Keys.{KeepsToLimits};
ghost use Rattle.explorer_cli.specs.Outcome.{IsAnswerTo, IsAnswerToScript};

use crate::crew_texts::text_of_crews;
use crate::scripts::script_of;
use explorer_run::Gate;
use lowering_rules::LowerStop;
use lowering_rules::laws::problems_are_symmetric;
use outside_io::Status;
use proof_command::Answer;
use script_format::Script;
use served_models::{Models, Purpose, read_models};
use std::alloc::Global;
use std::sync::Wait;
use std::thread::Threads;

/// The answer of `crew` to the bytes of its input: each command on which sessions are is given to a crew of so many workers, with
/// this budget.
pub fn answer_of_crew<R: Threads + Wait + Sync, G: Gate + Sync>(
    rt: &R,
    alloc: Global,
    gate: &G,
    workers: u32,
    budget: u32,
    bytes: &[u8],
) -> Result<Answer, LowerStop>
    requires workers { (1 ≤ workers) × (workers ≤ 16) }
    requires budget { budget ≤ 100000 }
    ensures answer { IfOk result (λ a. IsAnswerTo (Crew workers budget) bytes.now a.status a.text.items) }
    ensures status { IfOk result (λ a. (a.status ≡ Status.Done) ⊎ (a.status ≡ Status.InputRefused) ⊎ (a.status ≡ Status.ModelRefused)) }
{
    match script_of(alloc, bytes)? {
        Ok(script) => Ok(answer_script(rt, alloc, gate, workers, budget, &script)?),
        Err(answer) => Ok(answer),
    }
}

// The answer to a script.
fn answer_script<R: Threads + Wait + Sync, G: Gate + Sync>(
    rt: &R,
    alloc: Global,
    gate: &G,
    workers: u32,
    budget: u32,
    script: &Script,
) -> Result<Answer, LowerStop>
    requires workers { (1 ≤ workers) × (workers ≤ 16) }
    requires budget { budget ≤ 100000 }
    requires limits { KeepsToLimits script.now }
    ensures answer { IfOk result (λ a. IsAnswerToScript (Crew workers budget) script.now a.status a.text.items) }
    ensures status { IfOk result (λ a. (a.status ≡ Status.Done) ⊎ (a.status ≡ Status.InputRefused) ⊎ (a.status ≡ Status.ModelRefused)) }
{
    problems_are_symmetric();
    let sessions = script.sessions.entries();
    let entries = script.models.entries();
    match read_models(alloc, Purpose::Lists, entries, sessions)? {
        Models::Ready(models) => Ok(Answer {
            status: Status::Done,
            text: text_of_crews(rt, alloc, gate, workers, budget, entries, &models)?,
        }),
        Models::Refused(line) => Ok(Answer {
            status: Status::ModelRefused,
            text: line,
        }),
    }
}
