// What the program answers to what it read.
ghost use Rattle.std.specs.Prelude.{◌≡◌, ◌≤◌, ◌⊎◌, ◌+◌, IfOk};
ghost use Rattle.explorer_cli.specs.Keys.{KeepsToLimits};
ghost use Rattle.explorer_cli.specs.Learnt.{allowed_of, KeepsToBudget, MayLearn};
ghost use Rattle.explorer_cli.specs.Outcome.{HasNumbersInRange, IsStatusOf, IsAnswerTo, IsAnswerOfRuns, IsRunsAnswer};

use crate::crew_command::answer_of_crew;
use crate::load_command::answer_of_load;
use crate::reports::{answer_of_assert, answer_of_facts};
use crate::scripts::script_of;
use crate::sessions::{run_sessions, text_of_sessions};
use command_words::Command;
use explorer_run::{Gate, StepCount};
use hub_turns::journal_laws::{a_told_session_is_backed, what_was_published_stands};
use lowering_rules::LowerStop;
use lowering_rules::laws::problems_are_symmetric;
use outside_io::Status;
use proof_command::Answer;
use script_format::Script;
use served_models::{Models, Purpose, read_models};
use std::alloc::Global;
use std::sync::Wait;
use std::thread::Threads;

/// The answer of a command to the bytes of its input.
pub fn answer_to<R: Threads + Wait + Sync, G: Gate + Sync>(
    rt: &R,
    alloc: Global,
    gate: &G,
    command: Command,
    bytes: &[u8],
    count: &mut StepCount,
) -> Result<Answer, LowerStop>
    requires numbers { HasNumbersInRange command }
    ensures answer { IfOk result (λ a. IsAnswerTo command bytes.now a.status a.text.items) }
    ensures status { IfOk result (λ a. IsStatusOf command a.status) }
    ensures learnt { MayLearn command bytes.now count.old count.new }
{
    match command {
        Command::Run { workers, budget } => {
            answer_of_runs(
                rt,
                alloc,
                gate,
                Purpose::Lists,
                workers,
                budget,
                bytes,
                count,
            )
        }
        Command::Distinct { workers, budget } => {
            answer_of_runs(
                rt,
                alloc,
                gate,
                Purpose::Classes,
                workers,
                budget,
                bytes,
                count,
            )
        }
        Command::Check => Ok(proof_command::answer_to(alloc, bytes)?),
        Command::Assert { budget } => answer_of_assert(alloc, budget, bytes),
        Command::Facts { budget } => answer_of_facts(alloc, budget, bytes),
        Command::Load { number, workers } => answer_of_load(
            rt, alloc, gate, number, workers, count,
        ),
        Command::Crew { workers, budget } => {
            answer_of_crew(rt, alloc, gate, workers, budget, bytes)
        }
    }
}

// The answer to the bytes of the input, where sessions are run for this, by so many workers, and begin with this budget.
fn answer_of_runs<R: Threads + Wait + Sync, G: Gate + Sync>(
    rt: &R,
    alloc: Global,
    gate: &G,
    purpose: Purpose,
    workers: u32,
    budget: u32,
    bytes: &[u8],
    count: &mut StepCount,
) -> Result<Answer, LowerStop>
    requires workers { (1 ≤ workers) × (workers ≤ 16) }
    requires budget { budget ≤ 100000 }
    ensures answer { IfOk result (λ a. IsRunsAnswer purpose budget bytes.now a.status a.text.items) }
    ensures status { IfOk result (λ a. (a.status ≡ Status.Done) ⊎ (a.status ≡ Status.InputRefused) ⊎ (a.status ≡ Status.ModelRefused)) }
    ensures learnt { KeepsToBudget budget bytes.now count.old count.new }
{
    match script_of(alloc, bytes)? {
        Ok(script) => Ok(answer_script(rt, alloc, gate, purpose, workers, budget, &script, count)?),
        Err(answer) => Ok(answer),
    }
}

// The answer to a script.
fn answer_script<R: Threads + Wait + Sync, G: Gate + Sync>(
    rt: &R,
    alloc: Global,
    gate: &G,
    purpose: Purpose,
    workers: u32,
    budget: u32,
    script: &Script,
    count: &mut StepCount,
) -> Result<Answer, LowerStop>
    requires workers { (1 ≤ workers) × (workers ≤ 16) }
    requires budget { budget ≤ 100000 }
    requires limits { KeepsToLimits script.now }
    ensures answer { IfOk result (λ a. IsAnswerOfRuns purpose budget script.now a.status a.text.items) }
    ensures status { IfOk result (λ a. (a.status ≡ Status.Done) ⊎ (a.status ≡ Status.InputRefused) ⊎ (a.status ≡ Status.ModelRefused)) }
    ensures learnt { count.new ≤ count.old + allowed_of budget script.now.sessions }
{
    a_told_session_is_backed();
    problems_are_symmetric();
    what_was_published_stands();
    let sessions = script.sessions.entries();
    match read_models(alloc, purpose, script.models.entries(), sessions)? {
        Models::Ready(models) => {
            let ran = run_sessions(rt, alloc, gate, workers, budget, sessions, models, count)?;
            Ok(Answer {
                status: Status::Done,
                text: text_of_sessions(alloc, purpose, &ran.scripts, &ran.served)?,
            })
        }
        Models::Refused(line) => Ok(Answer {
            status: Status::ModelRefused,
            text: line,
        }),
    }
}
