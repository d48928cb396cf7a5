// What `load` answers.
ghost use Rattle.std.specs.Prelude.{◌≡◌, ◌≤◌, ◌<◌, ◌+◌, ◌⊎◌, ◌^◌, ℕ, List, IfOk};
ghost use Rattle.command_words.specs.declared.reading.Command.TheVariants.{Load};
ghost use Rattle.command_words.specs.Words.{default_budget};
ghost use Rattle.script_format.specs.Generated.{generated};
ghost use Rattle.rel_formula.specs.Bounds.{Bounded};
ghost use Rattle.explorer_run.specs.Served.{AreServed};
ghost use Rattle.explorer_cli.specs.Keys.{KeepsToLimits};
ghost use Rattle.explorer_cli.specs.Tallies.{scenarios_in, ends_in, sum_in, summary_in, HasLines};
ghost use Rattle.explorer_cli.specs.Learnt.{allowed_of, KeepsToBudget};
ghost use Rattle.explorer_cli.specs.Outcome.{IsAnswerToText, IsAnswerToScript};

use crate::scripts::script_of;
use crate::sessions::{Ran, run_sessions, text_of_sessions};
use crate::tallies::tally_of;
use command_words::DEFAULT_BUDGET;
use explorer_run::{Gate, StepCount};
use hub_turns::journal_laws::{a_told_session_is_backed, what_was_published_stands};
use lowering_rules::LowerStop;
use lowering_rules::laws::problems_are_symmetric;
use outside_io::Status;
use proof_command::Answer;
use script_format::{Script, generate};
use script_text::push_number_line;
use served_models::{Models, Purpose, read_models};
use std::alloc::{AllocError, Global};
use std::sync::Wait;
use std::thread::Threads;

/// The answer of `load`: the script of this number is made, and run by so many workers.
pub fn answer_of_load<R: Threads + Wait + Sync, G: Gate + Sync>(
    rt: &R,
    alloc: Global,
    gate: &G,
    number: u32,
    workers: u32,
    count: &mut StepCount,
) -> Result<Answer, LowerStop>
    requires number { (1 ≤ number) × (number ≤ 16) }
    requires workers { (1 ≤ workers) × (workers ≤ 16) }
    ensures answer { IfOk result (λ a. IsAnswerToText (Load number workers) (generated number) a.status a.text.items) }
    ensures status { IfOk result (λ a. (a.status ≡ Status.Done) ⊎ (a.status ≡ Status.InputRefused) ⊎ (a.status ≡ Status.ModelRefused)) }
    ensures learnt { KeepsToBudget default_budget (generated number) count.old count.new }
{
    let bytes = generate(alloc, number)?;
    Ok(answer_made(rt, alloc, gate, workers, &bytes, count)?)
}

// The answer to bytes that were made.
fn answer_made<R: Threads + Wait + Sync, G: Gate + Sync>(
    rt: &R,
    alloc: Global,
    gate: &G,
    workers: u32,
    bytes: &[u8],
    count: &mut StepCount,
) -> Result<Answer, LowerStop>
    requires { (1 ≤ workers) × (workers ≤ 16) }
    ensures answer { IfOk result (λ a. (number : ℕ) → IsAnswerToText (Load number workers) bytes.now a.status a.text.items) }
    ensures status { IfOk result (λ a. (a.status ≡ Status.Done) ⊎ (a.status ≡ Status.InputRefused) ⊎ (a.status ≡ Status.ModelRefused)) }
    ensures learnt { KeepsToBudget default_budget bytes.now count.old count.new }
{
    match script_of(alloc, bytes)? {
        Ok(script) => Ok(answer_script(rt, alloc, gate, workers, &script, count)?),
        Err(answer) => Ok(answer),
    }
}

// The answer to a script: its sessions are run as `run` would run them, up to their text, and summed up in its place.
fn answer_script<R: Threads + Wait + Sync, G: Gate + Sync>(
    rt: &R,
    alloc: Global,
    gate: &G,
    workers: u32,
    script: &Script,
    count: &mut StepCount,
) -> Result<Answer, LowerStop>
    requires workers { (1 ≤ workers) × (workers ≤ 16) }
    requires limits { KeepsToLimits script.now }
    ensures answer { IfOk result (λ a. (number : ℕ) → IsAnswerToScript (Load number workers) script.now a.status a.text.items) }
    ensures status { IfOk result (λ a. (a.status ≡ Status.Done) ⊎ (a.status ≡ Status.InputRefused) ⊎ (a.status ≡ Status.ModelRefused)) }
    ensures learnt { count.new ≤ count.old + allowed_of default_budget script.now.sessions }
{
    a_told_session_is_backed();
    problems_are_symmetric();
    what_was_published_stands();
    let sessions = script.sessions.entries();
    match read_models(alloc, Purpose::Lists, script.models.entries(), sessions)? {
        Models::Ready(models) => {
            let ran = run_sessions(
                rt,
                alloc,
                gate,
                workers,
                DEFAULT_BUDGET,
                sessions,
                models,
                count,
            )?;
            make_lines(alloc, &ran)?;
            Ok(Answer {
                status: Status::Done,
                text: summary_of(alloc, &ran)?,
            })
        }
        Models::Refused(line) => Ok(Answer {
            status: Status::ModelRefused,
            text: line,
        }),
    }
}

// Makes the lines that `run` would write, so that a load is all the work of `run`.
fn make_lines(alloc: Global, ran: &Ran) -> Result<(), AllocError>
    requires { (problems : List Bounded) × AreServed problems ran.now.scripts.items ran.now.served }
    ensures { IfOk result (λ _. HasLines ran.now) }
{
    text_of_sessions(alloc, Purpose::Lists, &ran.scripts, &ran.served)?;
    Ok(())
}

// How many transcripts there are, how many scenarios their lists have that end floors, and how many such lists they have.
fn summary_of(alloc: Global, ran: &Ran) -> Result<Vec<u8>, AllocError>
    requires shown { sum_in scenarios_in ran.now.served.transcripts.items < 2 ^ 64 }
    requires ended { sum_in ends_in ran.now.served.transcripts.items < 2 ^ 64 }
    ensures { IfOk result (λ text. text.items ≡ summary_in ran.now.served.transcripts.items) }
{
    let transcripts = &ran.served.transcripts;
    let tally = tally_of(transcripts);
    let mut text = Vec::new(alloc);
    push_number_line(&mut text, b"sessions ", transcripts.len() as u64)?;
    push_number_line(&mut text, b"shown ", tally.shown)?;
    push_number_line(&mut text, b"ended ", tally.ended)?;
    Ok(text)
}
