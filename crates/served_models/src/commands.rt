// The commands of a model on which sessions are.
ghost use Rattle.std.specs.Prelude.{◌≡◌, IfOk, IfErr, MatchResult};
ghost use Rattle.lowering_rules.specs.declared.fault.LowerStop.TheVariants as stop;
ghost use Rattle.named_model.specs.View.{named_view};
ghost use Rattle.rel_lower.specs.Lowered.{IsTyped};
ghost use Rattle.served_models.specs.Served.{AreServed, Fits, IsUnfit, IsTooLarge, HasLargeCommand, IsProblemOf, IsServedFor, LacksProblem, IsUnusable, renamings_words};

use crate::numbers::next_asked;
use crate::purposes::{Purpose, fits, renamings_words};
use lowering_rules::LowerStop;
use model_texts::fault_words::command_words;
use named_model::Named;
use rel_formula::Problem;
use rel_lower::lower;
use script_format::SessionEntry;
use std::alloc::{AllocError, Global};

/// The problem of a model's command of this number.
#[derive(Drop)]
pub struct ServedCommand {
    pub number: u32,
    pub problem: Problem,
}

/// What was found of the commands of a model on which sessions are.
#[derive(Drop)]
pub enum Commands {
    /// Each has a problem that can be used.
    Ready(Vec<ServedCommand>),
    /// One of them hasn't: what stands behind the model's name in the line that refuses the first of these.
    Refused(Vec<u8>),
}

/// The problems of just the commands of the model at this place on which sessions are, in rising order of their numbers.
pub fn served(
    alloc: Global,
    purpose: Purpose,
    model: &Named,
    place: usize,
    sessions: &[SessionEntry],
) -> Result<Commands, LowerStop>
    requires { IsTyped (named_view model.now) }
    ensures found { IfOk result (AreServed purpose sessions.now place (named_view model.now)) }
    ensures large { IfErr result (λ e. e ≡ stop.TooLarge → HasLargeCommand sessions.now place (named_view model.now)) }
{
    let mut made = Vec::new(alloc);
    let mut from = 0;
    'asked: while let Some(number) = next_asked(sessions, place, from) {
        match served_command(alloc, purpose, model, number)? {
            Ok(command) => made.push(command)?,
            Err(words) => return Ok(Commands::Refused(words)),
        }
        from = u64::from(number) + 1;
    }
    Ok(Commands::Ready(made))
}

// The problem of the model's command of this number, or the words that tell why it can't be used.
fn served_command(
    alloc: Global,
    purpose: Purpose,
    model: &Named,
    number: u32,
) -> Result<Result<ServedCommand, Vec<u8>>, LowerStop>
    requires { IsTyped (named_view model.now) }
    ensures found { IfOk result (λ found. MatchResult found (IsServedFor purpose (named_view model.now) number) (λ words. IsUnusable purpose (named_view model.now) number words.items)) }
    ensures large { IfErr result (λ e. e ≡ stop.TooLarge → IsTooLarge (named_view model.now) number) }
{
    match problem_of(alloc, model, number)? {
        Ok(problem) => Ok(with_problem(alloc, purpose, number, problem)?),
        Err(words) => Ok(Err(words)),
    }
}

/// The problem of the model's command of this number, with all facts, or what stands behind the model's name in the line that
/// tells why there is none. The error comes only for want of memory, and for a formula that is too large to build.
#[tactic(auto, using(crate::proofs::Usables::too_large))]
pub fn problem_of(
    alloc: Global,
    model: &Named,
    number: u32,
) -> Result<Result<Problem, Vec<u8>>, LowerStop>
    requires { IsTyped (named_view model.now) }
    ensures found { IfOk result (λ found. MatchResult found (IsProblemOf (named_view model.now) number) (λ words. LacksProblem (named_view model.now) number words.items)) }
    ensures large { IfErr result (λ e. e ≡ stop.TooLarge → IsTooLarge (named_view model.now) number) }
{
    match lower(alloc, model, number) {
        Ok(problem) => {
            let _ = problem.relations(); // for the proof
            Ok(Ok(problem))
        }
        Err(fault) => Ok(Err(command_words(alloc, number, fault)?)),
    }
}

// The problem of the command of this number, or the words that tell that it can't be used for this.
fn with_problem(
    alloc: Global,
    purpose: Purpose,
    number: u32,
    problem: Problem,
) -> Result<Result<ServedCommand, Vec<u8>>, AllocError>
    ensures { IfOk result (λ found. MatchResult found (λ x. (x.number ≡ number) × (x.problem ≡ problem) × Fits purpose problem)
        (λ words. IsUnfit purpose problem × (words.items ≡ renamings_words number))) }
{
    if fits(purpose, &problem) {
        return Ok(Ok(ServedCommand { number, problem }));
    }
    Ok(Err(renamings_words(alloc, number)?))
}
