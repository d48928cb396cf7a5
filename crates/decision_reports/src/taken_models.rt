//! The models of a script, and which of their commands are taken.
ghost use Rattle.std.specs.Prelude.{◌≡◌, ◌++◌, ◌∷◌, [], ◌≤◌, if◌then◌else◌, length, All, IfOk, IfNone, IfSome};
ghost use Rattle.named_model.specs.View.{named_view};
ghost use Rattle.rel_lower.specs.Lowered.{IsTyped};
ghost use Rattle.served_models.specs.Served.{LacksProblem};
ghost use Rattle.decision_reports.specs.Taken.{CanBeRun, is_of_kind, numbers_of, AreLowered, AreTaken, IsFoundFor, IsFoundIn};

use alloy_syntax::tree::CommandKind;
use lowering_rules::LowerStop;
use model_texts::typed_texts::{ModelText, read_model};
use named_model::Named;
use script_format::ModelEntry;
use served_models::{model_line, problem_of};
use std::alloc::{AllocError, Global};

/// A model, and the numbers of its commands that are taken, in rising order.
#[derive(Drop)]
pub struct TakenModel {
    pub model: Named,
    pub numbers: Vec<u32>,
}

/// What the models of a script are.
#[derive(Drop)]
pub enum TakenModels {
    /// Models in order, in which each command that is taken has a problem.
    Ready(Vec<TakenModel>),
    /// One of them can't be used: the line that refuses the first of these.
    Refused(Vec<u8>),
}

/// What was found of one model.
#[derive(Drop)]
pub enum FoundModel {
    /// Each of its commands that are taken has a problem.
    Ready(TakenModel),
    /// It can't be used: what stands behind its name in the line that refuses it.
    Refused(Vec<u8>),
}

/// Reads the models of a script, whose texts have at most 1,048,576 bytes, in order, and takes their commands of this kind. Each of
/// these is lowered, and no problem is kept. The error comes for want of memory, which is told too of a model that has more commands
/// than 32 bits can number, and for a formula that is too large to build.
pub fn read_taken(
    alloc: Global,
    kind: CommandKind,
    entries: &[ModelEntry],
) -> Result<TakenModels, LowerStop>
    requires { All (λ x. length x.text ≤ 1048576) entries.now }
    ensures { IfOk result (AreTaken kind entries.now) }
{
    let mut models = Vec::new(alloc);
    for entry in entries {
        match read_one(alloc, kind, entry.text.text())? {
            FoundModel::Ready(model) => models.push(model)?,
            FoundModel::Refused(words) => {
                let line = model_line(alloc, entry.name.text(), &words)?;
                return Ok(TakenModels::Refused(line));
            }
        }
    }
    Ok(TakenModels::Ready(models))
}

// Reads the text of a model.
fn read_one(alloc: Global, kind: CommandKind, text: &str) -> Result<FoundModel, LowerStop>
    requires { length text.now ≤ 1048576 }
    ensures { IfOk result (IsFoundFor kind text.now) }
{
    match read_model(alloc, text)? {
        ModelText::Typed(model) => Ok(of_model(alloc, kind, model)?),
        ModelText::Faulty(words) => Ok(FoundModel::Refused(words)),
    }
}

// What is found of a model.
fn of_model(alloc: Global, kind: CommandKind, model: Named) -> Result<FoundModel, LowerStop>
    requires { IsTyped (named_view model) }
    ensures { IfOk result (IsFoundIn kind (named_view model)) }
{
    let numbers = numbers_of(alloc, kind, &model)?;
    match first_lack(alloc, &model, &numbers)? {
        None => Ok(FoundModel::Ready(TakenModel { model, numbers })),
        Some(words) => Ok(FoundModel::Refused(words)),
    }
}

// The numbers of a model's commands of this kind, in rising order.
fn numbers_of(alloc: Global, kind: CommandKind, model: &Named) -> Result<Vec<u32>, AllocError>
    ensures { IfOk result (λ numbers. numbers.items ≡ numbers_of kind (named_view model.now)) }
{
    let commands = model.commands();
    if (commands as usize) < model.commands.len() {
        return Err(AllocError);
    }
    let mut numbers = Vec::new(alloc);
    for place in 0..commands {
        let number = place + 1;
        push_if(&mut numbers, is_of_kind(kind, model, number), number)?;
    }
    Ok(numbers)
}

// Adds a number that is taken.
fn push_if(numbers: &mut Vec<u32>, taken: bool, number: u32) -> Result<(), AllocError>
    ensures { IfOk result (λ _. numbers.new.items ≡ numbers.old.items ++ (if taken then number ∷ [] else [])) }
{
    if taken {
        numbers.push(number)?;
    }
    Ok(())
}

// Whether the command of this number is of this kind.
fn is_of_kind(kind: CommandKind, model: &Named, number: u32) -> bool
    ensures { result ≡ is_of_kind kind (named_view model.now) number }
{
    match kind {
        CommandKind::Run => !model.is_check(number),
        CommandKind::Check => model.is_check(number),
    }
}

// What is told of the first of these commands that has no problem, where there is one.
fn first_lack(alloc: Global, model: &Named, numbers: &[u32]) -> Result<Option<Vec<u8>>, LowerStop>
    requires { IsTyped (named_view model.now) }
    ensures { IfOk result (λ found. AreLowered (named_view model.now) numbers.now found) }
{
    for number in numbers {
        if let Some(words) = lack_of(alloc, model, *number)? {
            return Ok(Some(words));
        }
    }
    Ok(None)
}

// What is told of the model's command of this number, where it has no problem.
fn lack_of(alloc: Global, model: &Named, number: u32) -> Result<Option<Vec<u8>>, LowerStop>
    requires { IsTyped (named_view model.now) }
    ensures none { IfOk result (λ found. IfNone found (CanBeRun (named_view model.now) number)) }
    ensures some { IfOk result (λ found. IfSome found (λ words. LacksProblem (named_view model.now) number words.items)) }
{
    match problem_of(alloc, model, number)? {
        Ok(_) => Ok(None),
        Err(words) => Ok(Some(words)),
    }
}
