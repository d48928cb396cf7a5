// What small models become, from their texts on.
ghost use Rattle.named_model.specs.View.{named_view};
ghost use Rattle.rel_lower.specs.Lowered.{IsTyped};

use lowering_rules::LowerFault;
use model_texts::typed_texts::{ModelText, read_model};
use named_model::Named;
use rel_formula::Problem;
use rel_lower::{lower, lower_with};
use std::alloc::Global;
use std::test::Fail;

/// What a command of a model becomes with the facts of these numbers, or with all. It fails where the text is no model.
pub fn lowered(
    alloc: Global,
    text: &str,
    command: u32,
    facts: Option<&[usize]>,
) -> Result<Result<Problem, LowerFault>, Fail> {
    if text.len() > 1_048_576 {
        return Err("too long")?;
    }
    match read_model(alloc, text)? {
        ModelText::Typed(model) => Ok(of_model(alloc, &model, command, facts)),
        _ => Err("no model")?,
    }
}

fn of_model(
    alloc: Global,
    model: &Named,
    command: u32,
    facts: Option<&[usize]>,
) -> Result<Problem, LowerFault>
    requires { IsTyped (named_view model.now) }
{
    match facts {
        Some(facts) => lower_with(alloc, model, command, facts),
        None => lower(alloc, model, command),
    }
}

/// Why a command of a model has no problem with these facts, or with all.
pub fn refusal(
    alloc: Global,
    text: &str,
    command: u32,
    facts: Option<&[usize]>,
) -> Result<Option<LowerFault>, Fail> {
    Ok(lowered(alloc, text, command, facts)?.err())
}
