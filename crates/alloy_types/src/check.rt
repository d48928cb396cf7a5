// The sorts and arities of a model.
ghost use Rattle.named_model.specs.View.{named_view};
ghost use Rattle.overload_resolution.specs.Settling.Told.{Gives};
ghost use Rattle.alloy_types.specs.Typed.{typed};

use crate::outcomes::outcomes_of;
use crate::paragraphs::parts_checked;
use crate::settled::{settle, settle_targets};
use model_types::TypeFault;
use named_model::Named;
use std::alloc::Global;

/// The model in which every shared name is one field, or the first fault of sorts and arities in the order of its paragraphs.
/// Want of memory is also answered where a predicate or a function calls itself over one or more steps, or one that isn't
/// there, and where a bounding type that a shared name asks for would have too many lists.
pub fn check_types(alloc: Global, model: Named) -> Result<Named, TypeFault>
    ensures { Gives named_view result (typed (named_view model)) }
{
    let mut model = model;
    let outcomes = outcomes_of(alloc, &model)?;
    parts_checked(&outcomes, &model.parts)?;
    settle(&mut model.callees, outcomes.callees);
    settle(&mut model.facts, outcomes.facts);
    settle(&mut model.assertions, outcomes.assertions);
    settle_targets(&mut model.commands, outcomes.targets);
    Ok(model)
}
