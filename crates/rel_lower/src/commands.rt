// Commands and facts by their numbers.
ghost use Rattle.std.specs.Prelude.{◌≡◌, ℕ, List, Some, IfOk, option_map, slice_get};
ghost use Rattle.std.specs.List.{range_with_len};
ghost use Rattle.named_model.specs.Model.{CommandTree, NamedTree};
ghost use Rattle.named_model.specs.View.{command_view, named_view};
ghost use Rattle.model_sizes.specs.Sizes.{IsFaultOf, sizes_in};
ghost use Rattle.lowering_rules.specs.Problem as problem;

use lowering_rules::LowerFault;
use named_model::named::Command;
use named_model::{NameFault, Named};
use std::alloc::{AllocError, Global};

/// The command of that number, from 1 on.
pub fn command_at(model: &Named, number: u32) -> Option<&Command>
    ensures { option_map (λ command. command_view command.now) result ≡ problem.command_at (named_view model.now) number }
{
    if number == 0 {
        return None;
    }
    command_behind(model, number as usize - 1)
}

// The command behind so many others.
fn command_behind(model: &Named, others: usize) -> Option<&Command>
    ensures { option_map (λ command. command_view command.now) result ≡ slice_get (named_view model.now).commands others }
{
    model.commands.get(others)
}

/// So many numbers, from 1 on.
#[tactic(auto, using(crate::proofs::Numbers::one_more))]
pub fn numbers(alloc: Global, count: usize) -> Result<Vec<usize>, AllocError>
    ensures { IfOk result (λ numbers. numbers.items ≡ range_with_len 1 count) }
{
    let mut numbers = Vec::with_capacity(alloc, count)?;
    for number in 0..count {
        numbers.push(number + 1)?;
    }
    Ok(numbers)
}

/// What is told where signatures have no sizes under a command.
pub fn of_sizes(fault: NameFault) -> LowerFault
    ensures { (m : NamedTree) (n : ℕ) (facts : List ℕ) (c : CommandTree) → problem.command_at m n ≡ Some c → IsFaultOf fault (sizes_in m n) → problem.IsRefusal m n facts result }
{
    match fault {
        NameFault::Memory => LowerFault::Memory,
        other => LowerFault::Scope(other),
    }
}
