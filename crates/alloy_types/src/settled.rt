// Things with what their outcomes put into them.
ghost use Rattle.std.specs.Prelude.{◌≡◌, ◌≤◌, map, length};
ghost use Rattle.named_model.specs.View.{command_view, target_view};
ghost use Rattle.alloy_types.specs.Outcomes.{outcome_view, with_outcomes, the_other, with_target};

use model_types::TypeFault;
use named_model::named::{Command, Target};

// Puts what each outcome is, where it has no fault, in the place of the thing of its number.
pub fn settle<T: Drop>(things: &mut Vec<T>, outcomes: Vec<Result<T, TypeFault>>)
    requires { length outcomes.items ≤ length things.old.items }
    ensures { things.new.items ≡ with_outcomes the_other things.old.items outcomes.items }
{
    let mut outcomes = outcomes;
    while let Some(outcome) = outcomes.pop() {
        match outcome {
            Ok(thing) => things[outcomes.len()] = thing,
            Err(_) => {}
        }
    }
}

// The same, of what commands run or check.
pub fn settle_targets(commands: &mut Vec<Command>, outcomes: Vec<Result<Target, TypeFault>>)
    requires { length outcomes.items ≤ length commands.old.items }
    ensures { map command_view commands.new.items ≡ with_outcomes with_target (map command_view commands.old.items) (map (outcome_view target_view) outcomes.items) }
{
    let mut outcomes = outcomes;
    while let Some(outcome) = outcomes.pop() {
        match outcome {
            Ok(target) => commands[outcomes.len()].target = target,
            Err(_) => {}
        }
    }
}
