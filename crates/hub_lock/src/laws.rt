// A law of the rule: it is the contract of a function that does nothing.
ghost use Rattle.atomic_table.specs.Table.{State};
ghost use Rattle.std.specs.Prelude.{Option};
ghost use Rattle.hub_lock.specs.declared.view.View.{View};
ghost use Rattle.hub_lock.specs.Between.{HoldsBetweenSteps};
ghost use Rattle.hub_lock.specs.Orderly.{IsOrderly};

use crate::kept::Kept;

/// What each step keeps has what holds between any two steps.
pub fn steps_keep_the_rule<T: Kept>()
    ensures { (start : T.Base) (s : State (Option T) (View T.Entry T.Base)) → IsOrderly T.by T.entries T.base start s → HoldsBetweenSteps T.by T.entries T.base start s }
{}
