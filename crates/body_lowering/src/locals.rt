// Local names.
ghost use Rattle.std.specs.Prelude.{◌≡◌, ◌+◌, IfOk, OnOk};
ghost use Rattle.rel_formula.specs.View.{expression_tree};
ghost use Rattle.lowering_rules.specs.Binders.{local_at, behind_variables};
ghost use Rattle.body_lowering.specs.Locals.{locals_view};
ghost use Rattle.body_lowering.specs.Nodes.{nodes_of};

use crate::charges::charge;
use crate::kernel_parts::shifts::shifted;
use crate::room::{Depth, Room};
use lowering_rules::LowerStop;
use rel_formula::Expression;
use std::alloc::Global;

/// What a local name stands for: an expression, as it is under so many binders.
#[derive(Drop)]
pub struct Local {
    pub depth: u32,
    pub expression: Expression,
}

/// What the local name of a number stands for, counted outward from the last one; nothing, where there is none. What is built
/// is taken from the room.
pub fn local_at(
    alloc: Global,
    at: Depth,
    locals: &[Local],
    room: &mut Room,
    number: usize,
) -> Result<Expression, LowerStop>
    ensures value { IfOk result (λ e. expression_tree e ≡ local_at (locals_view locals.now) number at.binders) }
    ensures taken { IfOk result (λ e. room.new.nodes + nodes_of (expression_tree e) ≡ room.old.nodes) }
{
    if number >= locals.len() {
        room.take(1)?;
        return Ok(Expression::None);
    }
    let local = &locals[locals.len() - 1 - number];
    charge(room, at.levels, &local.expression)?;
    let by = at.binders.saturating_sub(local.depth);
    Ok(shifted(alloc, &local.expression, by)?)
}

/// Enters so many variables, the first of which has the binder at the level `first`; the level behind them.
pub fn enter_variables(
    locals: &mut Vec<Local>,
    room: &mut Room,
    first: u32,
    count: u32,
) -> Result<u32, LowerStop>
    ensures level { IfOk result (λ level. level ≡ first + count) }
    ensures locals { OnOk result (locals_view locals.new.items ≡ behind_variables first count (locals_view locals.old.items)) }
    ensures taken { OnOk result (room.new.nodes + count ≡ room.old.nodes) }
{
    room.take(count)?;
    let Some(end) = first.checked_add(count) else {
        return Err(LowerStop::TooLarge);
    };
    for level in first..end {
        locals.push(Local {
            depth: level + 1,
            expression: Expression::Var(0),
        })?;
    }
    Ok(end)
}
