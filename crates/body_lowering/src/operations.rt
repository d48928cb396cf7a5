// What prefixes, operators and comparisons make of parts, with what is copied taken from the room.
ghost use Rattle.std.specs.Prelude.{◌≡◌, ◌+◌, IfOk, OnOk};
ghost use Rattle.rel_formula.specs.View.{formula_tree};
ghost use Rattle.lowering_rules.specs.Parts as rules;
ghost use Rattle.lowering_rules.specs.Parts.{prefix_lowered, operator_lowered, comparison_lowered};
ghost use Rattle.body_lowering.specs.Copies.{copied_by_prefix, copied_by_operator, copied_by_comparison};
ghost use Rattle.body_lowering.specs.Kernel.View.{part_view};
ghost use Rattle.body_lowering.specs.Nodes.{formula_nodes};

use crate::charges::{charge_compared, charge_formula, charge_operated, charge_prefixed};
use crate::kernel_parts::{Part, comparisons, connectives, operators};
use crate::room::Room;
use alloy_syntax::tree::{Comparing, Operator, Prefix};
use lowering_rules::LowerStop;
use rel_formula::Formula;
use std::alloc::Global;

/// What a prefix makes of its operand.
pub fn prefixed(
    alloc: Global,
    room: &mut Room,
    levels: u32,
    prefix: Prefix,
    x: Part,
) -> Result<Part, LowerStop>
    ensures value { IfOk result (λ p. part_view p ≡ prefix_lowered prefix (part_view x)) }
    ensures taken { OnOk result (room.new.nodes + copied_by_prefix prefix (part_view x) ≡ room.old.nodes) }
{
    charge_prefixed(room, levels, prefix, &x)?;
    Ok(operators::prefixed(alloc, prefix, x)?)
}

/// What an operator makes of two operands.
pub fn operated(
    alloc: Global,
    room: &mut Room,
    levels: u32,
    operator: Operator,
    x: Part,
    y: Part,
) -> Result<Part, LowerStop>
    ensures value { IfOk result (λ p. part_view p ≡ operator_lowered operator (part_view x) (part_view y)) }
    ensures taken { OnOk result (room.new.nodes + copied_by_operator operator (part_view x) (part_view y) ≡ room.old.nodes) }
{
    charge_operated(room, levels, operator, &x, &y)?;
    Ok(operators::operated(alloc, operator, x, y)?)
}

/// What a comparison says of two operands.
pub fn compared(
    alloc: Global,
    room: &mut Room,
    levels: u32,
    comparing: Comparing,
    x: Part,
    y: Part,
) -> Result<Part, LowerStop>
    ensures value { IfOk result (λ p. part_view p ≡ comparison_lowered comparing (part_view x) (part_view y)) }
    ensures taken { OnOk result (room.new.nodes + copied_by_comparison comparing.comparison (part_view x) ≡ room.old.nodes) }
{
    charge_compared(room, levels, comparing, &x)?;
    Ok(comparisons::compared(alloc, comparing, x, y)?)
}

/// The second formula where the first is true, and the third where it is false.
pub fn choice(
    alloc: Global,
    room: &mut Room,
    levels: u32,
    f: Formula,
    g: Formula,
    h: Formula,
) -> Result<Formula, LowerStop>
    ensures value { IfOk result (λ k. formula_tree k ≡ rules.choice (formula_tree f) (formula_tree g) (formula_tree h)) }
    ensures taken { OnOk result (room.new.nodes + formula_nodes (formula_tree f) ≡ room.old.nodes) }
{
    charge_formula(room, levels, &f)?;
    Ok(connectives::choice(alloc, f, g, h)?)
}
