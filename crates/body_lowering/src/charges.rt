// The nodes of copies, which are taken before a copy is made.
ghost use Rattle.std.specs.Prelude.{◌≡◌, ◌<◌, ◌+◌, ◌*◌, ◌⊎◌, map, OnOk, OnErr};
ghost use Rattle.rel_formula.specs.Kernel.{formulas_of};
ghost use Rattle.rel_formula.specs.View.{expression_tree, formula_tree};
ghost use Rattle.body_lowering.specs.Copies.{part_nodes, copied_by_prefix, copied_by_operator, copied_by_comparison, copied_by_quantifier};
ghost use Rattle.body_lowering.specs.Kernel.View.{part_view};
ghost use Rattle.body_lowering.specs.Nodes.{nodes_of, levels_of, nodes_of_each, levels_of_each, formula_nodes, formula_levels, formulas_nodes, formulas_levels};

use crate::kernel_parts::Part;
use crate::room::Room;
use alloy_syntax::tree::{Comparing, Comparison, Operator, Prefix, Quantifier};
use lowering_rules::TooLarge;
use rel_formula::{Expression, Formula};

// Takes the nodes of an expression, which may be nested so deep. It is too large just where there are fewer nodes or levels than
// the expression has.
pub fn charge(room: &mut Room, levels: u32, e: &Expression) -> Result<(), TooLarge>
    ensures ok { OnOk result (room.new.nodes + nodes_of (expression_tree e.now) ≡ room.old.nodes) }
    ensures err { OnErr result ((room.old.nodes < nodes_of (expression_tree e.now)) ⊎ (levels < levels_of (expression_tree e.now))) }
{
    if levels == 0 {
        return Err(TooLarge);
    }
    room.take(1)?;
    match e {
        Expression::Rel(_) => Ok(()),
        Expression::Var(_) => Ok(()),
        Expression::None => Ok(()),
        Expression::Univ => Ok(()),
        Expression::Iden => Ok(()),
        Expression::Binary(_, a, b) => {
            charge(room, levels - 1, a)?;
            Ok(charge(room, levels - 1, b)?)
        }
        Expression::Unary(_, a) => Ok(charge(room, levels - 1, a)?),
    }
}

// The same for so many copies, each with a node more.
pub fn charge_copies(
    room: &mut Room,
    levels: u32,
    e: &Expression,
    count: u32,
) -> Result<(), TooLarge>
    ensures ok { OnOk result (room.new.nodes + count * (nodes_of (expression_tree e.now) + 1) ≡ room.old.nodes) }
    ensures err { OnErr result ((room.old.nodes < count * (nodes_of (expression_tree e.now) + 1)) ⊎ (levels < levels_of (expression_tree e.now))) }
{
    for _ in 0..count {
        room.take(1)?;
        charge(room, levels, e)?;
    }
    Ok(())
}

// Takes the nodes of a formula, whose expressions may be nested so deep. The same holds of what it refuses.
#[cycle(charges)]
pub fn charge_formula(room: &mut Room, levels: u32, f: &Formula) -> Result<(), TooLarge>
    ensures ok { OnOk result (room.new.nodes + formula_nodes (formula_tree f.now) ≡ room.old.nodes) }
    ensures err { OnErr result ((room.old.nodes < formula_nodes (formula_tree f.now)) ⊎ (levels < formula_levels (formula_tree f.now))) }
{
    room.take(1)?;
    match f {
        Formula::Compared(_, a, b) => {
            charge(room, levels, a)?;
            Ok(charge(room, levels, b)?)
        }
        Formula::AtLeast(_, e) => Ok(charge(room, levels, e)?),
        Formula::Not(f) => Ok(charge_formula(room, levels, f)?),
        Formula::Junction(_, parts) => Ok(charge_formulas(room, levels, parts)?),
        Formula::Quantified(_, e, f) => {
            charge(room, levels, e)?;
            Ok(charge_formula(room, levels, f)?)
        }
    }
}

#[cycle(charges)]
fn charge_formulas(room: &mut Room, levels: u32, parts: &[Formula]) -> Result<(), TooLarge>
    ensures ok { OnOk result (room.new.nodes + formulas_nodes (formulas_of (map formula_tree parts.now)) ≡ room.old.nodes) }
    ensures err { OnErr result ((room.old.nodes < formulas_nodes (formulas_of (map formula_tree parts.now))) ⊎ (levels < formulas_levels (formulas_of (map formula_tree parts.now)))) }
{
    for part in parts {
        charge_formula(room, levels, part)?;
    }
    Ok(())
}

// Takes the nodes of what a part became.
pub fn charge_part(room: &mut Room, levels: u32, part: &Part) -> Result<(), TooLarge>
    ensures { OnOk result (room.new.nodes + part_nodes (part_view part.now) ≡ room.old.nodes) }
{
    match part {
        Part::Relation(e) => Ok(charge(room, levels, e)?),
        Part::Formula(f) => Ok(charge_formula(room, levels, f)?),
        Part::Number(_) => Ok(()),
        Part::Size(e) => Ok(charge(room, levels, e)?),
    }
}

// What a prefix copies: `one` says two things of its operand.
pub fn charge_prefixed(
    room: &mut Room,
    levels: u32,
    prefix: Prefix,
    part: &Part,
) -> Result<(), TooLarge>
    ensures { OnOk result (room.new.nodes + copied_by_prefix prefix (part_view part.now) ≡ room.old.nodes) }
{
    match prefix {
        Prefix::One => Ok(charge_part(room, levels, part)?),
        _ => Ok(()),
    }
}

// What a comparison copies: `=` says two things of the number of tuples on its left side.
pub fn charge_compared(
    room: &mut Room,
    levels: u32,
    comparing: Comparing,
    left: &Part,
) -> Result<(), TooLarge>
    ensures { OnOk result (room.new.nodes + copied_by_comparison comparing.comparison (part_view left.now) ≡ room.old.nodes) }
{
    match comparing.comparison {
        Comparison::Equal => Ok(charge_part(room, levels, left)?),
        _ => Ok(()),
    }
}

// What an operator copies: `<=>` says two things of both operands.
pub fn charge_operated(
    room: &mut Room,
    levels: u32,
    operator: Operator,
    left: &Part,
    right: &Part,
) -> Result<(), TooLarge>
    ensures { OnOk result (room.new.nodes + copied_by_operator operator (part_view left.now) (part_view right.now) ≡ room.old.nodes) }
{
    match operator {
        Operator::Iff => {
            charge_part(room, levels, left)?;
            Ok(charge_part(room, levels, right)?)
        }
        _ => Ok(()),
    }
}

// What a quantifier copies: `one` says two things of its variables.
pub fn charge_quantified(
    room: &mut Room,
    levels: u32,
    quantifier: Quantifier,
    domains: &[Expression],
    apart: &[Formula],
    body: &Formula,
) -> Result<(), TooLarge>
    ensures { OnOk result (room.new.nodes + copied_by_quantifier quantifier (map expression_tree domains.now) (map formula_tree apart.now) (formula_tree body.now) ≡ room.old.nodes) }
{
    match quantifier {
        Quantifier::One => {
            charge_all(room, levels, domains)?;
            charge_formulas(room, levels, apart)?;
            Ok(charge_formula(room, levels, body)?)
        }
        _ => Ok(()),
    }
}

fn charge_all(room: &mut Room, levels: u32, expressions: &[Expression]) -> Result<(), TooLarge>
    ensures ok { OnOk result (room.new.nodes + nodes_of_each (map expression_tree expressions.now) ≡ room.old.nodes) }
    ensures err { OnErr result ((room.old.nodes < nodes_of_each (map expression_tree expressions.now)) ⊎ (levels < levels_of_each (map expression_tree expressions.now))) }
{
    for expression in expressions {
        charge(room, levels, expression)?;
    }
    Ok(())
}
