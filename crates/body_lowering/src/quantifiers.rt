// Quantifiers over the variables of domains.
ghost use Rattle.std.specs.Prelude.{◌≡◌, ◌≤◌, ◌+◌, ◌*◌, ◌-◌, ◌++◌, [], map, IfOk, OnOk, if◌then◌else◌};
ghost use Rattle.rel_formula.specs.View.{expression_tree, formula_tree};
ghost use Rattle.named_model.specs.Phrase.{domains_of};
ghost use Rattle.named_model.specs.View.{domain_view};
ghost use Rattle.lowering_rules.specs.Binders as binders;
ghost use Rattle.lowering_rules.specs.Binders.{differences_in, quantified_by};
ghost use Rattle.body_lowering.specs.Copies.{copied_by_quantifier};

use crate::charges::charge_quantified;
use crate::kernel_parts::binders::{add_differences, quantified};
use crate::room::Room;
use alloy_syntax::tree::Quantifier;
use lowering_rules::{LowerStop, TooLarge};
use named_model::phrase::Domain;
use rel_formula::{Expression, Formula};
use std::alloc::Global;

/// That the variables of disjoint declarations differ, said under `depth` binders, where the first variable of all has the
/// binder at the level `first`.
pub fn differences(
    alloc: Global,
    room: &mut Room,
    depth: u32,
    first: u32,
    domains: &[Domain],
) -> Result<Vec<Formula>, LowerStop>
    ensures { IfOk result (λ fs. map formula_tree fs.items ≡ differences_in depth first (domains_of (map domain_view domains.now))) }
{
    let mut formulas = Vec::new(alloc);
    let mut level = first;
    for domain in domains {
        level = add_apart(alloc, room, &mut formulas, depth, level, domain)?;
    }
    Ok(formulas)
}

// Adds that the variables of one declaration differ, if they are disjoint; the level behind them.
fn add_apart(
    alloc: Global,
    room: &mut Room,
    formulas: &mut Vec<Formula>,
    depth: u32,
    first: u32,
    domain: &Domain,
) -> Result<u32, LowerStop>
    ensures level { IfOk result (λ level. level ≡ first + (domain_view domain.now).count) }
    ensures value { OnOk result (map formula_tree formulas.new.items ≡ map formula_tree formulas.old.items ++ (if (domain_view domain.now).disjoint then binders.differences (map (binders.under depth) (binders.variables first (domain_view domain.now).count)) else [])) }
{
    let count = number(domain.count)?;
    let end = level_behind(depth, first, count)?;
    if !domain.disjoint {
        return Ok(end);
    }
    take_pairs(room, count)?;
    add_differences(alloc, formulas, depth, first, count)?;
    Ok(end)
}

// The level behind so many variables, which is no more than `depth`.
fn level_behind(depth: u32, first: u32, count: u32) -> Result<u32, TooLarge>
    ensures { IfOk result (λ end. (end ≡ first + count) × (end ≤ depth)) }
{
    match first.checked_add(count) {
        Some(end) if end <= depth => Ok(end),
        _ => Err(TooLarge),
    }
}

/// A number of variables, which has at most 32 bits.
pub fn number(count: usize) -> Result<u32, TooLarge>
    ensures { IfOk result (λ n. n ≡ count) }
{
    match u32::try_from(count) {
        Ok(number) => Ok(number),
        Err(_) => Err(TooLarge),
    }
}

// Takes four nodes for each two of so many variables.
fn take_pairs(room: &mut Room, count: u32) -> Result<(), TooLarge>
    ensures { OnOk result (room.new.nodes + 2 * (count * count) ≡ room.old.nodes + 2 * count) }
{
    for before in 0..count {
        let Some(nodes) = before.checked_mul(4) else {
            return Err(TooLarge);
        };
        room.take(nodes)?;
    }
    Ok(())
}

/// A quantifier over variables with these domains, with what is copied taken from the room.
pub fn bind(
    alloc: Global,
    room: &mut Room,
    levels: u32,
    quantifier: Quantifier,
    domains: Vec<Expression>,
    apart: Vec<Formula>,
    body: Formula,
) -> Result<Formula, LowerStop>
    ensures value { IfOk result (λ f. formula_tree f ≡ quantified_by quantifier (map expression_tree domains.items) (map formula_tree apart.items) (formula_tree body)) }
    ensures taken { OnOk result (room.new.nodes + copied_by_quantifier quantifier (map expression_tree domains.items) (map formula_tree apart.items) (formula_tree body) ≡ room.old.nodes) }
{
    charge_quantified(room, levels, quantifier, &domains, &apart, &body)?;
    Ok(quantified(alloc, quantifier, domains, apart, body)?)
}
