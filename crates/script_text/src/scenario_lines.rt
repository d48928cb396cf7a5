// The lines of a scenario.
ghost use Rattle.std.specs.Prelude.{◌≡◌, ◌<◌, ◌++◌, ℕ, List, length, codes, decimal, All, IfOk};
ghost use Rattle.tuple_core.specs.Rows.{IsRows};
ghost use Rattle.rel_formula.specs.Instance.{AreCells};
ghost use Rattle.script_text.specs.Lines.{relation_lines};
ghost use Rattle.script_text.specs.Replies.{IsScenarioText};

use crate::numbers::push_number_line;
use crate::relation_lines::push_relation;
use rel_formula::{Problem, Relation, Scenario, Tables};
use std::alloc::{AllocError, Global};
use tuple_core::TupleSet;

/// Adds the lines of a shown scenario, which is one of the problem's.
pub fn push_shown(
    alloc: Global,
    out: &mut Vec<u8>,
    problem: &Problem,
    number: u32,
    scenario: &Scenario,
) -> Result<(), AllocError>
    requires { AreCells problem.now scenario.now }
    ensures { IfOk result (λ _. (lines : List ℕ) × IsScenarioText problem.now scenario.now lines × (out.new.items ≡ out.old.items ++ (codes "scenario " ++ decimal number ++ codes "\n" ++ lines))) }
{
    push_number_line(out, b"scenario ", u64::from(number))?;
    push_scenario(alloc, out, problem, scenario)?;
    Ok(())
}

/// Adds a line for each relation, with its value in the scenario, which is one of the problem's. The error comes only for want
/// of memory.
pub fn push_scenario(
    alloc: Global,
    out: &mut Vec<u8>,
    problem: &Problem,
    scenario: &Scenario,
) -> Result<(), AllocError>
    requires { AreCells problem.now scenario.now }
    ensures { IfOk result (λ _. (text : List ℕ) × IsScenarioText problem.now scenario.now text × (out.new.items ≡ out.old.items ++ text)) }
{
    let tables = Tables::of(alloc, problem, scenario)?;
    push_tables(out, problem, problem.relations(), tables.values())?;
    Ok(())
}

// Adds a line for each relation, with the tuples of the table of its place.
fn push_tables(
    out: &mut Vec<u8>,
    problem: &Problem,
    relations: &[Relation],
    tables: &[TupleSet],
) -> Result<(), AllocError>
    requires count { length tables.now ≡ length relations.now }
    requires tops { All (λ v. All (λ t. All (λ a. a.top < length problem.now.tops) t) v.rows) tables.now }
    ensures lines { IfOk result (λ _. out.new.items ≡ out.old.items ++ relation_lines problem.now relations.now tables.now) }
    ensures well { IfOk result (λ _. All IsRows tables.now) }
{
    for (number, relation) in relations.iter().enumerate() {
        push_relation(out, problem, relation, tables[number].rows())?;
    }
    Ok(())
}
