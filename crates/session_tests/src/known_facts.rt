// What is known of the facts of small models, from their texts on.
ghost use Rattle.std.specs.Prelude.{◌≤◌};
ghost use Rattle.named_model.specs.View.{named_view};
ghost use Rattle.rel_lower.specs.Lowered.{IsTyped};

use decision_reports::needed_facts::{FactSet, facts_of};
use lowering_rules::LowerFault;
use model_texts::typed_texts::{ModelText, read_model};
use named_model::Named;
use rel_formula::Scenario;
use std::alloc::Global;
use std::test::Fail;

/// What is known of facts: the cells of a scenario in which all are true, or which are needed, with the cells of the scenario
/// without each of them.
#[derive(Drop, Debug, PartialEq)]
pub enum Known {
    Satisfiable(Vec<u32>),
    Needs(Vec<usize>, Vec<Vec<u32>>),
    Spent(Vec<usize>),
    Refused,
}

/// What is known of the facts of the model that the text says, under a command. It fails where there is no model, and where
/// memory is wanting.
pub fn facts_known(alloc: Global, text: &str, command: u32, budget: u64) -> Result<Known, Fail>
    requires { budget ≤ 100000000 }
{
    if text.len() > 1_048_576 {
        return Err("too long")?;
    }
    match read_model(alloc, text)? {
        ModelText::Typed(model) => known_in(alloc, &model, command, budget),
        _ => Err("no model")?,
    }
}

fn known_in(alloc: Global, model: &Named, command: u32, budget: u64) -> Result<Known, Fail>
    requires typed { IsTyped (named_view model.now) }
    requires budget { budget ≤ 100000000 }
{
    match facts_of(alloc, model, command, budget) {
        Ok(set) => known_of(alloc, &set),
        Err(LowerFault::Memory) => Err("no memory")?,
        Err(_) => Ok(Known::Refused),
    }
}

fn known_of(alloc: Global, set: &FactSet) -> Result<Known, Fail> {
    match set {
        FactSet::Satisfiable { scenario } => Ok(Known::Satisfiable(cells_in(alloc, scenario)?)),
        FactSet::Needs { core, scenarios } => {
            let mut without = Vec::new(alloc);
            for scenario in scenarios.scenarios() {
                without.push(cells_in(alloc, scenario)?)?;
            }
            let needed = Vec::from_slice(alloc, core.facts.as_slice())?;
            Ok(Known::Needs(needed, without))
        }
        FactSet::Spent(tried) => {
            let tried = Vec::from_slice(alloc, tried.facts.as_slice())?;
            Ok(Known::Spent(tried))
        }
    }
}

fn cells_in(alloc: Global, scenario: &Scenario) -> Result<Vec<u32>, Fail> {
    Ok(Vec::from_slice(alloc, scenario.numbers())?)
}
