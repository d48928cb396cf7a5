// Whether a scenario is an instance.
ghost use Rattle.std.specs.Prelude.{◌↔◌, IfOk, IsTrue};
ghost use Rattle.rel_formula.specs.Instance.{IsInstance, AreCells};

use crate::evaluate::truth;
use crate::problem::Problem;
use crate::scenario::Scenario;
use crate::tables::Tables;
use std::alloc::{AllocError, Global};

/// Whether the scenario, whose numbers are those of cells of the problem, is an instance: the problem's formula is true in it.
/// It evaluates sets of tuples, and is as slow as that.
pub fn holds(alloc: Global, problem: &Problem, scenario: &Scenario) -> Result<bool, AllocError>
    requires { AreCells problem.now scenario.now }
    ensures { IfOk result (λ is. IsTrue is ↔ IsInstance problem.now scenario.now) }
{
    // the bounds and the formula of a problem fit each other, and the numbers of a scenario rise
    let _ = problem.relations(); // for the proof
    let _ = scenario.numbers(); // for the proof
    let tables = Tables::of(alloc, problem, scenario)?;
    let mut env = Vec::new(alloc);
    Ok(truth(alloc, &tables, &mut env, problem.formula())?)
}
