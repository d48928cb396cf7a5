// Scenarios by the numbers of their cells.
ghost use Rattle.std.specs.Prelude.{IfOk};
ghost use Rattle.rel_formula.specs.Instance.{AreCells};

use rel_formula::{Problem, Scenario};
use std::alloc::{AllocError, Global};

/// The scenario of those of these numbers that cells of the problem have.
pub fn chosen(alloc: Global, problem: &Problem, numbers: &[u32]) -> Result<Scenario, AllocError>
    ensures { IfOk result (λ s. AreCells problem.now s) }
{
    let mut scenario = Scenario::new(alloc);
    for number in numbers {
        if *number < problem.cells() {
            scenario.insert(*number)?;
        }
    }
    Ok(scenario)
}

/// The scenario of the cells whose bits are set.
pub fn scenario_of(alloc: Global, problem: &Problem, bits: u32) -> Result<Scenario, AllocError>
    ensures { IfOk result (λ s. AreCells problem.now s) }
{
    let mut scenario = Scenario::new(alloc);
    for cell in 0..problem.cells().min(31) {
        if (bits >> cell) % 2 == 1 {
            scenario.insert(cell)?;
        }
    }
    Ok(scenario)
}

/// The bits of these cells.
pub fn bits_of(cells: &[u32]) -> u32 {
    let mut bits = 0;
    for cell in cells {
        if *cell < 32 {
            bits |= 1 << *cell;
        }
    }
    bits
}
