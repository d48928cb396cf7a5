// What a round comes to, and the scenario that its search finds.
ghost use Rattle.std.specs.Prelude.{◌↔◌, ◌<◌, ◌≤◌, ℕ, length, AllPairs, Contains, IsTrue, IfOk};
ghost use Rattle.cnf_core.specs.Valuation.{value_of};
ghost use Rattle.translation_rules.specs.Translation.{var_of};

use cnf_core::Valuation;
use refutation_check::Part;
use rel_formula::Scenario;
use std::alloc::{AllocError, Global};

/// What a round comes to, with its parts in order.
#[derive(Drop)]
pub enum RoundEnd {
    /// A scenario that is due at the floor and was not shown.
    Due {
        scenario: Scenario,
        parts: Vec<Part>,
    },
    /// A copy of a scenario that was shown, and what is left of the budget when it is counted.
    Copy {
        scenario: Scenario,
        parts: Vec<Part>,
        left: u64,
    },
    /// Nothing is left to be found.
    Refuted {
        part: Part,
    },
    /// The budget was spent: the last part goes on, or no unit was left for a new copy.
    Spent {
        parts: Vec<Part>,
    },
}

// The scenario of the cells whose variables are true.
pub(crate) fn scenario_in(
    alloc: Global,
    cells: u32,
    valuation: &Valuation,
) -> Result<Scenario, AllocError>
    requires { cells ≤ length valuation.now }
    ensures cells { IfOk result (λ s. (cell : ℕ) → Contains s cell → cell < cells) }
    ensures values { IfOk result (λ s. (cell : ℕ) → cell < cells → IsTrue (value_of valuation.now (var_of cell)) ↔ Contains s cell) }
    ensures rising { IfOk result (λ s. AllPairs (λ m n. m < n) s) }
{
    let mut scenario = Scenario::new(alloc);
    for cell in 0..cells {
        if valuation.value(cell + 1) {
            scenario.insert(cell)?;
        }
    }
    Ok(scenario)
}
