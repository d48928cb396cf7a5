// The order of scenarios.
ghost use Rattle.std.specs.Prelude.{◌↔◌, IsTrue};
ghost use Rattle.rel_formula.specs.Instance.{AreCells};
ghost use Rattle.swap_symmetry.specs.Order.{IsEarlier};

use rel_formula::{Problem, Scenario};

/// Whether the first scenario has the first cell in which the two differ. The first is a scenario of the problem.
pub fn earlier(problem: &Problem, first: &Scenario, second: &Scenario) -> bool
    requires { AreCells problem.now first.now }
    ensures { IsTrue result ↔ IsEarlier first.now second.now }
{
    for number in 0..problem.cells() {
        let here = first.has(number);
        if here != second.has(number) {
            return here;
        }
    }
    false
}
