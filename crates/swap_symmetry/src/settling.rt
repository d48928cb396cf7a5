// Scenarios made settled.
ghost use Rattle.std.specs.Prelude.{◌≡◌, [], false, IsTrue, IfSome};
ghost use Rattle.rel_formula.specs.Instance.{AreCells, IsScenario, Includes, IsMinimalAbove};
ghost use Rattle.rel_formula.specs.Renaming.{IsRenamingOf, IsRenamingBeside, IsSymmetric};
ghost use Rattle.swap_symmetry.specs.Images.{AreImages};
ghost use Rattle.swap_symmetry.specs.Order.{IsEarlier};
ghost use Rattle.swap_symmetry.specs.Swaps.{IsSettled, IsSettledBeside};

use crate::images::SwapImages;
use crate::settled::earlier_swap;
use rel_formula::{Problem, Scenario};

/// Renames a scenario of a symmetric problem, so that it is settled. One that was minimal stays so.
pub fn settle(problem: &Problem, scenario: &mut Scenario)
    requires cells { AreCells problem.now scenario.old }
    requires symmetric { IsSymmetric problem.now }
    ensures scenario { IsScenario problem.now scenario.new }
    ensures renaming { IsRenamingOf problem.now scenario.old scenario.new }
    ensures settled { IsSettled problem.now scenario.new }
    ensures minimal { IsMinimalAbove problem.now [] scenario.old → IsMinimalAbove problem.now [] scenario.new }
{
    settle_without(problem, None, &[], scenario);
}

/// Renames a scenario of a symmetric problem, so that it is settled beside the floor, and each atom that stands in a cell of
/// the floor keeps its name. One that was minimal above the floor stays so, and one that has the floor's cells keeps them.
pub fn settle_beside(problem: &Problem, floor: &Scenario, scenario: &mut Scenario)
    requires cells { AreCells problem.now scenario.old }
    requires symmetric { IsSymmetric problem.now }
    ensures scenario { IsScenario problem.now scenario.new }
    ensures renaming { IsRenamingBeside problem.now floor.now scenario.old scenario.new }
    ensures settled { IsSettledBeside problem.now floor.now scenario.new }
    ensures above { Includes scenario.old floor.now → Includes scenario.new floor.now }
    ensures minimal { IsMinimalAbove problem.now floor.now scenario.old → IsMinimalAbove problem.now floor.now scenario.new }
{
    settle_without(problem, None, floor.numbers(), scenario);
}

/// Renames a scenario of a symmetric problem, as `settle_beside` does, by the problem's table.
pub fn settle_by(problem: &Problem, images: &SwapImages, floor: &Scenario, scenario: &mut Scenario)
    requires images { AreImages problem.now images.now }
    requires cells { AreCells problem.now scenario.old }
    requires symmetric { IsSymmetric problem.now }
    ensures scenario { IsScenario problem.now scenario.new }
    ensures renaming { IsRenamingBeside problem.now floor.now scenario.old scenario.new }
    ensures settled { IsSettledBeside problem.now floor.now scenario.new }
    ensures above { Includes scenario.old floor.now → Includes scenario.new floor.now }
    ensures minimal { IsMinimalAbove problem.now floor.now scenario.old → IsMinimalAbove problem.now floor.now scenario.new }
{
    settle_without(problem, Some(images), floor.numbers(), scenario);
}

// Swaps neighbours that stand in none of these cells, until no such swap makes the scenario earlier.
fn settle_without(
    problem: &Problem,
    images: Option<&SwapImages>,
    floor: &[u32],
    scenario: &mut Scenario,
)
    requires images { IfSome images (λ table. AreImages problem.now table.now) }
    requires cells { AreCells problem.now scenario.old }
    requires symmetric { IsSymmetric problem.now }
    ensures scenario { IsScenario problem.now scenario.new }
    ensures renaming { IsRenamingBeside problem.now floor.now scenario.old scenario.new }
    ensures settled { IsSettledBeside problem.now floor.now scenario.new }
    ensures above { Includes scenario.old floor.now → Includes scenario.new floor.now }
    ensures minimal { IsScenario problem.now floor.now → IsMinimalAbove problem.now floor.now scenario.old → IsMinimalAbove problem.now floor.now scenario.new }
{
    let _ = problem.relations(); // for the proof
    let _ = scenario.numbers(); // for the proof
    'swaps: while swap_once(problem, images, floor, scenario) {}
}

// Swaps two neighbours that stand in none of these cells, if some such swap makes the scenario earlier, and says whether it did.
fn swap_once(
    problem: &Problem,
    images: Option<&SwapImages>,
    floor: &[u32],
    scenario: &mut Scenario,
) -> bool
    requires images { IfSome images (λ table. AreImages problem.now table.now) }
    requires scenario { IsScenario problem.now scenario.old }
    requires symmetric { IsSymmetric problem.now }
    ensures scenario { IsScenario problem.now scenario.new }
    ensures renaming { IsRenamingBeside problem.now floor.now scenario.old scenario.new }
    ensures earlier { IsTrue result → IsEarlier scenario.new scenario.old }
    ensures settled { result ≡ false → IsSettledBeside problem.now floor.now scenario.new }
{
    match earlier_swap(problem, images, floor, scenario) {
        Some((first, second)) => {
            scenario.swap_atoms(problem, first, second);
            true
        }
        None => false,
    }
}
