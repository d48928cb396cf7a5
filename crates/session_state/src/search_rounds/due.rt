// Where a minimal scenario leads: to one that is due and new, or to a copy of one that was shown.
ghost use Rattle.std.specs.Prelude.{◌≡◌, ◌↔◌, Contains, IsTrue, IfOk};
ghost use Rattle.rel_formula.specs.Instance.{IsMinimalAbove};
ghost use Rattle.rel_formula.specs.Renaming.{IsSymmetric};
ghost use Rattle.swap_symmetry.specs.Images.{AreImages};
ghost use Rattle.session_state.specs.Rounds.Rounds.{parts_in};
ghost use Rattle.session_state.specs.Rounds.Descended.{IsDueOrCopy};

use crate::search_rounds::round::RoundEnd;
use refutation_check::Part;
use rel_formula::{Problem, Scenario};
use std::alloc::{AllocError, Global};
use swap_symmetry::{SwapImages, is_settled_by, settle_by};

/// The end of a round with these parts, which came to a scenario that is minimal above the floor and was not shown. It, or a renaming
/// of it that keeps the floor's atoms, is due and was not shown; or such a renaming of it was shown. A copy is one more unit,
/// where one is left.
pub(crate) fn due_or_copy(
    alloc: Global,
    problem: &Problem,
    images: &SwapImages,
    floor: &Scenario,
    shown: &[Scenario],
    scenario: Scenario,
    parts: Vec<Part>,
    left: u64,
) -> Result<RoundEnd, AllocError>
    requires images { AreImages problem.now images.now }
    requires symmetric { IsSymmetric problem.now }
    requires minimal { IsMinimalAbove problem.now floor.now scenario }
    requires new { ¬ Contains shown.now scenario }
    ensures { IfOk result (λ end. (parts_in end ≡ parts.items) × IsDueOrCopy problem.now floor.now shown.now scenario left end) }
{
    if is_settled_by(problem, images, floor, &scenario) {
        return Ok(RoundEnd::Due { scenario, parts });
    }
    let mut settled = scenario.copy(alloc)?;
    settle_by(problem, images, floor, &mut settled);
    if !is_among(shown, &settled) {
        return Ok(RoundEnd::Due {
            scenario: settled,
            parts,
        });
    }
    if left == 0 {
        return Ok(RoundEnd::Spent { parts });
    }
    let left = left - 1;
    Ok(RoundEnd::Copy {
        scenario,
        parts,
        left,
    })
}

// Whether the scenario is one of these.
fn is_among(scenarios: &[Scenario], scenario: &Scenario) -> bool
    ensures { IsTrue result ↔ Contains scenarios.now scenario.now }
{
    for other in scenarios {
        if is_same(other, scenario) {
            return true;
        }
    }
    false
}

// Whether the two are one scenario.
fn is_same(first: &Scenario, second: &Scenario) -> bool
    ensures { IsTrue result ↔ (first.now ≡ second.now) }
{
    first.numbers() == second.numbers()
}
