// The least members of classes.
ghost use Rattle.std.specs.Prelude.{◌≡◌, ◌↔◌, ◌⊎◌, ◌<◌, ◌≤◌, true, false, [], ℕ, List, length, slice_index_or, All, AllPairs, Contains, IfOk};
ghost use Rattle.rel_formula.specs.Instance.{AreCells, IsScenario};
ghost use Rattle.rel_formula.specs.Renaming.{IsSymmetric};
ghost use Rattle.swap_symmetry.specs.Order.{IsEarlier};
ghost use Rattle.renaming_classes.specs.Least.{IsLeastRenamingOf};
ghost use Rattle.renaming_classes.specs.Classes.{AreClasses};

use crate::placing::Placing;
use rel_formula::{Problem, Scenario};
use std::alloc::{AllocError, Global};
use swap_symmetry::earlier;

/// The least of all renamings of a scenario of a symmetric problem. The error comes only for want of memory.
pub fn least(alloc: Global, problem: &Problem, scenario: &Scenario) -> Result<Scenario, AllocError>
    requires symmetric { IsSymmetric problem.now }
    requires cells { AreCells problem.now scenario.now }
    ensures { IfOk result (IsLeastRenamingOf problem.now scenario.now) }
{
    let placing = Placing::of(alloc, problem)?;
    placing.least(alloc, problem, scenario)
}

/// The least members of the classes of these scenarios of a symmetric problem, each class once, the earlier ones first. The
/// error comes only for want of memory.
pub fn classes(
    alloc: Global,
    problem: &Problem,
    all: &[Scenario],
) -> Result<Vec<Scenario>, AllocError>
    requires symmetric { IsSymmetric problem.now }
    requires cells { All (AreCells problem.now) all.now }
    ensures { IfOk result (λ found. AreClasses problem.now all.now found.items) }
{
    let placing = Placing::of(alloc, problem)?;
    let mut found = Vec::new(alloc);
    for scenario in all {
        let member = placing.least(alloc, problem, scenario)?;
        add(&mut found, problem, member)?;
    }
    Ok(found)
}

// Puts the scenario in its place among scenarios in order, if it isn't there yet.
fn add(found: &mut Vec<Scenario>, problem: &Problem, member: Scenario) -> Result<(), AllocError>
    requires found { All (IsScenario problem.now) found.old.items }
    requires sorted { AllPairs IsEarlier found.old.items }
    requires member { IsScenario problem.now member }
    ensures members { IfOk result (λ _. (t : List ℕ) → Contains found.new.items t ↔ (Contains found.old.items t ⊎ (t ≡ member))) }
    ensures sorted { IfOk result (λ _. AllPairs IsEarlier found.new.items) }
{
    let place = place_of(found.as_slice(), problem, &member);
    if is_at(found.as_slice(), place, problem, &member) {
        return Ok(());
    }
    found.insert(place, member)?;
    Ok(())
}

// Whether there is a scenario at the place, and the other one isn't earlier.
fn is_at(found: &[Scenario], place: usize, problem: &Problem, member: &Scenario) -> bool
    requires { AreCells problem.now member.now }
    ensures there { result ≡ true → (place < length found.now) × (IsEarlier member.now (slice_index_or found.now place []) → ⊥) }
    ensures other { result ≡ false → place < length found.now → IsEarlier member.now (slice_index_or found.now place []) }
{
    place < found.len() && !earlier(problem, member, &found[place])
}

// The place among scenarios in order before which all are earlier, and none from there on.
fn place_of(found: &[Scenario], problem: &Problem, member: &Scenario) -> usize
    requires found { All (IsScenario problem.now) found.now }
    requires sorted { AllPairs IsEarlier found.now }
    ensures within { result ≤ length found.now }
    ensures before { (k : ℕ) → k < result → IsEarlier (slice_index_or found.now k []) member.now }
    ensures behind { (k : ℕ) → result ≤ k → k < length found.now → ¬ IsEarlier (slice_index_or found.now k []) member.now }
{
    let mut low = 0;
    let mut high = found.len();
    'halving: while low < high {
        let middle = low + (high - low) / 2;
        if earlier(problem, &found[middle], member) {
            low = middle + 1;
        } else {
            high = middle;
        }
    }
    low
}
