// Scenarios in order.
ghost use Rattle.std.specs.Prelude.{◌≡◌, ◌≢◌, ◌⊎◌, ◌<◌, ◌≤◌, [], ℕ, slice_index_or, length, AllPairs, IfOk, IsTrue};
ghost use Rattle.swap_symmetry.specs.Order.{IsEarlier};
ghost use Rattle.session_state.specs.Sessions.Listed.{AreInOrder, comes_first};

use rel_formula::Scenario;
use std::alloc::{AllocError, Global};

/// Copies of distinct scenarios, the earlier ones first. The error comes only for want of memory.
pub fn in_order(alloc: Global, scenarios: &[Scenario]) -> Result<Vec<Scenario>, AllocError>
    requires { AllPairs (λ x y. x ≢ y) scenarios.now }
    ensures { IfOk result (λ listed. AreInOrder scenarios.now listed.items) }
{
    let mut listed = Vec::new(alloc);
    for scenario in scenarios {
        let place = place_of(listed.as_slice(), scenario);
        listed.insert(place, scenario.copy(alloc)?)?;
    }
    Ok(listed)
}

// The place among scenarios in order before which all are earlier, and none from there on.
fn place_of(listed: &[Scenario], scenario: &Scenario) -> usize
    requires { AllPairs IsEarlier listed.now }
    ensures within { result ≤ length listed.now }
    ensures before { (k : ℕ) → k < result → IsEarlier (slice_index_or listed.now k []) scenario.now }
    ensures behind { (k : ℕ) → result ≤ k → k < length listed.now → (slice_index_or listed.now k [] ≡ scenario.now) ⊎ IsEarlier scenario.now (slice_index_or listed.now k []) }
{
    let mut low = 0;
    let mut high = listed.len();
    'halving: while low < high {
        let middle = low + (high - low) / 2;
        if is_earlier(&listed[middle], scenario) {
            low = middle + 1;
        } else {
            high = middle;
        }
    }
    low
}

// Whether the first scenario is earlier; if not, it is the second, or that is earlier.
fn is_earlier(first: &Scenario, second: &Scenario) -> bool
    ensures earlier { IsTrue result → IsEarlier first.now second.now }
    ensures other { ¬ IsTrue result → (first.now ≡ second.now) ⊎ IsEarlier second.now first.now }
{
    comes_first(first.numbers(), second.numbers())
}

// Whether the first of two rising lists has the first number in which they differ.
fn comes_first(first: &[u32], second: &[u32]) -> bool
    ensures { result ≡ comes_first first.now second.now }
{
    for (place, one) in first.iter().enumerate() {
        if place >= second.len() {
            return true;
        }
        let other = second[place];
        if *one != other {
            return *one < other;
        }
    }
    false
}
