// Lists of what was found at floors, where each floor has a number.
ghost use Rattle.std.specs.Prelude.{◌≡◌, ◌≢◌, ◌⊎◌, ◌+◌, ◌-◌, ◌<◌, ◌≤◌, ◌++◌, ◌∷◌, [], List, ℕ, All, AllPairs, Contains, IfOk, MatchOption, if◌then◌else◌, slice_get, slice_index_or, Some, map, take, length, vec_len, vec_capacity};
ghost use Rattle.session_state.specs.Store.Numbered.{scenarios_at, is_ended};

use rel_formula::Scenario;
use session_rules::EndProof;
use std::alloc::{AllocError, Global};

/// The most copies of shown scenarios that are kept.
pub(crate) const MOST_COPIES: usize = 1_000_000;

/// A scenario, and the number of the floor at which it was found.
#[derive(Drop)]
pub(crate) struct Found {
    pub floor: usize,
    pub scenario: Scenario,
}

/// The proof of the end of the floor of this number.
#[derive(Drop)]
pub(crate) struct Ended {
    pub floor: usize,
    pub proof: EndProof,
}

/// The number of the top floor: the first of those above the bottom, or the bottom's.
pub(crate) fn top_of(above: &[usize]) -> usize
    ensures { result ≡ slice_index_or above.now 0 0 }
{
    above.first().map_or(0, |number| *number)
}

/// The number of a floor among these.
pub(crate) fn number_of(floors: &[Scenario], floor: &Scenario) -> Option<usize>
    ensures { MatchOption result (All (λ f. f ≢ floor.now) floors.now) (λ n. slice_get floors.now n ≡ Some floor.now) }
{
    for (number, other) in floors.iter().enumerate() {
        if other.numbers() == floor.numbers() {
            return Some(number);
        }
    }
    None
}

/// Copies of the scenarios that were found at the floor of this number, in order.
pub(crate) fn copies_at(
    alloc: Global,
    found: &[Found],
    floor: usize,
) -> Result<Vec<Scenario>, AllocError>
    ensures { IfOk result (λ copies. copies.items ≡ scenarios_at floor found.now) }
{
    let mut copies = Vec::new(alloc);
    for one in found {
        if one.floor == floor {
            copies.push(one.scenario.copy(alloc)?)?;
        }
    }
    Ok(copies)
}

/// The scenario that was found last at the floor of this number.
pub(crate) fn last_at<'a>(found: &'a [Found], floor: usize) -> Option<&'a Scenario>
    ensures { MatchOption result (scenarios_at floor found.now ≡ []) (λ s. (before : List (List ℕ)) × (scenarios_at floor found.now ≡ before ++ s.now ∷ [])) }
{
    let mut last = None;
    for one in found {
        if one.floor == floor {
            last = Some(&one.scenario);
        }
    }
    last
}

/// The proof of the end of the floor of this number.
pub(crate) fn proof_at<'a>(ended: &'a [Ended], floor: usize) -> Option<&'a EndProof>
    ensures { MatchOption result (All (λ x. x.floor ≢ floor) ended.now) (λ p. Contains ended.now (record { floor = floor; proof = p.now })) }
{
    for one in ended {
        if one.floor == floor {
            return Some(&one.proof);
        }
    }
    None
}

/// The number of a floor among these, behind which it comes if it is new, where there is room for it.
pub(crate) fn enter(floors: &mut Vec<Scenario>, floor: Scenario) -> usize
    requires room { vec_len floors.old < vec_capacity floors.old }
    requires distinct { AllPairs (λ x y. x ≢ y) floors.old.items }
    ensures number { slice_get floors.new.items result ≡ Some floor }
    ensures distinct { AllPairs (λ x y. x ≢ y) floors.new.items }
    ensures grown { (floors.new.items ≡ floors.old.items) ⊎ (floors.new.items ≡ floors.old.items ++ floor ∷ []) }
{
    match number_of(floors.as_slice(), &floor) {
        Some(number) => number,
        None => {
            let number = floors.len();
            let _ = floors.push(floor);
            number
        }
    }
}

/// Puts the scenarios that were found at the floor of this number behind those that were found before, up to a million in all,
/// where there is room for them.
pub(crate) fn push_all(found: &mut Vec<Found>, floor: usize, scenarios: Vec<Scenario>)
    requires room { vec_len found.old + length scenarios.items ≤ vec_capacity found.old }
    requires few { vec_len found.old ≤ 1000000 }
    ensures found { found.new.items ≡ found.old.items ++ take (1000000 - length found.old.items) (map (λ s. record { floor = floor; scenario = s }) scenarios.items) }
    ensures few { vec_len found.new ≤ 1000000 }
    ensures room { vec_len found.new ≤ vec_capacity found.new }
{
    let mut left = scenarios;
    left.truncate(MOST_COPIES - found.as_slice().len());
    left.reverse();
    'pushing: while !left.as_slice().is_empty() {
        if let Some(scenario) = left.pop() {
            let _ = found.push(Found { floor, scenario });
        }
    }
}

// Whether the floor of this number has ended.
fn has_end(ended: &[Ended], floor: usize) -> bool
    ensures { result ≡ is_ended floor ended.now }
{
    ended.iter().any(|one| one.floor == floor)
}

/// Puts the proof of the end of the floor of this number behind the others, if there is none of it, where there is room.
pub(crate) fn push_end(ended: &mut Vec<Ended>, floor: usize, proof: EndProof)
    requires room { vec_len ended.old < vec_capacity ended.old }
    ensures { ended.new.items ≡ (if is_ended floor ended.old.items then ended.old.items else ended.old.items ++ record { floor = floor; proof = proof } ∷ []) }
{
    if !has_end(ended.as_slice(), floor) {
        let _ = ended.push(Ended { floor, proof });
    }
}

/// Puts a number in front, where there is room for it.
pub(crate) fn put_first(numbers: &mut Vec<usize>, number: usize)
    requires room { vec_len numbers.old < vec_capacity numbers.old }
    ensures { numbers.new.items ≡ number ∷ numbers.old.items }
{
    let _ = numbers.insert(0, number);
}
