// All sets of cells.
ghost use Rattle.std.specs.Prelude.{◌≡◌, ◌≢◌, ◌↔◌, ◌<◌, ◌≤◌, ◌∷◌, [], ◌++◌, ℕ, List, length, map, All, AllPairs, Contains, IfOk};
ghost use Rattle.samples.specs.Exhaustive.Subsets.{IsRisingBelow};

use rel_formula::Scenario;
use std::alloc::{AllocError, Global};

/// Each set of the cells that are numbered below `cells`, once. There are at most 12 cells.
pub fn all_subsets(alloc: Global, cells: u32) -> Result<Vec<Scenario>, AllocError>
    requires { cells ≤ 12 }
    ensures all { IfOk result (λ sets. (s : List ℕ) → Contains sets.items s ↔ IsRisingBelow cells s) }
    ensures once { IfOk result (λ sets. AllPairs (λ s t. s ≢ t) sets.items) }
    ensures few { IfOk result (λ sets. length sets.items ≤ 4096) }
{
    let mut sets = Vec::new(alloc);
    sets.push(Scenario::new(alloc))?;
    for number in 0..cells {
        add_with(alloc, &mut sets, number)?;
    }
    Ok(sets)
}

// Adds each of the sets with one cell more, which comes after all of theirs.
fn add_with(alloc: Global, sets: &mut Vec<Scenario>, number: u32) -> Result<(), AllocError>
    requires { All (IsRisingBelow number) sets.old.items }
    ensures { IfOk result (λ _. sets.new.items ≡ sets.old.items ++ map (λ s. s ++ number ∷ []) sets.old.items) }
{
    let before = sets.len();
    for place in 0..before {
        let with = with_cell(alloc, &sets[place], number)?;
        sets.push(with)?;
    }
    Ok(())
}

// The set with one cell more.
fn with_cell(alloc: Global, set: &Scenario, number: u32) -> Result<Scenario, AllocError>
    requires { IsRisingBelow number set.now }
    ensures { IfOk result (λ with. with ≡ set.now ++ number ∷ []) }
{
    let mut with = set.copy(alloc)?;
    with.insert(number)?;
    Ok(with)
}
