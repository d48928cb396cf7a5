// Marks for cells.
ghost use Rattle.std.specs.Prelude.{◌≡◌, ◌↔◌, ◌⊎◌, ◌<◌, ◌≤◌, ℕ, false, length, slice_index_or, AllPairs, Contains, IfOk, IsTrue};
ghost use Rattle.cnf_core.specs.Valuation.{value_of};
ghost use Rattle.translation_rules.specs.Translation.{var_of};

use cnf_core::Valuation;
use rel_formula::Scenario;
use std::alloc::{AllocError, Global};

/// Marks the cells whose variables are true, beside those that are marked already.
pub(crate) fn mark_true(marks: &mut [bool], valuation: &Valuation)
    requires few { length marks.old ≤ 4096 }
    requires enough { length marks.old ≤ length valuation.now }
    ensures count { length marks.new ≡ length marks.old }
    ensures marked { (cell : ℕ) → cell < length marks.old → IsTrue (slice_index_or marks.new cell false) ↔ (IsTrue (slice_index_or marks.old cell false) ⊎ IsTrue (value_of valuation.now (var_of cell))) }
{
    for (cell, mark) in marks.iter_mut().enumerate() {
        *mark = *mark || valuation.value(cell as u32 + 1);
    }
}

/// The marked cells outside the scenario, in order.
pub(crate) fn marked_outside(
    alloc: Global,
    scenario: &Scenario,
    marks: &[bool],
) -> Result<Vec<u32>, AllocError>
    requires { length marks.now ≤ 4096 }
    ensures exactly { IfOk result (λ cells. (cell : ℕ) → Contains cells.items cell ↔ ((cell < length marks.now) × (¬ Contains scenario.now cell) × IsTrue (slice_index_or marks.now cell false))) }
    ensures rising { IfOk result (λ cells. AllPairs (λ m n. m < n) cells.items) }
{
    let mut cells = Vec::new(alloc);
    for (place, mark) in marks.iter().enumerate() {
        let cell = place as u32;
        if *mark && !scenario.has(cell) {
            cells.push(cell)?;
        }
    }
    Ok(cells)
}
