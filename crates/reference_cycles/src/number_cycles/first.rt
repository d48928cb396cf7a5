// The first number that leads back to itself.
ghost use Rattle.std.specs.Prelude.{◌≡◌, ◌<◌, true, false, length, IfOk};
ghost use Rattle.reference_cycles.specs.Cycles.Walks.{rows_of, IsFirstCyclic, IsCyclic, IsAcyclic};
ghost use Rattle.reference_cycles.specs.Cycles.Marks.{AreHeights};

use crate::number_cycles::heights::{falls, heights};
use crate::number_cycles::walk::leads_back;
use std::alloc::{AllocError, Global};

/// The first number from which a walk of one edge or more leads back to itself, if there is one, in time that grows with the
/// rows. Each number leads to those of its row; numbers that have no row lead nowhere.
pub fn first_cyclic(alloc: Global, rows: &[Vec<usize>]) -> Result<Option<usize>, AllocError>
    ensures { IfOk result (IsFirstCyclic (rows_of rows.now)) }
{
    let heights = heights(alloc, rows)?;
    for number in 0..rows.len() {
        if is_cyclic(alloc, rows, heights.as_slice(), number)? {
            return Ok(Some(number));
        }
    }
    Ok(None)
}

// Whether a number leads back to itself. Where each of its edges leads to a lower number no walk comes back; else it is walked.
fn is_cyclic(
    alloc: Global,
    rows: &[Vec<usize>],
    heights: &[usize],
    number: usize,
) -> Result<bool, AllocError>
    requires there { number < length rows.now }
    requires heights { AreHeights (rows_of rows.now) heights.now }
    ensures yes { IfOk result (λ b. b ≡ true → IsCyclic (rows_of rows.now) number) }
    ensures no { IfOk result (λ b. b ≡ false → IsAcyclic (rows_of rows.now) number) }
{
    if falls(rows, heights, number) {
        return Ok(false);
    }
    Ok(leads_back(alloc, rows, number)?)
}
