// The images of the cells under the swaps of neighbours, as a table.
ghost use Rattle.std.specs.Prelude.{◌≡◌, ◌↔◌, ◌<◌, ℕ, length, Some, IfOk, IfSome};
ghost use Rattle.tuple_core.specs.Swap.{swap_atoms};
ghost use Rattle.rel_formula.specs.Bounds.{cells_of};
ghost use Rattle.rel_formula.specs.Renaming.{IsCellImage};
ghost use Rattle.swap_symmetry.specs.Images.{pair_in, IsSwapRow, AreImages};

use crate::pairs::neighbours;
use rel_formula::Problem;
use std::alloc::{AllocError, Global};
use tuple_core::Atom;

/// For each two neighbours the number of the cell to which their swap takes each cell, where there is one. The pairs come in
/// the order of their first atoms.
#[derive(Drop)]
pub struct SwapImages {
    rows: Vec<SwapRow>,
}

/// The swap of two atoms, and by the number of each cell that of its image.
#[derive(Drop)]
pub(crate) struct SwapRow {
    pub(crate) first: Atom,
    pub(crate) second: Atom,
    images: Vec<Option<u32>>,
}

impl SwapImages {
    /// The table of a problem. The error comes only for want of memory.
    pub fn of(alloc: Global, problem: &Problem) -> Result<SwapImages, AllocError>
        ensures { IfOk result (AreImages problem.now) }
    {
        let pairs = neighbours(alloc, problem)?;
        let mut rows = Vec::new(alloc);
        for pair in &pairs {
            rows.push(row_of(alloc, problem, pair.0, pair.1)?)?;
        }
        Ok(SwapImages { rows })
    }

    // The rows.
    pub(crate) fn rows(&self) -> &[SwapRow]
        ensures { result.now ≡ self.now.rows.items }
    {
        self.rows.as_slice()
    }
}

// The row of a swap.
fn row_of(
    alloc: Global,
    problem: &Problem,
    first: Atom,
    second: Atom,
) -> Result<SwapRow, AllocError>
    ensures { IfOk result (λ row. (pair_in row ≡ (first, second)) × IsSwapRow problem.now row) }
{
    let mut images = Vec::new(alloc);
    for number in 0..problem.cells() {
        images.push(problem.swapped(number, first, second))?;
    }
    Ok(SwapRow {
        first,
        second,
        images,
    })
}

// The number of the cell that the swap makes of this one, if there is such a cell: from the swap's row, where that is given.
pub(crate) fn image_of(
    problem: &Problem,
    row: Option<&SwapRow>,
    first: Atom,
    second: Atom,
    number: u32,
) -> Option<u32>
    requires row { IfSome row (λ r. (pair_in r.now ≡ (first, second)) × IsSwapRow problem.now r.now) }
    requires number { number < length (cells_of problem.now) }
    ensures { (n : ℕ) → (result ≡ Some n) ↔ IsCellImage problem.now (swap_atoms first second) number n }
{
    match row {
        Some(row) => row.images[number as usize],
        None => problem.swapped(number, first, second),
    }
}
