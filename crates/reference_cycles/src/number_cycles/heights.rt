// Heights of numbers: no edge leads to a higher one.
ghost use Rattle.std.specs.Prelude.{◌≡◌, ◌<◌, true, length, IfOk};
ghost use Rattle.reference_cycles.specs.Cycles.Walks.{rows_of, IsAcyclic};
ghost use Rattle.reference_cycles.specs.Cycles.Marks.{height_of, AreAtMost, AreHeights};

use crate::number_cycles::components::components;
use crate::number_cycles::walk::row;
use std::alloc::{AllocError, Global};

/// Heights of the numbers. Where they are those of components, an edge between numbers of one height is part of a cycle.
pub fn heights(alloc: Global, rows: &[Vec<usize>]) -> Result<Vec<usize>, AllocError>
    ensures { IfOk result (λ heights. AreHeights (rows_of rows.now) heights.items) }
{
    let heights = components(alloc, rows)?;
    if never_rise(rows, heights.as_slice()) {
        return Ok(heights);
    }
    Ok(Vec::new(alloc))
}

/// Whether each edge of a number leads to a lower one.
pub fn falls(rows: &[Vec<usize>], heights: &[usize], number: usize) -> bool
    requires there { number < length rows.now }
    requires heights { AreHeights (rows_of rows.now) heights.now }
    ensures { result ≡ true → IsAcyclic (rows_of rows.now) number }
{
    let height = height(heights, number);
    height > 0 && at_most(row(rows, number), heights, height - 1)
}

fn never_rise(rows: &[Vec<usize>], heights: &[usize]) -> bool
    ensures { result ≡ true → AreHeights (rows_of rows.now) heights.now }
{
    for number in 0..rows.len() {
        if !at_most(row(rows, number), heights, height(heights, number)) {
            return false;
        }
    }
    true
}

// Whether no number of a row is higher than this.
fn at_most(row: &[usize], heights: &[usize], most: usize) -> bool
    ensures { result ≡ true → AreAtMost heights.now most row.now }
{
    for number in row {
        if height(heights, *number) > most {
            return false;
        }
    }
    true
}

// The height of a number, and 0 for one that has no row.
fn height(heights: &[usize], number: usize) -> usize
    ensures { result ≡ height_of heights.now number }
{
    if number < heights.len() {
        heights[number]
    } else {
        0
    }
}
