// Numbers in an order in which the row of each stands before it.
ghost use Rattle.std.specs.Prelude.{◌≡◌, ◌<◌, ℕ, true, false, length, slice_index_or, IfOk};
ghost use Rattle.reference_cycles.specs.Cycles.Walks.{rows_of, row_of};
ghost use Rattle.reference_cycles.specs.Cycles.Orders.{IsOrder, IsMarked};

use crate::number_cycles::components::order;
use crate::number_cycles::walk::row;
use std::alloc::{AllocError, Global};

/// The numbers in an order in which each stands once, and behind those of its row. Want of memory is also answered where there
/// is no such order: where a number leads back to itself, or to one that has no row. It takes time that grows with the rows.
pub fn order_of(alloc: Global, rows: &[Vec<usize>]) -> Result<Vec<usize>, AllocError>
    ensures { IfOk result (λ order. IsOrder (rows_of rows.now) order.items) }
{
    let order = order(alloc, rows)?;
    if is_order(alloc, rows, order.as_slice())? {
        return Ok(order);
    }
    Err(AllocError)
}

// Whether each number stands once in this order, and behind those of its row.
fn is_order(alloc: Global, rows: &[Vec<usize>], order: &[usize]) -> Result<bool, AllocError>
    ensures { IfOk result (λ is. is ≡ true → IsOrder (rows_of rows.now) order.now) }
{
    if order.len() != rows.len() {
        return Ok(false);
    }
    let mut marks = vec![in alloc; false; rows.len()]?;
    for number in order {
        if !comes_next(rows, marks.as_slice(), *number) {
            return Ok(false);
        }
        marks[*number] = true;
    }
    Ok(all_marked(marks.as_slice()))
}

// Whether a number has a row, all of which is marked.
fn comes_next(rows: &[Vec<usize>], marks: &[bool], number: usize) -> bool
    ensures there { result ≡ true → number < length rows.now }
    ensures marked { result ≡ true → IsMarked marks.now (row_of (rows_of rows.now) number) }
{
    number < rows.len() && is_marked(marks, row(rows, number))
}

fn is_marked(marks: &[bool], row: &[usize]) -> bool
    ensures { result ≡ true → IsMarked marks.now row.now }
{
    for number in row {
        if !mark(marks, *number) {
            return false;
        }
    }
    true
}

fn all_marked(marks: &[bool]) -> bool
    ensures { result ≡ true → (k : ℕ) → k < length marks.now → slice_index_or marks.now k false ≡ true }
{
    for number in 0..marks.len() {
        if !mark(marks, number) {
            return false;
        }
    }
    true
}

// Whether a number is marked.
fn mark(marks: &[bool], number: usize) -> bool
    ensures { result ≡ slice_index_or marks.now number false }
{
    match marks.get(number) {
        Some(&is) => is,
        None => false,
    }
}
