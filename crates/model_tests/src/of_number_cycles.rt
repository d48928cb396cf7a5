// Cycles of numbers at the end of long chains, and orders of numbers.
use reference_cycles::number_cycles::{first_cyclic, order_of};
use std::alloc::{AllocError, Global};
use std::test::Fail;

fn empty_rows(alloc: Global) -> Result<Vec<Vec<usize>>, AllocError> {
    let mut rows = Vec::new(alloc);
    for _ in 0..5 {
        rows.push(Vec::new(alloc))?;
    }
    Ok(rows)
}

fn rows_of(alloc: Global, steps: &[(usize, usize)]) -> Result<Vec<Vec<usize>>, AllocError> {
    let mut rows = empty_rows(alloc)?;
    for (from, to) in steps {
        if *from < rows.len() {
            rows[*from].push(*to)?;
        }
    }
    Ok(rows)
}

fn row_to(alloc: Global, number: usize) -> Result<Vec<usize>, AllocError> {
    let mut row = Vec::new(alloc);
    row.push(number)?;
    Ok(row)
}

// 0 leads to 1, 1 to 2, and so on.
fn chain(alloc: Global, count: usize) -> Result<Vec<Vec<usize>>, AllocError> {
    let mut rows = Vec::new(alloc);
    for number in 1..count {
        rows.push(row_to(alloc, number)?)?;
    }
    Ok(rows)
}

fn cyclic_in_chain(alloc: Global) -> Result<Option<usize>, AllocError> {
    first_cyclic(alloc, &chain(alloc, 30_000)?)
}

#[test]
fn a_chain_of_30_000_is_walked_at_once(rt: HostRuntime) -> Result<(), Fail> {
    let found = cyclic_in_chain(rt.alloc())?;
    assert_eq!(rt; found, None);
    Ok(())
}

// Each number of the chain leads to a cycle, and only the last one is on it.
fn chain_before_cycle(alloc: Global) -> Result<Vec<Vec<usize>>, AllocError> {
    let mut rows = chain(alloc, 30_000)?;
    rows.push(row_to(alloc, 29_999)?)?;
    Ok(rows)
}

fn cyclic_behind_chain(alloc: Global) -> Result<Option<usize>, AllocError> {
    first_cyclic(alloc, &chain_before_cycle(alloc)?)
}

#[test]
fn a_chain_of_30_000_before_a_cycle_is_walked_at_once(rt: HostRuntime) -> Result<(), Fail> {
    let found = cyclic_behind_chain(rt.alloc())?;
    assert_eq!(rt; found, Some(29_999));
    Ok(())
}

fn order_in(alloc: Global, steps: &[(usize, usize)]) -> Result<Vec<usize>, AllocError> {
    order_of(alloc, &rows_of(alloc, steps)?)
}

#[test]
fn a_row_stands_before_its_number(rt: HostRuntime) -> Result<(), Fail> {
    let order = order_in(rt.alloc(), &[(0, 3), (3, 1), (2, 4), (1, 4)])?;
    assert_eq!(rt; order.as_slice(), [4, 1, 3, 0, 2].as_slice());
    Ok(())
}

// Whether there is an order.
fn is_ordered(alloc: Global, steps: &[(usize, usize)]) -> Result<bool, AllocError> {
    let rows = rows_of(alloc, steps)?;
    Ok(order_of(alloc, &rows).is_ok())
}

#[test]
fn there_is_no_order_round_a_cycle(rt: HostRuntime) -> Result<(), Fail> {
    let round = is_ordered(rt.alloc(), &[(0, 3), (3, 0)])?;
    assert!(rt; !round);
    let outside = is_ordered(rt.alloc(), &[(0, 7)])?;
    assert!(rt; !outside);
    Ok(())
}
