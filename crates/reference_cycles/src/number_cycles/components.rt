// Components: numbers that lead to each other are in one.
use std::alloc::{AllocError, Global};

/// The components of the numbers, counted from 1, so that no edge leads to a higher one. Nothing rests on this: whoever uses
/// it looks whether it is so.
pub fn components(alloc: Global, rows: &[Vec<usize>]) -> Result<Vec<usize>, AllocError> {
    let order = order(alloc, turned(alloc, rows)?.as_slice())?;
    let mut components = vec![in alloc; 0; rows.len()]?;
    let mut open = Vec::new(alloc);
    for place in 0..order.len() {
        let start = order[order.len() - 1 - place];
        fill(&mut components, &mut open, rows, start, place + 1)?;
    }
    Ok(components)
}

// Puts a number, and those to which it leads, into a component, if they are in none.
fn fill(
    components: &mut Vec<usize>,
    open: &mut Vec<usize>,
    rows: &[Vec<usize>],
    start: usize,
    component: usize,
) -> Result<(), AllocError> {
    put(components, open, start, component)?;
    for _ in 0..rows.len() {
        match open.pop() {
            Some(number) if number < rows.len() => {
                put_all(components, open, rows[number].as_slice(), component)?;
            }
            _ => break,
        }
    }
    Ok(())
}

fn put_all(
    components: &mut Vec<usize>,
    open: &mut Vec<usize>,
    row: &[usize],
    component: usize,
) -> Result<(), AllocError> {
    for number in row {
        put(components, open, *number, component)?;
    }
    Ok(())
}

fn put(
    components: &mut Vec<usize>,
    open: &mut Vec<usize>,
    number: usize,
    component: usize,
) -> Result<(), AllocError> {
    if number < components.len() && components[number] == 0 {
        components[number] = component;
        open.push(number)?;
    }
    Ok(())
}

// The rows of the edges turned round.
fn turned(alloc: Global, rows: &[Vec<usize>]) -> Result<Vec<Vec<usize>>, AllocError> {
    let mut turned = Vec::new(alloc);
    for _ in rows {
        turned.push(Vec::new(alloc))?;
    }
    for number in 0..rows.len() {
        turn(&mut turned, rows[number].as_slice(), number)?;
    }
    Ok(turned)
}

fn turn(turned: &mut Vec<Vec<usize>>, row: &[usize], number: usize) -> Result<(), AllocError> {
    for other in row {
        if *other < turned.len() {
            turned[*other].push(number)?;
        }
    }
    Ok(())
}

// A walk in depth: the numbers on the way to the newest one, how much of each row was looked at, and the numbers that were
// left behind.
#[derive(Drop)]
struct Tour {
    way: Vec<usize>,
    met: Vec<bool>,
    looked: Vec<usize>,
    left: Vec<usize>,
}

// The numbers in the order in which a walk in depth leaves them.
pub fn order(alloc: Global, rows: &[Vec<usize>]) -> Result<Vec<usize>, AllocError> {
    let mut tour = Tour {
        way: Vec::new(alloc),
        met: vec![in alloc; false; rows.len()]?,
        looked: vec![in alloc; 0; rows.len()]?,
        left: Vec::new(alloc),
    };
    let steps = steps(rows);
    for start in 0..rows.len() {
        enter(&mut tour, start)?;
        for _ in 0..steps {
            if tour.way.is_empty() {
                break;
            }
            step(&mut tour, rows)?;
        }
    }
    Ok(tour.left)
}

// At most so many steps are made: one along each edge, and one out of each number.
fn steps(rows: &[Vec<usize>]) -> usize {
    let mut steps = rows.len();
    for row in rows {
        steps = steps.saturating_add(row.len());
    }
    steps
}

fn enter(tour: &mut Tour, number: usize) -> Result<(), AllocError> {
    if number < tour.met.len() && !tour.met[number] {
        tour.met[number] = true;
        tour.way.push(number)?;
    }
    Ok(())
}

// Goes along the next edge of the newest number, or leaves it, where there is none.
fn step(tour: &mut Tour, rows: &[Vec<usize>]) -> Result<(), AllocError> {
    match tour.way.pop() {
        Some(number) if number < rows.len() && number < tour.looked.len() => {
            let place = tour.looked[number];
            if place < rows[number].len() {
                let other = rows[number][place];
                tour.looked[number] = place + 1;
                tour.way.push(number)?;
                enter(tour, other)
            } else {
                Ok(tour.left.push(number)?)
            }
        }
        _ => Ok(()),
    }
}
