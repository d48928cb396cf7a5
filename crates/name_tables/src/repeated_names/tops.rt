// The top-level signatures over signatures.
ghost use Rattle.std.specs.Prelude.{◌≡◌, ◌==◌, ℕ, suc, slice_index_or, None, if◌then◌else◌, IfOk, OnOk};
ghost use Rattle.name_tables.specs.Repeats.Climbing.{top_in, AreParents};

use crate::repeated_names::links::Link;
use std::alloc::{AllocError, Global};

/// The parent of each name, by numbers, where of several signatures of one name the first one counts; and how many
/// signatures there are.
#[derive(Drop)]
pub struct Parents {
    pub table: Vec<Option<usize>>,
    pub count: usize,
}

/// The parents that these signatures have.
pub fn parents_of(alloc: Global, links: &[Link]) -> Result<Parents, AllocError>
    ensures { IfOk result (AreParents links.now) }
{
    let mut table = Vec::new(alloc);
    for place in 0..links.len() {
        let number = links.len() - 1 - place;
        set(&mut table, &links[number])?;
    }
    Ok(Parents {
        table,
        count: links.len(),
    })
}

// Puts the parent of a name into the table.
fn set(table: &mut Vec<Option<usize>>, link: &Link) -> Result<(), AllocError>
    ensures { OnOk result ((w : ℕ) → slice_index_or table.new.items w None ≡ (if link.now.name == w then link.now.parent else slice_index_or table.old.items w None)) }
{
    let number = link.name;
    'grow: while table.len() <= number {
        table.push(None)?;
    }
    table[number] = link.parent;
    Ok(())
}

/// The number of the top-level signature over a name; none, where parents go round in a circle. Each step takes from what
/// is left of `steps`; more than that are want of memory.
pub fn top(parents: &Parents, steps: &mut usize, number: usize) -> Result<Option<usize>, AllocError>
    ensures { IfOk result (λ top. top ≡ top_in parents.now.table.items (suc parents.now.count) number) }
{
    let mut above = number;
    for _step in 0..parents.count {
        *steps = steps.checked_sub(1).ok_or(AllocError)?;
        match parent(&parents.table, above) {
            Some(parent) => above = parent,
            None => return Ok(Some(above)),
        }
    }
    Ok(itself(&parents.table, above))
}

// A number that has no parent.
fn itself(table: &[Option<usize>], number: usize) -> Option<usize>
    ensures { result ≡ top_in table.now 1 number }
{
    match parent(table, number) {
        Some(_) => None,
        None => Some(number),
    }
}

// The parent that the table has for a number.
fn parent(table: &[Option<usize>], number: usize) -> Option<usize>
    ensures { result ≡ slice_index_or table.now number None }
{
    if number < table.len() {
        table[number]
    } else {
        None
    }
}
