// A walk from a number along the rows.
ghost use Rattle.std.specs.Prelude.{◌≡◌, ◌<◌, [], ℕ, true, false, length, slice_index_or, IfOk, OnOk};
ghost use Rattle.reference_cycles.specs.Cycles.Walks.{rows_of, row_of, IsCyclic, IsAcyclic};
ghost use Rattle.reference_cycles.specs.Cycles.Marks.{met_with, Meets};

use indexmap::IndexSet;
use std::alloc::{AllocError, Global};

/// Whether a number leads back to itself.
pub fn leads_back(alloc: Global, rows: &[Vec<usize>], start: usize) -> Result<bool, AllocError>
    requires { start < length rows.now }
    ensures yes { IfOk result (λ b. b ≡ true → IsCyclic (rows_of rows.now) start) }
    ensures no { IfOk result (λ b. b ≡ false → IsAcyclic (rows_of rows.now) start) }
{
    let mut met = IndexSet::new(alloc);
    comes_back(&mut met, rows, start)
}

// Whether a walk from a number meets it again, where nothing was met before.
fn comes_back(
    met: &mut IndexSet<usize>,
    rows: &[Vec<usize>],
    start: usize,
) -> Result<bool, AllocError>
    requires there { start < length rows.now }
    requires none { met.old.keys ≡ [] }
    ensures yes { IfOk result (λ b. b ≡ true → IsCyclic (rows_of rows.now) start) }
    ensures no { IfOk result (λ b. b ≡ false → IsAcyclic (rows_of rows.now) start) }
{
    meet(met, row(rows, start), rows.len())?;
    let mut next = 0;
    while next < met.len() {
        let number = number_at(met, next);
        meet(met, row(rows, number), rows.len())?;
        next += 1;
    }
    Ok(met.contains(&start))
}

/// The numbers to which a number leads.
pub fn row(rows: &[Vec<usize>], number: usize) -> &[usize]
    requires { number < length rows.now }
    ensures { result.now ≡ row_of (rows_of rows.now) number }
{
    rows[number].as_slice()
}

fn number_at(met: &IndexSet<usize>, place: usize) -> usize
    requires { place < length met.now.keys }
    ensures { (d : ℕ) → result ≡ slice_index_or met.now.keys place d }
{
    met.as_slice()[place]
}

// Puts the numbers of a row that are below a bound behind those that were met, each once.
fn meet(met: &mut IndexSet<usize>, row: &[usize], count: usize) -> Result<(), AllocError>
    ensures { OnOk result (Meets count met.old.keys row.now met.new.keys) }
{
    for number in row {
        meet_one(met, *number, count)?;
    }
    Ok(())
}

fn meet_one(met: &mut IndexSet<usize>, number: usize, count: usize) -> Result<(), AllocError>
    ensures { OnOk result (met.new.keys ≡ met_with count met.old.keys number) }
{
    if number < count {
        met.insert(number)?;
    }
    Ok(())
}
