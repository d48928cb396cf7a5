// To which values the searches of a worker lean at first.
ghost use Rattle.std.specs.Prelude.{◌≡◌, length, IfOk};

use cnf_core::Valuation;
use rand_core::Rng;
use rand_pcg::Pcg32;
use sat_core::SavedPhases;
use std::alloc::{AllocError, Global};

// Of the streams of random numbers that one generator has.
const STREAM: u64 = 54;

/// The first worker's searches lean to absent cells, the second one's to present ones, and those of each other worker to cells of its
/// own, so that they look for scenarios in different places.
pub(crate) fn leaning_of(
    alloc: Global,
    worker: u32,
    cells: u32,
) -> Result<SavedPhases, AllocError> {
    let mut leaning = SavedPhases::towards(alloc, worker == 1);
    if worker > 1 {
        leaning.follow(alloc, &any_values(alloc, worker, cells)?)?;
    }
    Ok(leaning)
}

// So many values, by the worker's number.
fn any_values(alloc: Global, worker: u32, count: u32) -> Result<Valuation, AllocError>
    ensures { IfOk result (λ values. length values ≡ count) }
{
    let mut rng = Pcg32::new(u64::from(worker), STREAM);
    let mut values = Vec::new(alloc);
    for _ in 0..count {
        values.push(rng.next_u32() % 2 == 0)?;
    }
    Ok(Valuation::of(values))
}
