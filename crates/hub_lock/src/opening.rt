// How a lock begins.
ghost use Rattle.std.specs.Prelude.{◌≡◌, [], ◌∷◌, IfOk};
ghost use Rattle.hub_lock.specs.Passes.{first_view};

use crate::kept::Kept;
use crate::lock::Turns;
use crate::pass::Pass;
use atomic_table::{Refused, Table};
use std::alloc::{AllocError, Global};
use std::snapshot::Snapshot;

/// A lock round a value without entries, and its first pass. Where memory is wanting the value is dropped.
pub fn turns<T: Kept>(alloc: Global, value: T) -> Result<(Turns<T>, Pass<T>), AllocError>
    requires { T.entries value ≡ [] }
    ensures { IfOk result (λ r. (r.1.lock ≡ r.0) × (r.1.view ≡ first_view (T.base value))) }
{
    let about = Snapshot::of(&value);
    let mut slots = Vec::with_capacity(alloc, 1)?;
    slots.push_reserved(Some(value));
    match Table::new(alloc, &[0, 0], slots, &about) {
        Ok((table, seat)) => Ok((
            Turns { table },
            Pass {
                seat,
                number: 0,
                made: 0,
                live: 0,
            },
        )),
        Err(Refused { slots: _ }) => Err(AllocError),
    }
}
