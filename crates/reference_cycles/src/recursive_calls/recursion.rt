// The first predicate or function that calls itself.
ghost use Rattle.std.specs.Prelude.{◌≡◌, map, IfOk};
ghost use Rattle.named_model.specs.Answers.{first_in};
ghost use Rattle.named_model.specs.Faults.{callees_of, recursive_faults};
ghost use Rattle.named_model.specs.View.{callee_view};
ghost use Rattle.reference_cycles.specs.Cycles.Walks.{rows_of};
ghost use Rattle.reference_cycles.specs.Recursion.Calls.{fault_at};

use crate::number_cycles::first_cyclic;
use crate::recursive_calls::calls::calls_of;
use named_model::NameFault;
use named_model::named::Callee;
use std::alloc::{AllocError, Global};

/// The fault of the first predicate or function that calls itself over one or more steps, if one does. A call counts
/// wherever it stands in the paragraph. It takes time that grows with the callees and their calls.
pub fn first_recursive(alloc: Global, callees: &[Callee]) -> Result<Option<NameFault>, AllocError>
    ensures { IfOk result (λ fault. fault ≡ first_in (recursive_faults (map callee_view callees.now))) }
{
    let rows = rows(alloc, callees)?;
    match first_cyclic(alloc, &rows)? {
        Some(number) => Ok(fault_of(callees, number)),
        None => Ok(None),
    }
}

// The fault of the callee of this number, if it calls itself.
fn fault_of(callees: &[Callee], number: usize) -> Option<NameFault>
    ensures { result ≡ fault_at (map callee_view callees.now) number }
{
    match callees.get(number) {
        Some(callee) => Some(NameFault::Recursive {
            place: callee.place,
        }),
        None => None,
    }
}

/// The numbers that each predicate and function calls, wherever in its paragraph, in the order of the text.
pub fn rows(alloc: Global, callees: &[Callee]) -> Result<Vec<Vec<usize>>, AllocError>
    ensures { IfOk result (λ rows. rows_of rows.items ≡ map callees_of (map callee_view callees.now)) }
{
    let mut rows = Vec::new(alloc);
    for callee in callees {
        let row = calls_of(alloc, callee)?;
        rows.push(row)?;
    }
    Ok(rows)
}
