// Which variable is decided next.
ghost use Rattle.std.specs.Prelude.{◌≡◌, ◌++◌, ◌∷◌, [], ◌≤◌, Bool, List, All, MatchOption, length};
ghost use Rattle.cnf_core.specs.Literal.{HasVarsUpTo};
ghost use Rattle.unit_propagation.specs.Clauses.Codes.{literals_of};
ghost use Rattle.unit_propagation.specs.declared.assignment_trail.assigned.Assigned.{Assigned};
ghost use Rattle.unit_propagation.specs.Assignments.Trail.{IsBackTo, falses_of};
ghost use Rattle.sat_trail.specs.Deciding.{HasAllValues, IsLowestOpen, IsOpenVar};
ghost use Rattle.sat_trail.specs.Waiting.{IsOrderOf};

use unit_propagation::activity_order::ActivityOrder;
use unit_propagation::assignment_trail::Assignment;
use unit_propagation::clause_store::Store;

/// Takes waiting variables until one is open: that one, from 1, or none where each variable has a value.
pub(crate) fn take_open(order: &mut ActivityOrder, now: &Assignment) -> Option<u32>
    requires { IsOrderOf now.now.vars (falses_of now.now.assigned) order.old }
    ensures next { MatchOption result (HasAllValues now.now.vars (falses_of now.now.assigned)) (IsOpenVar now.now.vars (falses_of now.now.assigned)) }
    ensures order { MatchOption result (IsOrderOf now.now.vars (falses_of now.now.assigned) order.new) (λ var. (value : Bool) → IsOrderOf now.now.vars (falses_of now.now.assigned ++ record { var = var; positive = value } ∷ []) order.new) }
{
    let _ = now.vars(); // for the proof
    'taking: while let Some(place) = order.take_first() {
        let var = place + 1;
        if now.value(2 * var).is_none() {
            return Some(var);
        }
    }
    None
}

/// The lowest open variable above `from`, up to which each has a value, and not above `limit`: or none.
pub(crate) fn lowest_open(now: &Assignment, from: u32, limit: u32) -> Option<u32>
    requires limit { limit ≤ now.now.vars }
    requires from { HasAllValues from (falses_of now.now.assigned) }
    ensures { MatchOption result (HasAllValues limit (falses_of now.now.assigned)) (IsLowestOpen limit (falses_of now.now.assigned)) }
{
    let _ = now.vars(); // for the proof
    for place in from..limit {
        if now.value(2 * place + 2).is_none() {
            return Some(place + 1);
        }
    }
    None
}

/// Lets the variables of the literals above this level wait again.
pub(crate) fn put_back_above(order: &mut ActivityOrder, now: &Assignment, level: u32)
    requires { IsOrderOf now.now.vars (falses_of now.now.assigned) order.old }
    ensures { (assigned : List Assigned) → IsBackTo level now.now.assigned assigned → IsOrderOf now.now.vars (falses_of assigned) order.new }
{
    let mut n = now.len();
    'undoing: while n > 0 {
        n -= 1;
        let a = now.at(n);
        if a.level <= level {
            return;
        }
        order.put_back(a.lit.var - 1);
    }
}

// Raises the variables of a clause, by the numbers of its literals, but for those that this step met already.
fn raise_in(order: &mut ActivityOrder, met_by: &mut [u32], codes: &[u32], step: u32)
    requires vars { All (λ l. (1 ≤ l.var) × (l.var ≤ length order.old.activities)) (literals_of codes.now) }
    requires long { length met_by.old ≡ length order.old.activities }
    ensures waiting { order.new.waiting ≡ order.old.waiting }
    ensures long { length order.new.activities ≡ length order.old.activities }
{
    for code in codes {
        let place = *code / 2 - 1;
        if met_by[place as usize] != step {
            met_by[place as usize] = step;
            order.raise(place);
        }
    }
}

/// Raises the variables of the clauses that the step's hints name, each once, and lets what is raised later count for more.
/// The step has this number, and `met_by` has for each variable the newest step that met it.
pub(crate) fn raise_met(
    order: &mut ActivityOrder,
    met_by: &mut [u32],
    store: &Store,
    hints: &[u32],
    step: u32,
)
    requires hints { All (λ hint. (1 ≤ hint) × (hint ≤ length store.now)) hints.now }
    requires vars { All (HasVarsUpTo (length order.old.activities)) store.now }
    requires long { length met_by.old ≡ length order.old.activities }
    ensures waiting { order.new.waiting ≡ order.old.waiting }
    ensures long { length order.new.activities ≡ length order.old.activities }
{
    let _ = store.len(); // for the proof
    for hint in hints {
        raise_in(order, met_by, store.codes(*hint), step);
    }
    order.decay();
}
