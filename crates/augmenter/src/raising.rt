// An instance with a cell, found without a step: open cells are made present first, in order.
ghost use Rattle.std.specs.Prelude.{◌≡◌, ◌≤◌, ◌<◌, ◌-◌, ◌∷◌, [], Bool, true, IfOk, IfSome, IsTrue, OnOk, length};
ghost use Rattle.refutation_check.specs.Assumed.{IsOpen};
ghost use Rattle.unit_propagation.specs.Assignments.Trail.{IsTrail, ForcesMore, falses_of};
ghost use Rattle.sat_trail.specs.Closed.{IsClosed};
ghost use Rattle.sat_trail.specs.Deciding.{HasAllValues, decided};
ghost use Rattle.sat_core.specs.Search.{AreValues};
ghost use Rattle.minimiser.specs.Lowering.{HasValue, IsMore};
ghost use Rattle.augmenter.specs.Raising.{HasCells};

use cnf_core::{Lit, Valuation};
use sat_core::Trail;
use sat_trail::Propagated;
use std::alloc::{AllocError, Global};

/// A valuation of the trail's clauses that has the cell, which is present on it, where decisions and propagation alone lead to one.
/// What is found has many of the cells behind it that aren't marked, or few cells where that leads nowhere. The trail serves again
/// afterwards.
pub(crate) fn found_with(
    alloc: Global,
    trail: &mut Trail,
    cell: u32,
    marks: &[bool],
) -> Result<Option<Valuation>, AllocError>
    requires in_range { cell < trail.old.vars }
    requires marks { length marks.now ≤ trail.old.vars }
    requires present { HasValue trail.old cell true }
    requires closed { IsClosed trail.old.clauses (falses_of trail.old.assigned) }
    ensures vars { OnOk result (trail.new.vars ≡ trail.old.vars) }
    ensures clauses { OnOk result (trail.new.clauses ≡ trail.old.clauses) }
    ensures found { IfOk result (λ found. IfSome found (HasCells trail.old.vars trail.old.clauses (cell ∷ []))) }
{
    if let Some(valuation) = raised(alloc, trail, cell, marks)? {
        return Ok(Some(valuation));
    }
    fewest(alloc, trail, cell)
}

// A valuation that has the cell, which is present, and many of those behind it that aren't marked, where the way leads to one.
fn raised(
    alloc: Global,
    trail: &mut Trail,
    cell: u32,
    marks: &[bool],
) -> Result<Option<Valuation>, AllocError>
    requires in_range { cell < trail.old.vars }
    requires marks { length marks.now ≤ trail.old.vars }
    requires present { HasValue trail.old cell true }
    requires closed { IsClosed trail.old.clauses (falses_of trail.old.assigned) }
    ensures vars { OnOk result (trail.new.vars ≡ trail.old.vars) }
    ensures clauses { OnOk result (trail.new.clauses ≡ trail.old.clauses) }
    ensures found { IfOk result (λ found. IfSome found (HasCells trail.old.vars trail.old.clauses (cell ∷ []))) }
{
    if raises(trail, cell, marks) {
        filled(alloc, trail, cell)
    } else {
        Ok(None)
    }
}

// A valuation that has the cell, and few others, where the way leads to one.
fn fewest(alloc: Global, trail: &mut Trail, cell: u32) -> Result<Option<Valuation>, AllocError>
    requires in_range { cell < trail.old.vars }
    ensures vars { OnOk result (trail.new.vars ≡ trail.old.vars) }
    ensures clauses { OnOk result (trail.new.clauses ≡ trail.old.clauses) }
    ensures found { IfOk result (λ found. IfSome found (HasCells trail.old.vars trail.old.clauses (cell ∷ []))) }
{
    if assumes(trail, cell) {
        filled(alloc, trail, cell)
    } else {
        Ok(None)
    }
}

// A valuation that has the cell, which is present, where decisions and propagation alone lead to one: the lowest open variable is
// made false each time, or true where propagation refutes that.
fn filled(alloc: Global, trail: &mut Trail, cell: u32) -> Result<Option<Valuation>, AllocError>
    requires in_range { cell < trail.old.vars }
    requires present { HasValue trail.old cell true }
    requires closed { IsClosed trail.old.clauses (falses_of trail.old.assigned) }
    ensures vars { OnOk result (trail.new.vars ≡ trail.old.vars) }
    ensures clauses { OnOk result (trail.new.clauses ≡ trail.old.clauses) }
    ensures found { IfOk result (λ found. IfSome found (HasCells trail.old.vars trail.old.clauses (cell ∷ []))) }
{
    let _cell = cell; // for the proof
    if !fills(trail) {
        return Ok(None);
    }
    let _ = trail.level(); // for the proof
    let _ = trail.vars(); // for the proof
    let valuation = values_of(alloc, trail)?;
    Ok(Some(valuation))
}

/// Undoes all decisions, and makes the cell present. Whether that can be, as far as propagation sees.
pub(crate) fn assumes(trail: &mut Trail, cell: u32) -> bool
    requires { cell < trail.old.vars }
    ensures vars { trail.new.vars ≡ trail.old.vars }
    ensures clauses { trail.new.clauses ≡ trail.old.clauses }
    ensures present { IsTrue result → HasValue trail.new cell true }
    ensures closed { IsTrue result → IsClosed trail.new.clauses (falses_of trail.new.assigned) }
{
    trail.back_to(0);
    match trail.propagate() {
        Propagated::Closed => gives(trail, cell),
        Propagated::Conflict(_) => false,
    }
}

// Makes the literal, which is open, true on a new level, and propagates. Whether no clause is falsified then.
fn decides(trail: &mut Trail, lit: Lit) -> bool
    requires from_one { 1 ≤ lit.var }
    requires in_range { lit.var ≤ trail.old.vars }
    requires is_open { IsOpen (falses_of trail.old.assigned) lit }
    ensures vars { trail.new.vars ≡ trail.old.vars }
    ensures clauses { trail.new.clauses ≡ trail.old.clauses }
    ensures forces { ForcesMore (decided trail.old lit).assigned trail.new.assigned }
    ensures ordered { IsTrail trail.new.clauses trail.new.assigned }
    ensures end { IsTrue result → IsClosed trail.new.clauses (falses_of trail.new.assigned) }
{
    trail.decide(lit);
    match trail.propagate() {
        Propagated::Closed => true,
        Propagated::Conflict(_) => false,
    }
}

// Makes the cell present where it is open. Whether it is so then, and no clause is falsified.
fn gives(trail: &mut Trail, cell: u32) -> bool
    requires in_range { cell < trail.old.vars }
    requires closed { IsClosed trail.old.clauses (falses_of trail.old.assigned) }
    ensures vars { trail.new.vars ≡ trail.old.vars }
    ensures clauses { trail.new.clauses ≡ trail.old.clauses }
    ensures more { IsMore trail.old trail.new }
    ensures given { IsTrue result → HasValue trail.new cell true }
    ensures closed { IsTrue result → IsClosed trail.new.clauses (falses_of trail.new.assigned) }
{
    let _ = trail.level(); // for the proof
    let present = Lit {
        var: cell + 1,
        positive: true,
    };
    match trail.value(cell + 1) {
        Some(value) => value,
        None => decides(trail, present),
    }
}

// Makes an open literal true, or false where propagation refutes that. Whether no clause is falsified then.
fn tries(trail: &mut Trail, lit: Lit) -> bool
    requires from_one { 1 ≤ lit.var }
    requires in_range { lit.var ≤ trail.old.vars }
    requires is_open { IsOpen (falses_of trail.old.assigned) lit }
    ensures vars { trail.new.vars ≡ trail.old.vars }
    ensures clauses { trail.new.clauses ≡ trail.old.clauses }
    ensures more { IsMore trail.old trail.new }
    ensures closed { IsTrue result → IsClosed trail.new.clauses (falses_of trail.new.assigned) }
    ensures valued { IsTrue result → (value : Bool) × HasValue trail.new (lit.var - 1) value }
{
    let level = trail.level();
    if decides(trail, lit) {
        return true;
    }
    trail.back_to(level);
    let other = Lit {
        var: lit.var,
        positive: !lit.positive,
    };
    decides(trail, other)
}

// Gives the variable behind this one a value where it has none: this one, or the other where propagation refutes it. Whether no clause is
// falsified then.
fn settles(trail: &mut Trail, before: u32, value: bool) -> bool
    requires in_range { before < trail.old.vars }
    requires closed { IsClosed trail.old.clauses (falses_of trail.old.assigned) }
    ensures vars { trail.new.vars ≡ trail.old.vars }
    ensures clauses { trail.new.clauses ≡ trail.old.clauses }
    ensures more { IsMore trail.old trail.new }
    ensures closed { IsTrue result → IsClosed trail.new.clauses (falses_of trail.new.assigned) }
    ensures valued { IsTrue result → (value : Bool) × HasValue trail.new before value }
{
    let _ = trail.level(); // for the proof
    let lit = Lit {
        var: before + 1,
        positive: value,
    };
    match trail.value(before + 1) {
        Some(_) => true,
        None => tries(trail, lit),
    }
}

// Makes each cell from this one on that isn't marked present, as far as that can be. Whether no clause is falsified then.
fn raises(trail: &mut Trail, from: u32, marks: &[bool]) -> bool
    requires marks { length marks.now ≤ trail.old.vars }
    requires closed { IsClosed trail.old.clauses (falses_of trail.old.assigned) }
    ensures vars { trail.new.vars ≡ trail.old.vars }
    ensures clauses { trail.new.clauses ≡ trail.old.clauses }
    ensures more { IsMore trail.old trail.new }
    ensures closed { IsTrue result → IsClosed trail.new.clauses (falses_of trail.new.assigned) }
{
    let _ = trail.level(); // for the proof
    let count = marks.len() as u32;
    for cell in from..count {
        if marks[cell as usize] {
            continue;
        }
        if !settles(trail, cell, true) {
            return false;
        }
    }
    true
}

// Makes each open variable false, as far as that can be. Whether no clause is falsified then.
fn fills(trail: &mut Trail) -> bool
    requires closed { IsClosed trail.old.clauses (falses_of trail.old.assigned) }
    ensures vars { trail.new.vars ≡ trail.old.vars }
    ensures clauses { trail.new.clauses ≡ trail.old.clauses }
    ensures more { IsMore trail.old trail.new }
    ensures closed { IsTrue result → IsClosed trail.new.clauses (falses_of trail.new.assigned) }
    ensures valued { IsTrue result → HasAllValues trail.old.vars (falses_of trail.new.assigned) }
{
    let vars = trail.vars();
    for before in 0..vars {
        if !settles(trail, before, false) {
            return false;
        }
    }
    true
}

// The values of the variables, each of which has one.
fn values_of(alloc: Global, trail: &Trail) -> Result<Valuation, AllocError>
    requires { HasAllValues trail.now.vars (falses_of trail.now.assigned) }
    ensures long { IfOk result (λ v. length v ≡ trail.now.vars) }
    ensures values { IfOk result (AreValues (falses_of trail.now.assigned)) }
{
    let mut values = Vec::new(alloc);
    for var in 0..trail.vars() {
        values.push(trail.value(var + 1).unwrap_or(false))?;
    }
    Ok(Valuation::of(values))
}
