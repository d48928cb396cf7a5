// A descent in one search: the lowest cell that is open is made absent each time.
ghost use Rattle.std.specs.Prelude.{◌≡◌, ◌↔◌, ◌≤◌, ◌<◌, ◌+◌, ℕ, Bool, true, false, List, AllPairs, Contains, IfOk, IfSome, IsTrue, MatchBool, OnOk};
ghost use Rattle.refutation_check.specs.Assumed.{IsOpen};
ghost use Rattle.refutation_check.specs.Chain.{Refutes};
ghost use Rattle.rel_formula.specs.Instance.{AreCells, IsMinimalAbove, Includes};
ghost use Rattle.unit_propagation.specs.Assignments.Trail.{IsTrail, ForcesMore, falses_of, level_of};
ghost use Rattle.sat_trail.specs.Closed.{IsClosed};
ghost use Rattle.sat_trail.specs.Deciding.{HasAllValues, decided};
ghost use Rattle.minimiser.specs.Lowering.{HasValue, IsLowered, IsMore, IsOver, IsBounded, Leads};

use cnf_core::Lit;
use rel_formula::Scenario;
use sat_core::Trail;
use sat_trail::Propagated;
use std::alloc::{AllocError, Global};
use translation::Translation;

/// The scenario that is minimal above the floor and lies in the start, where decisions and propagation alone lead to one.
///
/// The cells outside the start are made absent and those of the floor present. Then the lowest open cell is made absent each time,
/// or present where propagation refutes that: so each cell that is there in the end is there in whatever lies below. The trail
/// serves again afterwards.
pub(crate) fn lowest(
    alloc: Global,
    translation: &Translation,
    trail: &mut Trail,
    floor: &Scenario,
    start: &Scenario,
) -> Result<Option<Scenario>, AllocError>
    requires trail { IsOver translation.now.cnf trail.old }
    requires floor { AreCells translation.now.problem floor.now }
    requires above { Includes start.now floor.now }
    ensures trail { OnOk result (IsOver translation.now.cnf trail.new) }
    ensures lowest { IfOk result (λ found. IfSome found (λ s. IsMinimalAbove translation.now.problem floor.now s × Includes start.now s)) }
{
    let problem = translation.problem();
    let _ = problem.relations(); // for the proof
    let cells = problem.cells();
    if !lowers(trail, floor, start, cells) {
        return Ok(None);
    }
    let scenario = present_in(alloc, trail, cells)?;
    let filled = fills(trail, translation.cnf().vars());
    let _ = trail.level(); // for the proof
    if filled { Ok(Some(scenario)) } else { Ok(None) }
}

// Makes the literal, which is open, true on a new level, and propagates. Whether no clause is falsified then.
fn decides(trail: &mut Trail, lit: Lit) -> bool
    requires from_one { 1 ≤ lit.var }
    requires in_range { lit.var ≤ trail.old.vars }
    requires is_open { IsOpen (falses_of trail.old.assigned) lit }
    ensures vars { trail.new.vars ≡ trail.old.vars }
    ensures clauses { trail.new.clauses ≡ trail.old.clauses }
    ensures forces { ForcesMore (decided trail.old lit).assigned trail.new.assigned }
    ensures ordered { IsTrail trail.new.clauses trail.new.assigned }
    ensures end { MatchBool result (IsClosed trail.new.clauses (falses_of trail.new.assigned)) ((n : ℕ) × Refutes trail.new.clauses (falses_of trail.new.assigned) n) }
{
    trail.decide(lit);
    match trail.propagate() {
        Propagated::Closed => true,
        Propagated::Conflict(_) => false,
    }
}

// Makes the cell present or absent, where it is open. Whether it is so then, and no clause is falsified.
fn gives(trail: &mut Trail, cell: u32, is_there: bool) -> bool
    requires in_range { cell < trail.old.vars }
    ensures vars { trail.new.vars ≡ trail.old.vars }
    ensures clauses { trail.new.clauses ≡ trail.old.clauses }
    ensures more { IsMore trail.old trail.new }
    ensures led { (floor : List ℕ) (count : ℕ) → cell < count → (is_there ≡ true → Contains floor cell) → Leads floor count trail.old → IsTrue result → Leads floor count trail.new }
    ensures given { IsTrue result → HasValue trail.new cell is_there }
{
    let _ = trail.level(); // for the proof
    let given = Lit {
        var: cell + 1,
        positive: is_there,
    };
    match trail.value(cell + 1) {
        Some(value) => value == is_there,
        None => decides(trail, given),
    }
}

// Makes the cell present where the floor has it, and absent where the start hasn't.
fn bounds(trail: &mut Trail, floor: &Scenario, start: &Scenario, cell: u32) -> bool
    requires in_range { cell < trail.old.vars }
    ensures vars { trail.new.vars ≡ trail.old.vars }
    ensures clauses { trail.new.clauses ≡ trail.old.clauses }
    ensures more { IsMore trail.old trail.new }
    ensures led { (count : ℕ) → cell < count → Leads floor.now count trail.old → IsTrue result → Leads floor.now count trail.new }
    ensures bounded { IsTrue result → IsBounded floor.now start.now trail.new cell }
{
    if floor.has(cell) {
        return gives(trail, cell, true);
    }
    if start.has(cell) {
        return true;
    }
    gives(trail, cell, false)
}

// Makes an open cell absent, or present where propagation refutes that.
fn lower(trail: &mut Trail, cell: u32) -> bool
    requires in_range { cell < trail.old.vars }
    requires is_open { IsOpen (falses_of trail.old.assigned) (record { var = cell + 1; positive = false }) }
    ensures vars { trail.new.vars ≡ trail.old.vars }
    ensures clauses { trail.new.clauses ≡ trail.old.clauses }
    ensures more { IsMore trail.old trail.new }
    ensures led { (floor : List ℕ) (count : ℕ) → cell < count → Leads floor count trail.old → IsTrue result → Leads floor count trail.new }
    ensures valued { IsTrue result → (value : Bool) × HasValue trail.new cell value }
{
    let level = trail.level();
    let absent = Lit {
        var: cell + 1,
        positive: false,
    };
    if decides(trail, absent) {
        return true;
    }
    trail.back_to(level);
    let present = Lit {
        var: cell + 1,
        positive: true,
    };
    decides(trail, present)
}

// Gives the cell a value where it has none.
fn settles(trail: &mut Trail, cell: u32) -> bool
    requires in_range { cell < trail.old.vars }
    ensures vars { trail.new.vars ≡ trail.old.vars }
    ensures clauses { trail.new.clauses ≡ trail.old.clauses }
    ensures more { IsMore trail.old trail.new }
    ensures led { (floor : List ℕ) (count : ℕ) → cell < count → Leads floor count trail.old → IsTrue result → Leads floor count trail.new }
    ensures valued { IsTrue result → (value : Bool) × HasValue trail.new cell value }
{
    let _ = trail.level(); // for the proof
    match trail.value(cell + 1) {
        Some(_) => true,
        None => lower(trail, cell),
    }
}

// Bounds each cell. Whether that can be.
fn bounds_all(trail: &mut Trail, floor: &Scenario, start: &Scenario, cells: u32) -> bool
    requires cells { cells ≤ trail.old.vars }
    requires leads { Leads floor.now cells trail.old }
    ensures vars { trail.new.vars ≡ trail.old.vars }
    ensures clauses { trail.new.clauses ≡ trail.old.clauses }
    ensures led { IsTrue result → Leads floor.now cells trail.new }
    ensures bounded { IsTrue result → (cell : ℕ) → cell < cells → IsBounded floor.now start.now trail.new cell }
{
    for cell in 0..cells {
        if !bounds(trail, floor, start, cell) {
            return false;
        }
    }
    true
}

// Settles each cell. Whether that can be.
fn settles_all(trail: &mut Trail, cells: u32) -> bool
    requires cells { cells ≤ trail.old.vars }
    ensures vars { trail.new.vars ≡ trail.old.vars }
    ensures clauses { trail.new.clauses ≡ trail.old.clauses }
    ensures more { IsMore trail.old trail.new }
    ensures led { (floor : List ℕ) → Leads floor cells trail.old → IsTrue result → Leads floor cells trail.new }
    ensures valued { IsTrue result → HasAllValues cells (falses_of trail.new.assigned) }
{
    for cell in 0..cells {
        if !settles(trail, cell) {
            return false;
        }
    }
    true
}

// Goes down to where each cell has a value. Whether that can be.
fn lowers(trail: &mut Trail, floor: &Scenario, start: &Scenario, cells: u32) -> bool
    requires cells { cells ≤ trail.old.vars }
    ensures vars { trail.new.vars ≡ trail.old.vars }
    ensures clauses { trail.new.clauses ≡ trail.old.clauses }
    ensures lowered { IsTrue result → IsLowered floor.now start.now cells trail.new }
{
    let _ = trail.level(); // for the proof
    trail.back_to(0);
    match trail.propagate() {
        Propagated::Conflict(_) => false,
        Propagated::Closed => {
            if bounds_all(trail, floor, start, cells) {
                settles_all(trail, cells)
            } else {
                false
            }
        }
    }
}

// Decides each variable up to this one that is open. Whether no clause is falsified then.
fn fills(trail: &mut Trail, vars: u32) -> bool
    requires vars { vars ≤ trail.old.vars }
    requires closed { IsClosed trail.old.clauses (falses_of trail.old.assigned) }
    ensures vars { trail.new.vars ≡ trail.old.vars }
    ensures clauses { trail.new.clauses ≡ trail.old.clauses }
    ensures more { IsMore trail.old trail.new }
    ensures closed { IsTrue result → IsClosed trail.new.clauses (falses_of trail.new.assigned) }
    ensures valued { IsTrue result → HasAllValues vars (falses_of trail.new.assigned) }
{
    let mut last = 0;
    'filling: while let Some(lit) = trail.decide_low(last, vars) {
        match trail.propagate() {
            Propagated::Closed => last = lit.var,
            Propagated::Conflict(_) => return false,
        }
    }
    true
}

// The scenario of the cells that are present.
fn present_in(alloc: Global, trail: &Trail, cells: u32) -> Result<Scenario, AllocError>
    requires { cells ≤ trail.now.vars }
    ensures cells { IfOk result (λ s. (cell : ℕ) → Contains s cell → cell < cells) }
    ensures values { IfOk result (λ s. (cell : ℕ) → cell < cells → HasValue trail.now cell true ↔ Contains s cell) }
    ensures rising { IfOk result (λ s. AllPairs (λ m n. m < n) s) }
{
    let _ = trail.level(); // for the proof
    let mut scenario = Scenario::new(alloc);
    for cell in 0..cells {
        if trail.value(cell + 1).unwrap_or(false) {
            scenario.insert(cell)?;
        }
    }
    Ok(scenario)
}
