// What the searches of a session leave for those to come.
ghost use Rattle.std.specs.Prelude.{◌≡◌, ◌<◌, ◌≤◌, ◌+◌, ◌^◌, ◌++◌, ℕ, IsTrue, IfOk, IfSome, OnErr, OnOk, length, take, drop};
ghost use Rattle.std.specs.List.{insert};
ghost use Rattle.sat_trail.specs.Trailed.{IsBase};
ghost use Rattle.sat_core.specs.Kept.{IsKept};
ghost use Rattle.session_state.specs.Rounds.Resting.{CanGoOn, IsOf};

use crate::search_rounds::comparing::{are_moved, is_over, is_same_formula, is_same_log, shared};
use cnf_core::{Clause, Cnf};
use refutation_check::Log;
use sat_core::{KeptSearch, SavedPhases, Trail};
use std::alloc::{AllocError, Global};
use std::marker::Model;
use translation::Translation;

/// What the searches of a session leave for those to come: the values that the last one found, and behind a scenario that was shown
/// the trails, with what was learnt on them. It spares searches work, and decides which scenarios come first. With the trails rest copies
/// of the formula and of the pool, for which a session that shows one scenario would pay and get nothing: so its first trails don't rest.
pub struct KeptTrails {
    pub(crate) leaning: SavedPhases,
    // Whether trails rest: from the second time on that they can.
    keeps: bool,
    resting: Option<Resting>,
}

// By hand, so that a caller's proof has one step wherever one is dropped.
impl Drop for KeptTrails {
    fn drop(self) {
        let KeptTrails {
            leaning: _,
            keeps: _,
            resting: _,
        } = self;
    }
}

/// The trails of a search at a floor: one of the formula, one for descents, and that of the search itself. Those that have rested know
/// what they are over.
pub(crate) struct Trails {
    pub known: Option<Known>,
    pub base: Trail,
    pub descents: Trail,
    pub search: KeptSearch,
}

// By hand, so that a caller's proof has one step wherever one is dropped.
impl Drop for Trails {
    fn drop(self) {
        let Trails {
            known: _,
            base: _,
            descents: _,
            search: _,
        } = self;
    }
}

/// What trails are over: copies of the formula and of the pool.
#[derive(Drop)]
pub(crate) struct Known {
    pub formula: Cnf,
    pub pool: Log,
}

// A search that rests.
#[derive(Drop)]
struct Resting {
    known: Known,
    local: Vec<Clause>,
    base: Trail,
    descents: Trail,
    search: KeptSearch,
}

impl Model for Resting {
    ghost use Rattle.session_state.specs.Rounds.Resting.{Rested, IsRested};

    ghost Value = { Rested };

    ghost view = { λ r. record { formula = r.known.formula; pool = r.known.pool; local = r.local.items; base = r.base; descents = r.descents; search = r.search } };

    ghost invariant = { λ r. IsRested (record { formula = r.known.formula; pool = r.known.pool; local = r.local.items; base = r.base; descents = r.descents; search = r.search }) };
}

impl KeptTrails {
    /// Nothing is kept, and the first search leans to what is absent. Its trails won't rest, and those of the searches behind it will.
    pub fn new(alloc: Global) -> KeptTrails
        ensures resting { result.resting ≡ None }
        ensures keeps { ¬ IsTrue result.keeps }
    {
        KeptTrails {
            leaning: SavedPhases::towards(alloc, false),
            keeps: false,
            resting: None,
        }
    }

    /// The trails of a search over these local clauses, which keeps at most so many steps: those that rest here, where they serve, or
    /// new ones. The error comes only for want of memory.
    pub(crate) fn woken(
        &mut self,
        alloc: Global,
        translation: &Translation,
        pool: &Log,
        local: &[Clause],
        most: u64,
    ) -> Result<Trails, AllocError>
        requires few { length translation.now.cnf.clauses + length local.now + length pool.now + most + 1 < 2 ^ 30 }
        ensures trails { IfOk result (CanGoOn translation.now.cnf local.now pool.now most) }
        ensures resting { self.new.resting ≡ None }
        ensures keeps { self.new.keeps ≡ self.old.keeps }
    {
        match self.resting.take() {
            Some(resting) => resting.woken(alloc, translation, pool, local, most),
            None => begun(alloc, translation, pool, local),
        }
    }

    /// Lets go of the trails that rest, so that the next search begins anew.
    pub(crate) fn let_go(&mut self)
        ensures resting { self.new.resting ≡ None }
        ensures keeps { self.new.keeps ≡ self.old.keeps }
        ensures leaning { self.new.leaning ≡ self.old.leaning }
    {
        self.resting = None;
    }

    /// Lets the trails of a search over these local clauses rest, with copies of what they are over; but the first ones of a session
    /// don't, and it is only noted that there were some. The error comes only for want of memory, and leaves at rest what was.
    pub(crate) fn rest(
        &mut self,
        alloc: Global,
        translation: &Translation,
        pool: &Log,
        trails: Trails,
        local: Vec<Clause>,
    ) -> Result<(), AllocError>
        requires { (most : ℕ) × CanGoOn translation.now.cnf local.items pool.now most trails }
        ensures keeps { IsTrue self.new.keeps }
        ensures first { ¬ IsTrue self.old.keeps → self.new.resting ≡ self.old.resting }
        ensures rests { IsTrue self.old.keeps → OnOk result (self.new.resting ≡ Some (record { formula = translation.now.cnf; pool = pool.now; local = local.items; base = trails.base; descents = trails.descents; search = trails.search })) }
        ensures err { OnErr result (self.new.resting ≡ self.old.resting) }
    {
        if !self.keeps {
            self.keeps = true;
            return Ok(());
        }
        let resting = trails.at_rest(alloc, translation, pool, local)?;
        self.resting = Some(resting);
        Ok(())
    }
}

impl Trails {
    // These trails of a search over these local clauses, at rest.
    fn at_rest(
        self,
        alloc: Global,
        translation: &Translation,
        pool: &Log,
        local: Vec<Clause>,
    ) -> Result<Resting, AllocError>
        requires { (most : ℕ) × CanGoOn translation.now.cnf local.items pool.now most self }
        ensures { IfOk result (λ r. r ≡ record { formula = translation.now.cnf; pool = pool.now; local = local.items; base = self.base; descents = self.descents; search = self.search }) }
    {
        let Trails {
            known,
            base,
            descents,
            search,
        } = self;
        let known = known_of(alloc, known, translation.cnf(), pool)?;
        Ok(Resting {
            known,
            local,
            base,
            descents,
            search,
        })
    }
}

impl Resting {
    // The trails of a search over these local clauses: these ones, where they serve for it and keep no more steps, or new ones.
    fn woken(
        self,
        alloc: Global,
        translation: &Translation,
        pool: &Log,
        local: &[Clause],
        most: u64,
    ) -> Result<Trails, AllocError>
        requires few { length translation.now.cnf.clauses + length local.now + length pool.now + most + 1 < 2 ^ 30 }
        ensures { IfOk result (CanGoOn translation.now.cnf local.now pool.now most) }
    {
        let cnf = translation.cnf();
        let Resting {
            known,
            local: old,
            base,
            descents,
            mut search,
        } = self;
        if !is_of(&known, cnf, pool) {
            return begun(alloc, translation, pool, local);
        }
        turn(alloc, &mut search, cnf, &base, pool, old, local, most)?;
        Ok(Trails {
            known: Some(known),
            base,
            descents,
            search,
        })
    }
}

// Whether these are copies of this formula and of this pool.
fn is_of(known: &Known, f: &Cnf, pool: &Log) -> bool
    ensures { IsTrue result → IsOf f.now pool.now known.now }
{
    is_same_formula(&known.formula, f) && is_same_log(&known.pool, pool)
}

// Copies of this formula and of this pool: those that are known, or new ones.
fn known_of(alloc: Global, known: Option<Known>, f: &Cnf, pool: &Log) -> Result<Known, AllocError>
    requires { IfSome known (IsOf f.now pool.now) }
    ensures { IfOk result (IsOf f.now pool.now) }
{
    match known {
        Some(known) => Ok(known),
        None => {
            let formula = f.copy(alloc)?;
            let pool = pool.copy(alloc)?;
            Ok(Known { formula, pool })
        }
    }
}

// The search is one over the second local clauses from now on: that one, where it can be, and keeps no more steps; else a new one.
fn turn(
    alloc: Global,
    search: &mut KeptSearch,
    f: &Cnf,
    base: &Trail,
    pool: &Log,
    old: Vec<Clause>,
    new: &[Clause],
    most: u64,
) -> Result<(), AllocError>
    requires base { IsBase f.now base.now }
    requires kept { IsKept f.now old.items pool.now search.old }
    requires few { length f.now.clauses + length new.now + length pool.now + most + 1 < 2 ^ 30 }
    ensures kept { OnOk result (IsKept f.now new.now pool.now search.new) }
    ensures few { OnOk result (length search.new.steps ≤ most) }
{
    if search.len() <= most && follows(alloc, search, f, pool, old, new)? {
        return Ok(());
    }
    *search = KeptSearch::over(alloc, f, base, pool, new)?;
    Ok(())
}

// New trails of a search over these local clauses.
fn begun(
    alloc: Global,
    translation: &Translation,
    pool: &Log,
    local: &[Clause],
) -> Result<Trails, AllocError>
    requires few { length translation.now.cnf.clauses + length local.now + length pool.now < 2 ^ 30 }
    ensures { IfOk result (CanGoOn translation.now.cnf local.now pool.now 0) }
{
    let cnf = translation.cnf();
    let base = Trail::over(alloc, cnf, translation.vars())?;
    let descents = base.copy(alloc)?;
    let search = KeptSearch::over(alloc, cnf, &base, pool, local)?;
    Ok(Trails {
        known: None,
        base,
        descents,
        search,
    })
}

// The search is one over the second local clauses from now on, where these are those that it has, with more of them at one place. Whether
// it is.
fn follows(
    alloc: Global,
    search: &mut KeptSearch,
    f: &Cnf,
    pool: &Log,
    old: Vec<Clause>,
    new: &[Clause],
) -> Result<bool, AllocError>
    requires kept { IsKept f.now old.items pool.now search.old }
    requires few { length f.now.clauses + length new.now + length pool.now + length search.old.steps + 1 < 2 ^ 30 }
    ensures followed { IfOk result (λ is. IsTrue is → IsKept f.now new.now pool.now search.new) }
    ensures steps { OnOk result (search.new.steps ≡ search.old.steps) }
{
    if new.len() < old.len() {
        return Ok(false);
    }
    let more = new.len() - old.len();
    let place = shared(old.as_slice(), new);
    if !are_moved(old.as_slice(), new, place, more) {
        return Ok(false);
    }
    are_blocked(alloc, search, f, pool, old, new, place, more)
}

// Blocks so many of the second local clauses from this place on, one behind another. Whether each is blocked.
fn are_blocked(
    alloc: Global,
    search: &mut KeptSearch,
    f: &Cnf,
    pool: &Log,
    old: Vec<Clause>,
    new: &[Clause],
    place: usize,
    more: usize,
) -> Result<bool, AllocError>
    requires kept { IsKept f.now old.items pool.now search.old }
    requires few { length f.now.clauses + length new.now + length pool.now + length search.old.steps + 1 < 2 ^ 30 }
    requires within { place + more ≤ length new.now }
    requires same { old.items ≡ take place new.now ++ drop (place + more) new.now }
    ensures followed { IfOk result (λ is. IsTrue is → IsKept f.now new.now pool.now search.new) }
    ensures steps { OnOk result (search.new.steps ≡ search.old.steps) }
{
    let mut local = old;
    for at in place..place + more {
        let clause = &new[at];
        if !is_blocked(alloc, search, f, pool, local.as_slice(), at, clause)? {
            return Ok(false);
        }
        local.insert(at, clause.copy(alloc)?)?;
    }
    Ok(true)
}

// Blocks one clause more at this place, where it is over the formula's variables. Whether it is blocked.
fn is_blocked(
    alloc: Global,
    search: &mut KeptSearch,
    f: &Cnf,
    pool: &Log,
    local: &[Clause],
    place: usize,
    clause: &Clause,
) -> Result<bool, AllocError>
    requires kept { IsKept f.now local.now pool.now search.old }
    requires few { length f.now.clauses + length local.now + length pool.now + length search.old.steps + 1 < 2 ^ 30 }
    requires place { place ≤ length local.now }
    ensures blocked { IfOk result (λ is. IsTrue is → IsKept f.now (insert local.now place clause.now) pool.now search.new) }
    ensures steps { OnOk result (search.new.steps ≡ search.old.steps) }
{
    if !is_over(clause, f.vars()) {
        return Ok(false);
    }
    search.block(alloc, f, pool, local, place as u32, clause)
}
