// A search that is gone on with where valuations are blocked.
ghost use Rattle.std.specs.Prelude.{◌≡◌, ◌+◌, ◌≤◌, ◌<◌, All, IfOk, OnOk, length};
ghost use Rattle.cnf_core.specs.Literal.{HasVarsUpTo};
ghost use Rattle.refutation_check.specs.Chain.{IsAccepted};
ghost use Rattle.sat_trail.specs.Trailed.{IsBase};
ghost use Rattle.sat_core.specs.Kept.{AreWithin, IsKept};
ghost use Rattle.sat_core.specs.Search.{IsAnswerTo};

use crate::clauses::clause;
use crate::of_sat_core::{formula, is_refuted};
use cnf_core::{Clause, Cnf, Valuation};
use refutation_check::{Log, Step};
use sat_core::{Answer, KeptSearch, SavedPhases, StepCount, Trail};
use std::alloc::Global;
use std::test::Fail;

// The clauses of these literals by their numbers.
fn clauses_of(alloc: Global, vars: u32, clauses: &[&[i8]]) -> Result<Vec<Clause>, Fail>
    requires { vars < 100 }
    ensures few { IfOk result (λ made. length made.items ≡ length clauses.now) }
    ensures vars { IfOk result (λ made. All (HasVarsUpTo vars) made.items) }
{
    let mut made = Vec::new(alloc);
    for numbers in clauses {
        made.push(clause(alloc, vars, numbers)?)?;
    }
    Ok(made)
}

// The number of the literal of this variable that is false where the variable has this value.
fn opposite(var: u32, value: bool) -> i8
    requires { var < 128 }
{
    let number = var as i8;
    if value { -number } else { number }
}

// The clause of the first variables that the valuation falsifies.
fn falsified(alloc: Global, vars: u32, valuation: &Valuation) -> Result<Clause, Fail>
    requires few { vars < 100 }
    requires enough { vars ≤ length valuation.now }
    ensures { IfOk result (HasVarsUpTo vars) }
{
    let mut numbers = Vec::new(alloc);
    for place in 0..vars {
        let value = valuation.value(place + 1);
        numbers.push(opposite(place + 1, value))?;
    }
    clause(alloc, vars, numbers.as_slice())
}

// What the search comes to, with at most 1000 steps.
fn gone_on(
    alloc: Global,
    f: &Cnf,
    base: &Trail,
    pool: &Log,
    local: &[Clause],
    search: &mut KeptSearch,
) -> Result<Answer, Fail>
    requires base { IsBase f.now base.now }
    requires pool { IsAccepted f.now.clauses pool.now }
    requires kept { IsKept f.now local.now pool.now search.old }
    requires few { length f.now.clauses + length local.now + length pool.now < 10000 }
    requires room { length search.old.steps ≤ 1000 }
    ensures kept { OnOk result (IsKept f.now local.now pool.now search.new) }
    ensures room { OnOk result (length search.new.steps ≤ 1000) }
    ensures answer { IfOk result (IsAnswerTo f.now local.now pool.now 1000) }
{
    let mut leaning = SavedPhases::towards(alloc, false);
    let mut count = StepCount::new();
    let answer = search.go_on(alloc, f, base, pool, local, 1000, &mut leaning, &mut count)?;
    Ok(answer)
}

// Blocks the clause at this place among the local clauses, where it can be.
fn block_at(
    alloc: Global,
    f: &Cnf,
    pool: &Log,
    local: &mut Vec<Clause>,
    search: &mut KeptSearch,
    place: u32,
    clause: Clause,
) -> Result<bool, Fail>
    requires kept { IsKept f.now local.old.items pool.now search.old }
    requires few { length f.now.clauses + length local.old.items + length pool.now < 10000 }
    requires room { length search.old.steps ≤ 1000 }
    requires place { place ≤ length local.old.items }
    requires vars { HasVarsUpTo f.now.vars clause }
    requires locals { All (HasVarsUpTo f.now.vars) local.old.items }
    ensures kept { OnOk result (IsKept f.now local.new.items pool.now search.new) }
    ensures few { OnOk result (length local.new.items ≤ length local.old.items + 1) }
    ensures locals { OnOk result (All (HasVarsUpTo f.now.vars) local.new.items) }
    ensures steps { OnOk result (search.new.steps ≡ search.old.steps) }
{
    let done = search.block(alloc, f, pool, local.as_slice(), place, &clause)?;
    if !done {
        return Ok(false);
    }
    local.insert(place as usize, clause)?;
    Ok(true)
}

// The place in front of the clauses, or that behind them.
fn place_in(clauses: &[Clause], is_last: bool) -> u32
    requires { length clauses.now < 10000 }
    ensures { result ≤ length clauses.now }
{
    if is_last { clauses.len() as u32 } else { 0 }
}

// Blocks the valuation, behind the local clauses or in front of them.
fn block_valuation(
    alloc: Global,
    f: &Cnf,
    pool: &Log,
    local: &mut Vec<Clause>,
    search: &mut KeptSearch,
    is_last: bool,
    valuation: &Valuation,
) -> Result<(), Fail>
    requires kept { IsKept f.now local.old.items pool.now search.old }
    requires few { length f.now.clauses + length local.old.items + length pool.now < 10000 }
    requires room { length search.old.steps ≤ 1000 }
    requires vars { f.now.vars < 100 }
    requires enough { f.now.vars ≤ length valuation.now }
    requires locals { All (HasVarsUpTo f.now.vars) local.old.items }
    ensures kept { OnOk result (IsKept f.now local.new.items pool.now search.new) }
    ensures few { OnOk result (length local.new.items ≤ length local.old.items + 1) }
    ensures locals { OnOk result (All (HasVarsUpTo f.now.vars) local.new.items) }
    ensures steps { OnOk result (search.new.steps ≡ search.old.steps) }
{
    let clause = falsified(alloc, f.vars(), valuation)?;
    let place = place_in(local.as_slice(), is_last);
    let done = block_at(alloc, f, pool, local, search, place, clause)?;
    if !done {
        Err("not blocked")?
    }
    Ok(())
}

// Whether a hint of one of the steps is this number.
fn is_named(steps: &[Step], number: u32) -> bool {
    for step in steps {
        if step.hints.numbers().contains(&number) {
            return true;
        }
    }
    false
}

// Whether each step but the last is named by a later one, where hints number so many clauses first.
fn is_used_up(given: u32, log: &Log) -> bool
    requires { given < 10000 }
{
    let steps = log.steps();
    for place in 1..steps.len() {
        if !is_named(&steps[place..], given + place as u32) {
            return false;
        }
    }
    true
}

// How many of the steps that the search tells are left out of a log that refutes the formula with the local clauses, and in which each
// step but the last is named by a later one.
fn left_out(
    alloc: Global,
    f: &Cnf,
    local: &[Clause],
    search: &KeptSearch,
    log: &Log,
) -> Result<usize, Fail>
    requires few { length f.now.clauses + length local.now < 10000 }
    requires locals { All (HasVarsUpTo f.now.vars) local.now }
    requires log { All (λ s. HasVarsUpTo f.now.vars s.clause) log.now }
    requires steps { AreWithin (length search.now.numbers) search.now.steps }
{
    if !is_used_up(f.len() + local.len() as u32, log) {
        return Err("a step that isn't named")?;
    }
    let mut whole = f.copy(alloc)?;
    whole.append(alloc, local)?;
    if !is_refuted(alloc, &whole, log)? {
        return Err("no refutation")?;
    }
    let told = search.told(alloc)?;
    let kept = told.steps().len() + 1;
    if log.steps().len() > kept {
        return Err("more than is kept")?;
    }
    Ok(kept - log.steps().len())
}

// How many valuations are found, each of which is blocked then, in front of the local clauses and behind them in turn; and how many of
// the steps that the search tells the refutation in the end leaves out.
fn listed(
    alloc: Global,
    f: &Cnf,
    base: &Trail,
    pool: &Log,
    local: &mut Vec<Clause>,
    search: &mut KeptSearch,
) -> Result<(u32, usize), Fail>
    requires base { IsBase f.now base.now }
    requires pool { IsAccepted f.now.clauses pool.now }
    requires none { length pool.now ≡ 0 }
    requires kept { IsKept f.now local.old.items pool.now search.old }
    requires few { length f.now.clauses + length local.old.items < 2000 }
    requires room { length search.old.steps ≤ 1000 }
    requires vars { f.now.vars < 100 }
    requires locals { All (HasVarsUpTo f.now.vars) local.old.items }
{
    let _vars = f.vars(); // for the proof
    for number in 0..100 {
        let answer = gone_on(alloc, f, base, pool, local.as_slice(), search)?;
        match answer {
            Answer::Found { valuation, .. } => {
                let is_last = number % 2 == 1;
                block_valuation(alloc, f, pool, local, search, is_last, &valuation)?;
            }
            Answer::Refuted { log } => {
                let left = left_out(alloc, f, local.as_slice(), search, &log)?;
                return Ok((number, left));
            }
            Answer::Spent { .. } => return Err("spent")?,
        }
    }
    Err("too many")?
}

// The same from the beginning, with local clauses of these literals.
fn counted(alloc: Global, f: &Cnf, numbers: &[&[i8]]) -> Result<(u32, usize), Fail>
    requires vars { f.now.vars < 100 }
    requires clauses { length f.now.clauses < 1000 }
    requires local { length numbers.now < 100 }
{
    let pool = Log::new(alloc);
    let base = Trail::over(alloc, f, f.vars())?;
    let mut local = clauses_of(alloc, f.vars(), numbers)?;
    let mut search = KeptSearch::over(alloc, f, &base, &pool, local.as_slice())?;
    listed(alloc, f, &base, &pool, &mut local, &mut search)
}

// Blocks these clauses, behind the local ones.
fn block_each(
    alloc: Global,
    f: &Cnf,
    pool: &Log,
    local: &mut Vec<Clause>,
    search: &mut KeptSearch,
    clauses: &[&[i8]],
) -> Result<(), Fail>
    requires kept { IsKept f.now local.old.items pool.now search.old }
    requires few { length f.now.clauses + length local.old.items + length pool.now + length clauses.now < 10000 }
    requires room { length search.old.steps ≤ 1000 }
    requires vars { f.now.vars < 100 }
    requires locals { All (HasVarsUpTo f.now.vars) local.old.items }
    ensures kept { OnOk result (IsKept f.now local.new.items pool.now search.new) }
    ensures few { OnOk result (length local.new.items ≤ length local.old.items + length clauses.now) }
    ensures locals { OnOk result (All (HasVarsUpTo f.now.vars) local.new.items) }
    ensures steps { OnOk result (search.new.steps ≡ search.old.steps) }
{
    for numbers in clauses {
        let place = local.len() as u32;
        let made = clause(alloc, f.vars(), numbers)?;
        if !block_at(alloc, f, pool, local, search, place, made)? {
            return Err("not blocked")?;
        }
    }
    Ok(())
}

// The same without local clauses, where these clauses are blocked once a first valuation was found.
fn counted_behind(alloc: Global, f: &Cnf, clauses: &[&[i8]]) -> Result<(u32, usize), Fail>
    requires vars { f.now.vars < 100 }
    requires clauses { length f.now.clauses < 1000 }
    requires blocked { length clauses.now < 100 }
{
    let pool = Log::new(alloc);
    let base = Trail::over(alloc, f, f.vars())?;
    let mut local = Vec::new(alloc);
    let mut search = KeptSearch::over(alloc, f, &base, &pool, local.as_slice())?;
    gone_on(alloc, f, &base, &pool, local.as_slice(), &mut search)?;
    block_each(alloc, f, &pool, &mut local, &mut search, clauses)?;
    listed(alloc, f, &base, &pool, &mut local, &mut search)
}

// Each of two pigeons has one of three holes, and no two have one hole.
const TWO: [&[i8]; 11] = [
    &[1, 2, 3],
    &[4, 5, 6],
    &[-1, -2],
    &[-1, -3],
    &[-2, -3],
    &[-4, -5],
    &[-4, -6],
    &[-5, -6],
    &[-1, -4],
    &[-2, -5],
    &[-3, -6],
];

#[test]
fn each_valuation_is_found_once(rt: HostRuntime) -> Result<(), Fail> {
    let two = formula(rt.alloc(), 6, &TWO)?;
    let all = counted(rt.alloc(), &two, &[])?;
    assert_eq!(rt; all, (6, 0));
    Ok(())
}

// Where the first pigeon hasn't the third hole, and the second one has the second hole where the first one has the first.
#[test]
fn blocked_valuations_stand_among_local_clauses(rt: HostRuntime) -> Result<(), Fail> {
    let two = formula(rt.alloc(), 6, &TWO)?;
    let some = counted(rt.alloc(), &two, &[&[-3], &[-1, 5]])?;
    assert_eq!(rt; some, (3, 0));
    Ok(())
}

// Without the first two variables the third one has no value; and one of the last two holds.
const APART: [&[i8]; 3] = [&[1, 2, 3], &[1, 2, -3], &[4, 5]];

// That one of the first two holds is learnt on the way to a valuation, and the last two are at odds without it.
#[test]
fn a_step_that_no_other_names_is_not_told(rt: HostRuntime) -> Result<(), Fail> {
    let apart = formula(rt.alloc(), 5, &APART)?;
    let none = counted_behind(rt.alloc(), &apart, &[&[4, -5], &[-4, 5], &[-4, -5]])?;
    assert_eq!(rt; none, (0, 1));
    Ok(())
}
