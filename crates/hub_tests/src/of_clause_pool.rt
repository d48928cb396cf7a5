// What is free, what is shared, and how much of it. Clauses are of positive literals, and steps restate clauses.
ghost use Rattle.std.specs.Prelude.{◌≡◌, ◌<◌, ◌≤◌, ◌∷◌, All, IfOk, length, map};
ghost use Rattle.std.specs.Bool.{OnTrue};
ghost use Rattle.cnf_core.specs.Literal.{HasVarsUpTo};
ghost use Rattle.refutation_check.specs.Chain.{IsAccepted};

use clause_pool::{Pool, free_of};
use cnf_core::{Clause, Cnf, Lit};
use refutation_check::{Hints, Log, Scratch, Step, Verdict, check};
use std::alloc::{AllocError, Global};
use std::test::Fail;

// The clause of the positive literals of these variables.
fn clause(alloc: Global, vars: &[u8]) -> Result<Clause, Fail> {
    let mut lits = Vec::new(alloc);
    for var in vars {
        lits.push(Lit {
            var: u32::from(*var) + 1,
            positive: true,
        })?;
    }
    match Clause::of(alloc, lits.as_slice())? {
        Some(clause) => Ok(clause),
        None => Err("a tautology")?,
    }
}

// A step of this clause for each list of hints, which are from 1 on.
fn log(alloc: Global, clause: &Clause, hints: &[&[u32]]) -> Result<Log, Fail>
    requires { length hints.now < 100 }
    ensures hints { IfOk result (λ log. All (λ s. All (λ hint. 1 ≤ hint) s.hints) log) }
    ensures few { IfOk result (λ log. length log < 100) }
{
    let mut log = Log::new(alloc);
    for numbers in hints {
        if !is_from_one(numbers) {
            Err("a hint of 0")?;
        }
        let hints = Hints::of(Vec::from_slice(alloc, numbers)?);
        let clause = clause.copy(alloc)?;
        log.push(Step { clause, hints })?;
    }
    Ok(log)
}

fn is_from_one(hints: &[u32]) -> bool
    ensures { OnTrue result (All (λ hint. 1 ≤ hint) hints.now) }
{
    for hint in hints {
        if *hint == 0 {
            return false;
        }
    }
    true
}

// So many steps of this clause, with the hint 1.
fn copies(alloc: Global, clause: &Clause, n: u32) -> Result<Log, AllocError>
    requires { n < 100000 }
{
    let mut log = Log::new(alloc);
    for made in 0..n {
        let _ = made; // for the proof
        let hints = Hints::of([1].to_vec(alloc)?);
        let clause = clause.copy(alloc)?;
        log.push(Step { clause, hints })?;
    }
    Ok(log)
}

// Whether each variable is at most this one.
fn is_within(clause: &Clause, vars: u32) -> bool
    ensures { OnTrue result (HasVarsUpTo vars clause.now) }
{
    let lits = clause.lits();
    for lit in lits {
        if lit.var > vars {
            return false;
        }
    }
    true
}

fn is_log_within(log: &Log, vars: u32) -> bool
    ensures { OnTrue result (All (λ s. HasVarsUpTo vars s.clause) log.now) }
{
    let steps = log.steps();
    for step in steps {
        if !is_within(&step.clause, vars) {
            return false;
        }
    }
    true
}

// The formula of this clause and of the steps' clauses.
fn formula(alloc: Global, clause: &Clause, steps: &Log) -> Result<Cnf, Fail>
    ensures vars { IfOk result (λ f. f.vars ≡ 1000) }
    ensures clauses { IfOk result (λ f. f.clauses ≡ clause.now ∷ map (λ s. s.clause) steps.now) }
{
    let listed = steps.steps();
    if !is_within(clause, 1000) {
        Err("a larger variable")?;
    }
    if !is_log_within(steps, 1000) {
        Err("a larger variable")?;
    }
    if listed.len() > 100_000 {
        Err("too many steps")?;
    }
    let mut formula = Cnf::new(alloc, 1000);
    formula.push(clause.copy(alloc)?)?;
    for step in listed {
        formula.push(step.clause.copy(alloc)?)?;
    }
    Ok(formula)
}

// Whether the checker takes the log over the formula, without an empty clause at its end.
fn is_accepted(alloc: Global, f: &Cnf, log: &Log) -> Result<bool, Fail>
    requires { f.now.vars ≡ 1000 }
    ensures { IfOk result (λ b. OnTrue b (IsAccepted f.now.clauses log.now)) }
{
    if !is_log_within(log, 1000) {
        Err("a larger variable")?;
    }
    let mut scratch = Scratch::for_vars(alloc, 1000)?;
    Ok(check(f, log, &mut scratch) == Verdict::NoEmptyClause)
}

// Shares the steps, which the checker takes over the clause and the pool's first ones.
fn share(
    alloc: Global,
    pool: &mut Pool,
    clause: &Clause,
    at: u32,
    free: &Log,
) -> Result<u32, Fail> {
    if at > pool.len() {
        Err("no such prefix")?;
    }
    let prefix = pool.prefix(alloc, at)?;
    let members = formula(alloc, clause, &prefix)?;
    if !is_accepted(alloc, &members, free)? {
        Err("not accepted")?;
    }
    let f = formula(alloc, clause, &Log::new(alloc))?;
    let addition = pool.addition(alloc, &f, at, free)?;
    let count = pool.share(alloc, &f, at, free)?;
    if addition.steps().len() != count as usize {
        Err("another length")?;
    }
    Ok(count)
}

// Whether these are the hints of the steps.
fn has_hints(log: &Log, hints: &[&[u32]]) -> bool {
    let steps = log.steps();
    steps.len() == hints.len()
        && steps
            .iter()
            .zip(hints)
            .all(|(step, hints)| step.hints.numbers() == *hints)
}

#[test]
fn a_pool_takes_20_000_steps(rt: HostRuntime) -> Result<(), Fail> {
    let alloc = rt.alloc();
    let unit = clause(alloc, &[0])?;
    let mut pool = Pool::new(alloc);
    let free = copies(alloc, &unit, 20_001)?;
    assert_eq!(rt; share(alloc, &mut pool, &unit, 0, &free)?, 20_000);
    assert_eq!(rt; pool.len(), 20_000);
    let one = copies(alloc, &unit, 1)?;
    assert_eq!(rt; share(alloc, &mut pool, &unit, 7, &one)?, 0);
    assert_eq!(rt; pool.len(), 20_000);
    Ok(())
}

#[test]
fn a_pool_takes_2_000_000_literals_and_hints(rt: HostRuntime) -> Result<(), Fail> {
    let alloc = rt.alloc();
    let mut vars = Vec::new(alloc);
    for var in 0..199u8 {
        vars.push(var)?;
    }
    let wide = clause(alloc, vars.as_slice())?;
    let mut pool = Pool::new(alloc);
    let free = copies(alloc, &wide, 10_001)?;
    assert_eq!(rt; share(alloc, &mut pool, &wide, 0, &free)?, 10_000);
    assert_eq!(rt; pool.len(), 10_000);
    Ok(())
}

#[test]
fn hints_make_room_for_what_was_shared_since(rt: HostRuntime) -> Result<(), Fail> {
    let alloc = rt.alloc();
    let unit = clause(alloc, &[4])?;
    let mut pool = Pool::new(alloc);
    let first = log(alloc, &unit, &[&[1], &[2]])?;
    assert_eq!(rt; share(alloc, &mut pool, &unit, 0, &first)?, 2);
    let second = log(alloc, &unit, &[&[3]])?;
    assert_eq!(rt; share(alloc, &mut pool, &unit, 2, &second)?, 1);
    let older = log(alloc, &unit, &[&[2], &[3], &[1], &[4]])?;
    assert_eq!(rt; share(alloc, &mut pool, &unit, 1, &older)?, 4);
    let whole = pool.prefix(alloc, pool.len())?;
    assert!(rt; has_hints(&whole, &[&[1], &[2], &[3], &[2], &[5], &[1], &[6]]));
    let f = formula(alloc, &unit, &Log::new(alloc))?;
    assert!(rt; is_accepted(alloc, &f, &whole)?);
    Ok(())
}

#[test]
fn a_prefix_has_none_some_or_all_steps(rt: HostRuntime) -> Result<(), Fail> {
    let alloc = rt.alloc();
    let unit = clause(alloc, &[0])?;
    let mut pool = Pool::new(alloc);
    assert_eq!(rt; pool.prefix(alloc, 0)?.steps().len(), 0);
    let first = log(alloc, &unit, &[&[1], &[2]])?;
    share(alloc, &mut pool, &unit, 0, &first)?;
    share(alloc, &mut pool, &unit, 0, &first)?;
    if pool.len() == 4 {
        assert!(rt; has_hints(&pool.prefix(alloc, 0)?, &[]));
        assert!(rt; has_hints(&pool.prefix(alloc, 1)?, &[&[1]]));
        assert!(rt; has_hints(&pool.prefix(alloc, 3)?, &[&[1], &[2], &[1]]));
        assert!(rt; has_hints(&pool.prefix(alloc, 4)?, &[&[1], &[2], &[1], &[4]]));
        return Ok(());
    }
    Err("not all shared")?
}

// Two clauses, a local one, and a pool of one step: 1 and 2, 3, and 4.
#[test]
fn what_rests_on_a_local_clause_is_not_free(rt: HostRuntime) -> Result<(), Fail> {
    let alloc = rt.alloc();
    let unit = clause(alloc, &[0])?;
    let search = log(
        alloc,
        &unit,
        &[&[1, 4], &[3, 1], &[6, 2], &[5, 2], &[8, 5, 4]],
    )?;
    let free = free_of(alloc, &search, 2, 1, 1)?;
    assert!(rt; has_hints(&free, &[&[1, 3], &[4, 2], &[5, 4, 3]]));
    let all = free_of(alloc, &search, 4, 0, 0)?;
    assert!(rt; has_hints(&all, &[&[1, 4], &[3, 1], &[6, 2], &[5, 2], &[8, 5, 4]]));
    Ok(())
}
