// Searches over small formulas.
ghost use Rattle.std.specs.Prelude.{◌≡◌, ◌+◌, ◌≤◌, ◌<◌, All, IfOk, OnOk, length};
ghost use Rattle.cnf_core.specs.Literal.{IsClause, HasVarsUpTo};
ghost use Rattle.refutation_check.specs.Chain.{IsAccepted};

use crate::clauses::clause;
use cnf_core::{Clause, Cnf, Lit, Valuation};
use refutation_check::{Hints, Log, Scratch, Step, Verdict, check};
use sat_core::{Answer, Ending, SavedPhases, StepCount, Trail, solve, solve_on};
use std::alloc::Global;
use std::process::Abort;
use std::test::Fail;

// The variant of an answer that was checked.
#[derive(Clone, Copy, Debug, PartialEq, Eq)]
enum Kind {
    Found,
    Refuted,
    Spent,
}

pub(crate) fn formula(alloc: Global, vars: u32, clauses: &[&[i8]]) -> Result<Cnf, Fail>
    requires vars { vars < 128 }
    requires few { length clauses.now < 1000 }
    ensures vars { IfOk result (λ f. f.vars ≡ vars) }
    ensures few { IfOk result (λ f. length f.clauses < 1000) }
{
    let mut formula = Cnf::new(alloc, vars);
    for numbers in clauses {
        formula.push(clause(alloc, vars, numbers)?)?;
    }
    Ok(formula)
}

// Whether the valuation makes a literal of the clause true.
fn is_true(lits: &[Lit], valuation: &Valuation) -> bool
    requires clause { IsClause lits.now }
    requires in_range { HasVarsUpTo (length valuation.now) lits.now }
{
    for lit in lits {
        if valuation.value(lit.var) == lit.positive {
            return true;
        }
    }
    false
}

fn is_satisfied(f: &Cnf, valuation: &Valuation) -> bool
    requires { f.now.vars ≤ length valuation.now }
{
    for i in 0..f.len() {
        if !is_true(f.clause(i + 1).lits(), valuation) {
            return false;
        }
    }
    true
}

pub(crate) fn is_refuted(alloc: Global, f: &Cnf, log: &Log) -> Result<bool, Fail>
    requires { All (λ s. HasVarsUpTo f.now.vars s.clause) log.now }
{
    let mut scratch = Scratch::for_vars(alloc, f.vars())?;
    Ok(check(f, log, &mut scratch) == Verdict::Accepted)
}

// The answer with no pool and no local clauses, checked, and its number of steps.
fn answer(alloc: Global, f: &Cnf, budget: u64) -> Result<(Kind, usize), Fail>
    requires few { length f.now.clauses < 1000 }
    requires budget { budget < 100000 }
{
    let _vars = f.vars(); // for the proof
    let mut count = StepCount::new();
    match solve(alloc, f, &Log::new(alloc), &[], budget, &mut count)? {
        Answer::Found { valuation, log } if is_satisfied(f, &valuation) => Ok((
            Kind::Found,
            log.steps().len(),
        )),
        Answer::Refuted { log } if is_refuted(alloc, f, &log)? => Ok((
            Kind::Refuted,
            log.steps().len(),
        )),
        Answer::Spent { log } => Ok((Kind::Spent, log.steps().len())),
        _ => Err("a wrong answer")?,
    }
}

// The same of the formula of these clauses of so many variables.
fn answer_of(
    alloc: Global,
    vars: u32,
    clauses: &[&[i8]],
    budget: u64,
) -> Result<(Kind, usize), Fail> {
    if vars > 99 || clauses.len() > 99 || budget > 9999 {
        Err("too large")?
    }
    let f = formula(alloc, vars, clauses)?;
    answer(alloc, &f, budget)
}

const SQUARE: [&[i8]; 4] = [&[1, 2], &[1, -2], &[-1, 2], &[-1, -2]];

#[test]
fn the_square_is_refuted_within_its_budget(rt: HostRuntime) -> Result<(), Fail> {
    let spent = answer_of(rt.alloc(), 2, &SQUARE, 0)?;
    assert_eq!(rt; spent, (Kind::Spent, 0));
    let refuted = answer_of(rt.alloc(), 2, &SQUARE, 9)?;
    assert_eq!(rt; refuted, (Kind::Refuted, 2));
    Ok(())
}

// The values of two variables in the valuation that is found for the formula.
fn found_values(alloc: Global, f: &Cnf) -> Result<(bool, bool), Fail>
    requires { length f.now.clauses < 1000 }
{
    let mut count = StepCount::new();
    let answer = solve(alloc, f, &Log::new(alloc), &[], 9, &mut count)?;
    values_in(&answer)
}

fn values_in(answer: &Answer) -> Result<(bool, bool), Fail> {
    match answer {
        Answer::Found { valuation, .. } if valuation.vars() == 2 => Ok((
            valuation.value(1),
            valuation.value(2),
        )),
        _ => Err("not found")?,
    }
}

#[test]
fn a_found_valuation_satisfies(rt: HostRuntime) -> Result<(), Fail> {
    let three = formula(rt.alloc(), 2, &[&[1, 2], &[1, -2], &[-1, 2]])?;
    let values = found_values(rt.alloc(), &three)?;
    assert_eq!(rt; values, (true, true));
    Ok(())
}

// The clauses of these literals by their numbers.
fn clauses_of(alloc: Global, clauses: &[&[i8]]) -> Result<Vec<Clause>, Fail>
    ensures { IfOk result (λ made. length made.items ≡ length clauses.now) }
{
    let mut made = Vec::new(alloc);
    for numbers in clauses {
        made.push(clause(alloc, 13, numbers)?)?;
    }
    Ok(made)
}

// What a search with a pool and local clauses comes to, and its log.
fn searched(
    alloc: Global,
    f: &Cnf,
    pool: &Log,
    local: &[&[i8]],
    budget: u64,
) -> Result<(Kind, Log), Fail>
    requires pool { IsAccepted f.now.clauses pool.now }
    requires clauses { length f.now.clauses < 1000 }
    requires steps { length pool.now < 1000 }
    requires local { length local.now < 1000 }
    requires budget { budget < 100000 }
{
    let clauses = clauses_of(alloc, local)?;
    let mut count = StepCount::new();
    match solve(alloc, f, pool, clauses.as_slice(), budget, &mut count)? {
        Answer::Found { log, .. } => Ok((Kind::Found, log)),
        Answer::Refuted { log } => Ok((Kind::Refuted, log)),
        Answer::Spent { log } => Ok((Kind::Spent, log)),
    }
}

// The hints of the only step of a refutation with this pool and these local clauses, the lowest first.
fn only_hints(alloc: Global, f: &Cnf, pool: &Log, local: &[&[i8]]) -> Result<Vec<u32>, Fail>
    requires pool { IsAccepted f.now.clauses pool.now }
    requires clauses { length f.now.clauses < 1000 }
    requires steps { length pool.now < 1000 }
    requires local { length local.now < 1000 }
{
    let (kind, log) = searched(alloc, f, pool, local, 1)?;
    match log.steps() {
        [step] if kind == Kind::Refuted => {
            let mut hints = step.hints.numbers().to_vec(alloc)?;
            hints.sort()?;
            Ok(hints)
        }
        _ => Err("not one step of a refutation")?,
    }
}

// What a search over these clauses of so many variables comes to, with local clauses, and its number of steps.
fn outcome(
    alloc: Global,
    (vars, clauses): (u32, &[&[i8]]),
    local: &[&[i8]],
    budget: u64,
) -> Result<(Kind, usize), Fail> {
    if vars > 13 || clauses.len() > 99 || local.len() > 99 || budget > 9999 {
        Err("too large")?
    }
    let f = formula(alloc, vars, clauses)?;
    let (kind, log) = searched(alloc, &f, &Log::new(alloc), local, budget)?;
    Ok((kind, log.steps().len()))
}

// That the only step of such a search's refutation has these hints.
fn has_hints(
    rt: &impl Abort,
    alloc: Global,
    (vars, clauses): (u32, &[&[i8]]),
    local: &[&[i8]],
    hints: &[u32],
) -> Result<(), Fail> {
    assert!(rt; vars < 14 && clauses.len() < 100 && local.len() < 100);
    let f = formula(alloc, vars, clauses)?;
    let found = only_hints(alloc, &f, &Log::new(alloc), local)?;
    assert_eq!(rt; found.as_slice(), hints);
    Ok(())
}

#[test]
fn contradicting_units_are_named_by_the_last_step(rt: HostRuntime) -> Result<(), Fail> {
    has_hints(
        &rt,
        rt.alloc(),
        (2, &[&[1, 2]]),
        &[&[1], &[2], &[2], &[-2]],
        &[3, 5],
    )
}

#[test]
fn a_unit_may_be_false_before_any_decision(rt: HostRuntime) -> Result<(), Fail> {
    has_hints(
        &rt,
        rt.alloc(),
        (2, &[&[1], &[-1, 2]]),
        &[&[-2]],
        &[1, 2, 3],
    )
}

#[test]
fn an_empty_local_clause_takes_a_step(rt: HostRuntime) -> Result<(), Fail> {
    let (kind, _) = outcome(rt.alloc(), (2, &[&[1, 2]]), &[&[-1], &[]], 0)?;
    assert_eq!(rt; kind, Kind::Spent);
    has_hints(&rt, rt.alloc(), (2, &[&[1, 2]]), &[&[-1], &[]], &[3])
}

#[test]
fn units_of_further_variables_hold(rt: HostRuntime) -> Result<(), Fail> {
    let (kind, _) = outcome(rt.alloc(), (2, &[&[1, 2]]), &[&[5], &[-2], &[-4]], 0)?;
    assert_eq!(rt; kind, Kind::Found);
    has_hints(&rt, rt.alloc(), (2, &[&[1, 2]]), &[&[5], &[-5]], &[2, 3])
}

// Where the first is true, so are the second, and so the third and the fourth, of which not both are.
const FORK: [&[i8]; 4] = [&[-1, 2], &[-2, 3], &[-2, 4], &[-3, -4]];

#[test]
fn a_conflict_with_nothing_else_decided_takes_one_step(rt: HostRuntime) -> Result<(), Fail> {
    has_hints(&rt, rt.alloc(), (4, &FORK), &[&[1]], &[1, 2, 3, 4, 5])?;
    let (kind, _) = outcome(rt.alloc(), (4, &FORK), &[&[-1]], 0)?;
    assert_eq!(rt; kind, Kind::Found);
    Ok(())
}

// Where the first pigeon has the first hole.
#[test]
fn steps_are_learnt_under_a_unit(rt: HostRuntime) -> Result<(), Fail> {
    let (kind, _) = outcome(rt.alloc(), (12, &PIGEONS), &[&[1]], 1000)?;
    assert_eq!(rt; kind, Kind::Refuted);
    let spent = outcome(rt.alloc(), (12, &PIGEONS), &[&[1]], 1)?;
    assert_eq!(rt; spent, (Kind::Spent, 1));
    Ok(())
}

// A pool of the step with this clause and these hints.
fn pool_of(alloc: Global, f: &Cnf, numbers: &[i8], hints: &[u32]) -> Result<Log, Fail>
    requires { f.now.vars ≤ 13 }
    ensures accepted { IfOk result (IsAccepted f.now.clauses) }
    ensures few { IfOk result (λ pool. length pool < 1000) }
{
    let mut pool = Log::new(alloc);
    pool.push(Step {
        clause: clause(alloc, 13, numbers)?,
        hints: Hints::of(hints.to_vec(alloc)?),
    })?;
    let mut scratch = Scratch::for_vars(alloc, 13)?;
    match check(f, &pool, &mut scratch) {
        Verdict::NoEmptyClause => Ok(pool),
        _ => Err("not accepted")?,
    }
}

// That it has them with a pool of the step whose clause and hints these are.
fn has_hints_over(
    rt: &impl Abort,
    alloc: Global,
    (vars, clauses): (u32, &[&[i8]]),
    (numbers, named): (&[i8], &[u32]),
    local: &[&[i8]],
    hints: &[u32],
) -> Result<(), Fail> {
    assert!(rt; vars < 14 && clauses.len() < 100 && local.len() < 100);
    let f = formula(alloc, vars, clauses)?;
    let pool = pool_of(alloc, &f, numbers, named)?;
    let found = only_hints(alloc, &f, &pool, local)?;
    assert_eq!(rt; found.as_slice(), hints);
    Ok(())
}

#[test]
fn local_clauses_come_between_the_formula_and_the_pool(rt: HostRuntime) -> Result<(), Fail> {
    has_hints_over(
        &rt,
        rt.alloc(),
        (2, &[&[1, 2], &[1, -2]]),
        (&[1], &[1, 2]),
        &[&[-2], &[-1, 2]],
        &[3, 4, 5],
    )
}

#[test]
fn a_pool_may_have_further_variables(rt: HostRuntime) -> Result<(), Fail> {
    let one = formula(rt.alloc(), 1, &[&[1]])?;
    let pool = pool_of(rt.alloc(), &one, &[1, 3], &[1])?;
    let (kind, _) = searched(rt.alloc(), &one, &pool, &[&[-3], &[-1, 2]], 0)?;
    assert_eq!(rt; kind, Kind::Found);
    Ok(())
}

#[test]
fn pool_steps_are_numbered_after_the_formula(rt: HostRuntime) -> Result<(), Fail> {
    has_hints_over(
        &rt,
        rt.alloc(),
        (2, &SQUARE),
        (&[1], &[1, 2]),
        &[],
        &[3, 4, 5],
    )
}

#[test]
fn pool_steps_are_numbered_after_local_clauses(rt: HostRuntime) -> Result<(), Fail> {
    has_hints_over(
        &rt,
        rt.alloc(),
        (2, &[&[1, 2], &[1, -2]]),
        (&[1], &[1, 2]),
        &[&[-1, 2], &[-1, -2]],
        &[3, 4, 5],
    )
}

#[test]
fn four_pigeons_have_no_three_holes(rt: HostRuntime) -> Result<(), Fail> {
    let (kind, _) = answer_of(rt.alloc(), 12, &PIGEONS, 1000)?;
    assert_eq!(rt; kind, Kind::Refuted);
    Ok(())
}

// Each of four pigeons has one of three holes, and no two have one hole.
const PIGEONS: [&[i8]; 22] = [
    &[1, 2, 3],
    &[4, 5, 6],
    &[7, 8, 9],
    &[10, 11, 12],
    &[-1, -4],
    &[-1, -7],
    &[-1, -10],
    &[-4, -7],
    &[-4, -10],
    &[-7, -10],
    &[-2, -5],
    &[-2, -8],
    &[-2, -11],
    &[-5, -8],
    &[-5, -11],
    &[-8, -11],
    &[-3, -6],
    &[-3, -9],
    &[-3, -12],
    &[-6, -9],
    &[-6, -12],
    &[-9, -12],
];

// The literal of one of 13 variables by its number in the DIMACS format.
fn literal(number: i8) -> Lit
    ensures from_one { 1 ≤ result.var }
    ensures in_range { result.var ≤ 13 }
{
    Lit {
        var: u32::from(number.unsigned_abs()).clamp(1, 13),
        positive: number > 0,
    }
}

// What a search on a trail comes to where this literal is assumed, and how many steps it learns.
fn ended(alloc: Global, trail: &mut Trail, assumed: i8, budget: u64) -> Result<(Kind, usize), Fail>
    requires vars { 13 ≤ trail.old.vars }
    requires few { length trail.old.clauses + budget < 10000 }
    ensures vars { OnOk result (trail.new.vars ≡ trail.old.vars) }
    ensures few { OnOk result (length trail.new.clauses ≤ length trail.old.clauses + budget) }
{
    let leaning = SavedPhases::towards(alloc, false);
    let mut count = StepCount::new();
    match solve_on(
        alloc,
        trail,
        &[literal(assumed)],
        budget,
        &leaning,
        &mut count,
    )? {
        Ending::Found { log, .. } => Ok((Kind::Found, log.steps().len())),
        Ending::Clash { log } => Ok((Kind::Refuted, log.steps().len())),
        Ending::Spent { log } => Ok((Kind::Spent, log.steps().len())),
    }
}

#[test]
fn a_trail_is_searched_again(rt: HostRuntime) -> Result<(), Fail> {
    let alloc = rt.alloc();
    let fork = formula(alloc, 4, &FORK)?;
    let mut trail = Trail::over(alloc, &fork, 13)?;
    assert_eq!(rt; ended(alloc, &mut trail, 1, 9)?, (Kind::Refuted, 0));
    assert_eq!(rt; ended(alloc, &mut trail, -1, 0)?, (Kind::Found, 0));
    assert_eq!(rt; ended(alloc, &mut trail, 2, 9)?, (Kind::Refuted, 0));
    Ok(())
}

#[test]
fn a_trail_keeps_what_was_learnt(rt: HostRuntime) -> Result<(), Fail> {
    let alloc = rt.alloc();
    let pigeons = formula(alloc, 12, &PIGEONS)?;
    let mut trail = Trail::over(alloc, &pigeons, 13)?;
    assert_eq!(rt; ended(alloc, &mut trail, 1, 0)?, (Kind::Spent, 0));
    assert_eq!(rt; ended(alloc, &mut trail, 1, 1)?, (Kind::Refuted, 1));
    assert_eq!(rt; ended(alloc, &mut trail, 1, 0)?, (Kind::Refuted, 0));
    Ok(())
}

// The next number of a linear congruential generator.
fn next(state: u64) -> u64 {
    state
        .wrapping_mul(6_364_136_223_846_793_005)
        .wrapping_add(1_442_695_040_888_963_407)
}

// The number of a literal of one of 40 variables, from a random number.
fn random_literal(place: u64, sign: u64) -> i8 {
    let var = (place % 40) as i8 + 1;
    if sign % 2 == 0 { var } else { -var }
}

// The numbers of three literals of one of 40 variables each.
fn random_numbers(state: u64) -> [i8; 3] {
    let first = (state >> 33) % 40;
    let second = first + 1 + (state >> 40) % 19;
    let third = second + 1 + (state >> 46) % 19;
    [
        random_literal(first, state >> 53),
        random_literal(second, state >> 54),
        random_literal(third, state >> 55),
    ]
}

// 172 clauses of three literals over 40 variables.
fn random_formula(alloc: Global, seed: u64) -> Result<Cnf, Fail>
    ensures vars { IfOk result (λ f. f.vars ≡ 40) }
    ensures few { IfOk result (λ f. length f.clauses < 1000) }
{
    let mut formula = Cnf::new(alloc, 40);
    let mut state = seed;
    'clauses: while formula.len() < 172 {
        state = next(state);
        let clause = clause(alloc, 40, &random_numbers(state))?;
        formula.push(clause)?;
    }
    Ok(formula)
}

fn random_kind(alloc: Global, seed: u64) -> Result<Kind, Fail> {
    let formula = random_formula(alloc, seed)?;
    let (kind, _) = answer(alloc, &formula, 10000)?;
    Ok(kind)
}

#[test]
fn random_formulas_are_answered(rt: HostRuntime) -> Result<(), Fail> {
    for seed in 1..9 {
        let kind = random_kind(rt.alloc(), seed)?;
        assert_ne!(rt; kind, Kind::Spent, "seed {seed}");
    }
    Ok(())
}
