// Clauses to search in: random ones of three literals, pigeons in too few holes, and chains of implications.
ghost use Rattle.std.specs.Prelude.{◌≡◌, ◌+◌, ◌<◌, ◌≤◌, All, IfOk, IfSome, OnOk, length};
ghost use Rattle.cnf_core.specs.Literal.{HasVarsUpTo};
ghost use Rattle.bench_search.specs.Formulas.{IsSmall};

use cnf_core::{Clause, Cnf, Lit};
use rand_core::Rng;
use rand_pcg::Pcg32;
use std::alloc::{AllocError, Global};

/// The most variables and clauses.
pub const MOST: u32 = 1_000_000;

/// The clauses of this kind, of which there are at most a million; `None` where there is no such kind or size.
pub fn of_kind(alloc: Global, kind: &str, size: u32, seed: u32) -> Result<Option<Cnf>, AllocError>
    ensures { IfOk result (λ made. IfSome made (λ f. length f.clauses ≤ 1000000)) }
{
    match kind {
        "random" if size >= 3 && size <= 100_000 => {
            Ok(random(alloc, size, hardest(size), seed)?)
        }
        "pigeons" if size >= 1 && size <= 100 => Ok(pigeons(alloc, size)?),
        "chain" if size < MOST => Ok(chain(alloc, size)?),
        _ => Ok(None),
    }
}

// How many random clauses over so many variables are the hardest: 4.26 for each.
fn hardest(vars: u32) -> u32
    requires { vars ≤ 100000 }
    ensures { result ≤ 426000 }
{
    vars * 426 / 100
}

/// The generator of random numbers for this seed.
pub fn generator(seed: u32) -> Pcg32 {
    Pcg32::new(u64::from(seed), 54)
}

/// The literal of the variable at this place, from 0, among so many.
pub fn literal(place: u32, vars: u32, positive: bool) -> Lit
    requires some { 1 ≤ vars }
    requires few { vars ≤ 1000000 }
    ensures var { place < vars → result.var ≡ place + 1 }
    ensures from_one { 1 ≤ result.var }
    ensures in_range { result.var ≤ vars }
    ensures sign { result.positive ≡ positive }
{
    Lit {
        var: 1 + place % vars,
        positive,
    }
}

/// So many clauses of three literals, each of another of these variables, by a seed.
pub fn random(alloc: Global, vars: u32, clauses: u32, seed: u32) -> Result<Option<Cnf>, AllocError>
    requires some { 3 ≤ vars }
    requires few { vars ≤ 1000000 }
    requires few_clauses { clauses ≤ 1000000 }
    ensures vars { IfOk result (λ made. IfSome made (λ f. f.vars ≡ vars)) }
    ensures clauses { IfOk result (λ made. IfSome made (λ f. length f.clauses ≡ clauses)) }
{
    let mut rng = generator(seed);
    let mut formula = Cnf::new(alloc, vars);
    for made in 0..clauses {
        let _ = made; // for the proof
        let Some(clause) = random_clause(alloc, &mut rng, vars)? else {
            return Ok(None);
        };
        formula.push(clause)?;
    }
    Ok(Some(formula))
}

// A clause of three literals, each of another variable.
fn random_clause(alloc: Global, rng: &mut Pcg32, vars: u32) -> Result<Option<Clause>, AllocError>
    requires some { 3 ≤ vars }
    requires few { vars ≤ 1000000 }
    ensures { IfOk result (λ made. IfSome made (HasVarsUpTo vars)) }
{
    let first = rng.next_u32() % vars;
    let second = 1 + rng.next_u32() % (vars - 1);
    let third = 1 + rng.next_u32() % (vars - 2);
    let third = if third >= second { third + 1 } else { third };
    let mut lits = Vec::new(alloc);
    lits.push(random_literal(rng, first, vars))?;
    lits.push(random_literal(rng, first + second, vars))?;
    lits.push(random_literal(rng, first + third, vars))?;
    Ok(clause_of(alloc, lits.as_slice(), vars)?)
}

/// The literal of the variable at this place, with a random sign.
pub fn random_literal(rng: &mut Pcg32, place: u32, vars: u32) -> Lit
    requires some { 1 ≤ vars }
    requires few { vars ≤ 1000000 }
    ensures from_one { 1 ≤ result.var }
    ensures in_range { result.var ≤ vars }
{
    literal(place, vars, rng.next_u32() >= 2_147_483_648)
}

/// The clause of these literals, or none where a variable has both signs.
pub fn clause_of(alloc: Global, lits: &[Lit], vars: u32) -> Result<Option<Clause>, AllocError>
    requires few { vars ≤ 1000000 }
    requires lits { All (λ l. (1 ≤ l.var) × (l.var ≤ vars)) lits.now }
    ensures { IfOk result (λ made. IfSome made (HasVarsUpTo vars)) }
{
    let _vars = vars; // for the proof
    Ok(Clause::of(alloc, lits)?)
}

// Puts the clause of these literals at the end; false where it is none, or where the formula has its most clauses.
fn add(alloc: Global, formula: &mut Cnf, lits: &[Lit], vars: u32) -> Result<bool, AllocError>
    requires few { vars ≤ 1000000 }
    requires lits { All (λ l. (1 ≤ l.var) × (l.var ≤ vars)) lits.now }
    requires small { IsSmall vars formula.old }
    ensures { OnOk result (IsSmall vars formula.new) }
{
    let Some(clause) = clause_of(alloc, lits, vars)? else {
        return Ok(false);
    };
    if formula.len() >= MOST {
        return Ok(false);
    }
    formula.push(clause)?;
    Ok(true)
}

// One pigeon more than holes: each pigeon has a hole, and no two have one.
fn pigeons(alloc: Global, holes: u32) -> Result<Option<Cnf>, AllocError>
    requires some { 1 ≤ holes }
    requires few { holes ≤ 100 }
    ensures { IfOk result (λ made. IfSome made (λ f. length f.clauses ≤ 1000000)) }
{
    let vars = (holes + 1).saturating_mul(holes).max(1).min(MOST);
    let mut formula = Cnf::new(alloc, vars);
    for pigeon in 0..holes + 1 {
        if !add_hole(alloc, &mut formula, pigeon, holes, vars)? {
            return Ok(None);
        }
    }
    for pigeon in 0..holes + 1 {
        if !add_conflicts(alloc, &mut formula, pigeon, holes, vars)? {
            return Ok(None);
        }
    }
    Ok(Some(formula))
}

// The literal that this pigeon has this hole, or has not.
fn in_hole(pigeon: u32, hole: u32, holes: u32, vars: u32, positive: bool) -> Lit
    requires some { 1 ≤ vars }
    requires few { vars ≤ 1000000 }
    ensures from_one { 1 ≤ result.var }
    ensures in_range { result.var ≤ vars }
{
    literal(
        pigeon.saturating_mul(holes).saturating_add(hole),
        vars,
        positive,
    )
}

// Adds that the pigeon has a hole.
fn add_hole(
    alloc: Global,
    formula: &mut Cnf,
    pigeon: u32,
    holes: u32,
    vars: u32,
) -> Result<bool, AllocError>
    requires some { 1 ≤ vars }
    requires few { vars ≤ 1000000 }
    requires small { IsSmall vars formula.old }
    ensures { OnOk result (IsSmall vars formula.new) }
{
    let mut lits = Vec::new(alloc);
    for hole in 0..holes {
        lits.push(in_hole(pigeon, hole, holes, vars, true))?;
    }
    Ok(add(alloc, formula, lits.as_slice(), vars)?)
}

// Adds that no later pigeon has the same hole as this one.
fn add_conflicts(
    alloc: Global,
    formula: &mut Cnf,
    pigeon: u32,
    holes: u32,
    vars: u32,
) -> Result<bool, AllocError>
    requires some { 1 ≤ vars }
    requires few { vars ≤ 1000000 }
    requires few_holes { holes ≤ 100 }
    requires few_pigeons { pigeon ≤ holes }
    requires small { IsSmall vars formula.old }
    ensures { OnOk result (IsSmall vars formula.new) }
{
    for other in pigeon + 1..holes + 1 {
        if !add_pair(alloc, formula, pigeon, other, holes, vars)? {
            return Ok(false);
        }
    }
    Ok(true)
}

// Adds for each hole that not both pigeons have it.
fn add_pair(
    alloc: Global,
    formula: &mut Cnf,
    pigeon: u32,
    other: u32,
    holes: u32,
    vars: u32,
) -> Result<bool, AllocError>
    requires some { 1 ≤ vars }
    requires few { vars ≤ 1000000 }
    requires small { IsSmall vars formula.old }
    ensures { OnOk result (IsSmall vars formula.new) }
{
    for hole in 0..holes {
        let one = in_hole(pigeon, hole, holes, vars, false);
        let two = in_hole(other, hole, holes, vars, false);
        if !add(alloc, formula, &[one, two], vars)? {
            return Ok(false);
        }
    }
    Ok(true)
}

// The first variable is true, and each implies the next: so many implications.
fn chain(alloc: Global, implications: u32) -> Result<Option<Cnf>, AllocError>
    requires { implications < 1000000 }
    ensures { IfOk result (λ made. IfSome made (λ f. length f.clauses ≤ 1000000)) }
{
    let vars = implications + 1;
    let mut formula = Cnf::new(alloc, vars);
    if !add(alloc, &mut formula, &[literal(0, vars, true)], vars)? {
        return Ok(None);
    }
    for place in 0..implications {
        let from = literal(place, vars, false);
        let to = literal(place + 1, vars, true);
        if !add(alloc, &mut formula, &[from, to], vars)? {
            return Ok(None);
        }
    }
    Ok(Some(formula))
}
