// The check of a log with room by the variables that occur.
ghost use Rattle.std.specs.Prelude.{◌≡◌, ◌<◌, ◌-◌, ◌++◌, ◌∷◌, All, Contains, IfOk, OnOk, length, map, slice_index_or};
ghost use Rattle.std.specs.List.{flat_map};
ghost use Rattle.cnf_core.specs.Literal.{IsClause, HasVarsUpTo};
ghost use Rattle.refutation_check.specs.Chain.{members_of};
ghost use Rattle.refutation_check.specs.Verdict.{Fits};
ghost use Rattle.refutation_check.specs.Renaming.{renamed_clause, renamed_step};
ghost use Rattle.refutation_check.specs.Numbering.{variables_of, IsNumbering, IsNumbered, name_in};

use crate::log::{Log, Step};
use crate::refutation::{Scratch, Verdict, verdict_in};
use cnf_core::{Clause, Cnf, Lit};
use std::alloc::{AllocError, Global};

/// The verdict on a log. It takes room by the literals of the formula and the log, and not by the greatest variable:
/// where most numbers of variables don't occur, those that do are numbered first.
pub fn verdict_on(alloc: Global, f: &Cnf, log: &Log) -> Result<Verdict, AllocError>
    requires { All (λ s. HasVarsUpTo f.now.vars s.clause) log.now }
    ensures { IfOk result (Fits f.now.clauses log.now) }
{
    if f.vars() as usize <= literals_in(f, log) {
        let mut scratch = Scratch::for_vars(alloc, f.vars())?;
        return Ok(verdict_in(f, log, &mut scratch));
    }
    numbered_verdict(alloc, f, log)
}

// How many literals the formula and the log have.
fn literals_in(f: &Cnf, log: &Log) -> usize {
    let mut count: usize = 0;
    let clauses = f.clauses();
    for clause in clauses {
        count = count.saturating_add(clause.lits().len());
    }
    let steps = log.steps();
    for step in steps {
        count = count.saturating_add(step.clause.lits().len());
    }
    count
}

// The verdict on the log whose variables are their numbers.
fn numbered_verdict(alloc: Global, f: &Cnf, log: &Log) -> Result<Verdict, AllocError>
    ensures { IfOk result (Fits f.now.clauses log.now) }
{
    let names = names_in(alloc, f, log)?;
    let formula = numbered_formula(alloc, &names, f)?;
    let numbered = numbered_log(alloc, &names, log)?;
    let mut scratch = Scratch::for_vars(alloc, formula.vars())?;
    Ok(verdict_in(&formula, &numbered, &mut scratch))
}

// 0, and behind it the variables that occur, each once, in rising order.
fn names_in(alloc: Global, f: &Cnf, log: &Log) -> Result<Vec<u32>, AllocError>
    ensures numbering { IfOk result (λ names. IsNumbering names.items) }
    ensures numbered { IfOk result (λ names. All (IsNumbered names.items) (members_of f.now.clauses log.now)) }
{
    let _ = f.clauses(); // for the proof
    let _ = log.steps(); // for the proof
    let mut names = variables_in(alloc, f, log)?;
    names.sort_unstable();
    names.dedup();
    Ok(names)
}

// 0, and behind it the variables of the literals, as they stand there.
fn variables_in(alloc: Global, f: &Cnf, log: &Log) -> Result<Vec<u32>, AllocError>
    ensures { IfOk result (λ found. found.items ≡ 0 ∷ (flat_map variables_of f.now.clauses ++ flat_map (λ s. variables_of s.clause) log.now)) }
{
    let mut found = Vec::new(alloc);
    found.push(0)?;
    add_clauses(&mut found, f.clauses())?;
    add_steps(&mut found, log.steps())?;
    Ok(found)
}

fn add_clauses(found: &mut Vec<u32>, clauses: &[Clause]) -> Result<(), AllocError>
    ensures { OnOk result (found.new.items ≡ found.old.items ++ flat_map variables_of clauses.now) }
{
    for clause in clauses {
        add_variables(found, clause.lits())?;
    }
    Ok(())
}

fn add_steps(found: &mut Vec<u32>, steps: &[Step]) -> Result<(), AllocError>
    ensures { OnOk result (found.new.items ≡ found.old.items ++ flat_map (λ s. variables_of s.clause) steps.now) }
{
    for step in steps {
        add_variables(found, step.clause.lits())?;
    }
    Ok(())
}

fn add_variables(found: &mut Vec<u32>, lits: &[Lit]) -> Result<(), AllocError>
    ensures { OnOk result (found.new.items ≡ found.old.items ++ variables_of lits.now) }
{
    for lit in lits {
        found.push(lit.var)?;
    }
    Ok(())
}

// The formula whose variables are their numbers.
fn numbered_formula(alloc: Global, names: &[u32], f: &Cnf) -> Result<Cnf, AllocError>
    requires numbering { IsNumbering names.now }
    requires numbered { All (IsNumbered names.now) f.now.clauses }
    ensures named { IfOk result (λ g. map (renamed_clause (name_in names.now)) g.clauses ≡ f.now.clauses) }
    ensures vars { IfOk result (λ g. g.vars ≡ length names.now - 1) }
{
    let clauses = f.clauses();
    let mut formula = Cnf::new(alloc, names.len() as u32 - 1);
    for clause in clauses {
        formula.push(numbered(alloc, names, clause.lits())?)?;
    }
    Ok(formula)
}

// The log whose variables are their numbers.
fn numbered_log(alloc: Global, names: &[u32], log: &Log) -> Result<Log, AllocError>
    requires numbering { IsNumbering names.now }
    requires numbered { All (λ s. IsNumbered names.now s.clause) log.now }
    ensures named { IfOk result (λ made. map (renamed_step (name_in names.now)) made ≡ log.now) }
    ensures vars { IfOk result (λ made. All (λ s. HasVarsUpTo (length names.now - 1) s.clause) made) }
{
    let steps = log.steps();
    let mut made = Log::new(alloc);
    for step in steps {
        let clause = numbered(alloc, names, step.clause.lits())?;
        let hints = step.hints.copy(alloc)?;
        made.push(Step { clause, hints })?;
    }
    Ok(made)
}

// The clause whose variables are their numbers.
fn numbered(alloc: Global, names: &[u32], lits: &[Lit]) -> Result<Clause, AllocError>
    requires numbering { IsNumbering names.now }
    requires clause { IsClause lits.now }
    requires numbered { IsNumbered names.now lits.now }
    ensures named { IfOk result (λ made. renamed_clause (name_in names.now) made ≡ lits.now) }
    ensures vars { IfOk result (HasVarsUpTo (length names.now - 1)) }
{
    let mut made = Vec::with_capacity(alloc, lits.len())?;
    for lit in lits {
        made.push(Lit {
            var: number_of(names, lit.var),
            positive: lit.positive,
        })?;
    }
    Ok(Clause::in_order(made))
}

// The number of a variable that occurs.
fn number_of(names: &[u32], var: u32) -> u32
    requires numbering { IsNumbering names.now }
    requires numbered { Contains names.now var }
    ensures in_range { result < length names.now }
    ensures named { slice_index_or names.now result 0 ≡ var }
{
    match names.binary_search(&var) {
        Ok(number) => number as u32,
        Err(number) => number as u32,
    }
}
