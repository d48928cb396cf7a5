// The check of logs over two variables.
ghost use Rattle.std.specs.Prelude.{◌≡◌, ◌<◌, ◌≤◌, All, IfOk, length};
ghost use Rattle.cnf_core.specs.Literal.{HasVarsUpTo};

use crate::clauses::clause;
use cnf_core::{Cnf, Lit};
use refutation_check::{Hints, LocalClauses, Log, Part, Scratch, Step, Verdict, check, lift};
use std::alloc::Global;
use std::fmt::Write;
use std::process::Abort;
use std::test::Fail;

fn step(alloc: Global, numbers: &[i8], hints: &[u8]) -> Result<Step, Fail>
    ensures clause { IfOk result (λ s. HasVarsUpTo 2 s.clause) }
    ensures hints { IfOk result (λ s. All (λ hint. hint < 256) s.hints) }
{
    let clause = clause(alloc, 2, numbers)?;
    let mut wide = Vec::new(alloc);
    for hint in hints {
        wide.push(*hint as u32)?;
    }
    let hints = Hints::of(wide);
    Ok(Step { clause, hints })
}

fn log(alloc: Global, steps: &[(&[i8], &[u8])]) -> Result<Log, Fail>
    requires { length steps.now < 100 }
    ensures clauses { IfOk result (All (λ s. HasVarsUpTo 2 s.clause)) }
    ensures hints { IfOk result (All (λ s. All (λ hint. hint < 256) s.hints)) }
    ensures few { IfOk result (λ log. length log < 100) }
{
    let mut log = Log::new(alloc);
    for (numbers, hints) in steps {
        log.push(step(alloc, numbers, hints)?)?;
    }
    Ok(log)
}

// Puts the clause of these literals at the end of a formula of two variables.
fn add(alloc: Global, formula: &mut Cnf, numbers: &[i8]) -> Result<(), Fail> {
    let clause = clause(alloc, 2, numbers)?;
    if formula.vars() != 2 || formula.len() > 9 {
        Err("another formula")?
    }
    formula.push(clause)?;
    Ok(())
}

// A formula of these clauses of two variables.
fn formula(alloc: Global, clauses: &[[i8; 2]]) -> Result<Cnf, Fail> {
    let mut formula = Cnf::new(alloc, 2);
    for numbers in clauses {
        add(alloc, &mut formula, numbers)?;
    }
    Ok(formula)
}

// What the check says of these steps over all four clauses of two variables, which no valuation satisfies.
fn verdict(alloc: Global, steps: &[(&[i8], &[u8])], scratch: &mut Scratch) -> Result<Verdict, Fail>
    requires steps { length steps.now < 100 }
    requires scratch { scratch.old ≡ 2 }
    ensures { scratch.new ≡ scratch.old }
{
    let log = log(alloc, steps)?;
    let square = formula(alloc, &[[1, 2], [1, -2], [-1, 2], [-1, -2]])?;
    if square.vars() != 2 {
        Err("other variables")?
    }
    Ok(check(&square, &log, scratch))
}

// That the check says this of these steps, one row after the other in the same room.
fn are_checked(
    rt: &impl Abort,
    alloc: Global,
    rows: &[(&[(&[i8], &[u8])], Verdict)],
) -> Result<(), Fail> {
    let mut scratch = Scratch::for_vars(alloc, 2)?;
    for (steps, expected) in rows {
        assert!(rt; steps.len() < 100);
        let found = verdict(alloc, steps, &mut scratch)?;
        assert_eq!(rt; found, *expected);
    }
    Ok(())
}

#[test]
fn a_log_is_accepted_or_refused_at_its_first_failure(rt: HostRuntime) -> Result<(), Fail> {
    are_checked(
        &rt,
        rt.alloc(),
        &[
            (&[(&[1], &[1, 2]), (&[], &[5, 3, 4])], Verdict::Accepted),
            // a clause with two literals that are open
            (
                &[(&[1], &[1, 2]), (&[], &[3, 4])],
                Verdict::Refused { step: 2, hint: 1 },
            ),
            // unfinished
            (&[(&[1], &[1, 2])], Verdict::NoEmptyClause),
            (&[], Verdict::NoEmptyClause),
            // no hints
            (
                &[(&[1], &[1, 2]), (&[], &[])],
                Verdict::Refused { step: 2, hint: 0 },
            ),
            // a later step
            (
                &[(&[2], &[1, 6]), (&[1], &[1, 2])],
                Verdict::Refused { step: 1, hint: 2 },
            ),
        ],
    )
}

fn push_literals(out: &mut String, lits: &[Lit]) -> Result<(), Fail> {
    for lit in lits {
        let sign = if lit.positive { "" } else { "-" };
        write!(out, "{sign}{} ", lit.var)?;
    }
    Ok(())
}

fn push_hints(out: &mut String, hints: &[u32]) -> Result<(), Fail> {
    for hint in hints {
        write!(out, "{hint} ")?;
    }
    Ok(())
}

// Each step's literals by their numbers, the word "by", and its hints.
fn told(alloc: Global, steps: &[Step]) -> Result<String, Fail> {
    let mut out = String::new(alloc);
    for step in steps {
        push_literals(&mut out, step.clause.lits())?;
        out.push_str("by ")?;
        push_hints(&mut out, step.hints.numbers())?;
    }
    Ok(out)
}

// The steps of a log whose hints above 4 are raised by 10.
fn lifted(alloc: Global) -> Result<String, Fail> {
    let derived = log(alloc, &[(&[1], &[1, 4]), (&[], &[5, 3, 4])])?;
    let raised = lift(alloc, &derived, 4, 10)?;
    told(alloc, raised.steps())
}

#[test]
fn lifting_raises_the_hints_above_the_base(rt: HostRuntime) -> Result<(), Fail> {
    let raised = lifted(rt.alloc())?;
    assert_eq!(rt; raised.as_str(), "1 by 1 4 by 15 3 4 ");
    Ok(())
}

// A part of one local clause and one step.
fn part(alloc: Global) -> Result<Part, Fail> {
    let log = log(alloc, &[(&[1], &[1, 2])])?;
    let clause = clause(alloc, 2, &[-2, 1])?;
    let mut local = Vec::new(alloc);
    local.push(clause)?;
    Ok(Part::of(local, log))
}

// The word "and" before each of the local clauses.
fn told_local(alloc: Global, part: &Part) -> Result<String, Fail> {
    let mut out = String::new(alloc);
    for place in 0..part.local_len() {
        out.push_str("and ")?;
        push_literals(&mut out, part.local(place).lits())?;
    }
    Ok(out)
}

// The hints of the first step, by way of copies of the log, of the step and of the hints.
fn copied_hints(alloc: Global, part: &Part) -> Result<Vec<u32>, Fail> {
    let copy = part.log().copy(alloc)?;
    match copy.steps().first() {
        Some(step) => Ok(step.copy(alloc)?.hints.copy(alloc)?.into_numbers()),
        None => Err("no step")?,
    }
}

// So many local clauses, of two literals each.
fn clauses_of(alloc: Global, count: i8) -> Result<LocalClauses, Fail> {
    let mut clauses = LocalClauses::of(alloc, Vec::new(alloc))?;
    for number in 0..count {
        clauses.push(clause(alloc, 127, &[-1 - number, 127])?)?;
    }
    Ok(clauses)
}

// The part of these clauses, which are at most 100, with no step.
fn part_of(alloc: Global, clauses: &mut LocalClauses) -> Result<Part, Fail>
    ensures { IfOk result (λ p. length p.local ≤ 100) }
{
    if clauses.as_slice().len() > 100 {
        Err("too many clauses")?
    }
    Ok(clauses.part(alloc, Log::new(alloc))?)
}

// The part of these clauses, and a copy of the part of them and of one more.
fn grown_parts(alloc: Global, clauses: &mut LocalClauses) -> Result<(Part, Part), Fail> {
    let before = part_of(alloc, clauses)?;
    clauses.push(clause(alloc, 127, &[-71, 127])?)?;
    let after = part_of(alloc, clauses)?.copy(alloc)?;
    Ok((before, after))
}

#[test]
fn parts_of_growing_clauses_keep_theirs(rt: HostRuntime) -> Result<(), Fail> {
    let mut clauses = clauses_of(rt.alloc(), 70)?;
    let (before, after) = grown_parts(rt.alloc(), &mut clauses)?;
    assert_eq!(rt; (before.local_len(), after.local_len()), (70, 71));
    assert_eq!(rt; clauses.into_clauses().len(), 71);
    Ok(())
}

#[test]
fn a_part_with_another_log_has_its_clauses(rt: HostRuntime) -> Result<(), Fail> {
    let mut clauses = clauses_of(rt.alloc(), 1)?;
    let bare = part_of(rt.alloc(), &mut clauses)?;
    let part = bare.with_log(log(rt.alloc(), &[(&[1], &[1, 2])])?);
    assert_eq!(rt; told_local(rt.alloc(), &part)?.as_str(), "and -1 127 ");
    assert_eq!(rt; told(rt.alloc(), part.log().steps())?.as_str(), "1 by 1 2 ");
    Ok(())
}

#[test]
fn copies_are_equal(rt: HostRuntime) -> Result<(), Fail> {
    let copy = part(rt.alloc())?.copy(rt.alloc())?;
    assert_eq!(rt; told_local(rt.alloc(), &copy)?.as_str(), "and 1 -2 ");
    assert_eq!(rt; told(rt.alloc(), copy.log().steps())?.as_str(), "1 by 1 2 ");
    let hints = copied_hints(rt.alloc(), &copy)?;
    assert_eq!(rt; hints.as_slice(), [1, 2].as_slice());
    Ok(())
}
