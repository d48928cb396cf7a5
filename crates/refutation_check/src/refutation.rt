// The check of a log against a formula.
ghost use Rattle.std.specs.Prelude.{◌≡◌, ◌<◌, ◌≤◌, ◌^◌, ◌↔◌, [], All, length, MatchOption, IfOk, ℕ, Bool, List};
ghost use Rattle.cnf_core.specs.declared.literal.Lit.{Lit};
ghost use Rattle.cnf_core.specs.Literal.{HasVarsUpTo};
ghost use Rattle.cnf_core.specs.Valuation.{Satisfies};
ghost use Rattle.refutation_check.specs.declared.log.Step.{Step};
ghost use Rattle.refutation_check.specs.Chain.{members_of, Names, IsChain, IsAccepted, IsRefutation, EndsEmpty, EachEntailed};
ghost use Rattle.refutation_check.specs.Marks.{HintIs};
ghost use Rattle.refutation_check.specs.Verdict.{FailsAt, FailsFirst, Fits};

use crate::assumptions::Assumptions;
use crate::log::{Log, Step};
use crate::marks::Sight;
use cnf_core::{Clause, Cnf, Lit};
use std::alloc::{AllocError, Global};
use std::marker::Model;

/// What a check of a log says: steps and hints are numbered from 1, and a step without hints is refused
/// at hint 0.
#[derive(Clone, Copy, Debug, PartialEq, Eq)]
pub enum Verdict {
    Accepted,
    Refused { step: u32, hint: u32 },
    NoEmptyClause,
}

/// Room for the check of logs over some number of variables. Contracts see that number.
#[derive(Debug, Drop)]
pub struct Scratch {
    assumed: Assumptions,
}

impl Model for Scratch {
    ghost use Rattle.std.specs.Prelude.{◌≡◌, [], ℕ};

    ghost Value = { ℕ };

    ghost view = { λ s. s.assumed.vars };

    ghost invariant = { λ s. s.assumed.falses ≡ [] };
}

impl Scratch {
    /// Room for this many variables, at most 2,147,483,647.
    pub fn for_vars(alloc: Global, vars: u32) -> Result<Scratch, AllocError>
        requires { vars < 2 ^ 31 }
        ensures { IfOk result (λ s. s ≡ vars) }
    {
        let assumed = Assumptions::none(alloc, vars)?;
        Ok(Scratch { assumed })
    }
}

/// Whether the log refutes the formula, and else the first place where it fails. The scratch was made for
/// their variables; it can be used again. No memory is taken.
pub fn check(f: &Cnf, log: &Log, scratch: &mut Scratch) -> Verdict
    requires formula { f.now.vars ≤ scratch.old }
    requires log { All (λ s. HasVarsUpTo scratch.old s.clause) log.now }
    ensures accepted { (result ≡ Verdict.Accepted) ↔ IsRefutation f.now.clauses log.now }
    ensures refused { (step : ℕ) (hint : ℕ) → (result ≡ Verdict.Refused step hint) ↔ FailsFirst f.now.clauses log.now step hint }
    ensures no_empty_clause { (result ≡ Verdict.NoEmptyClause) ↔ (IsAccepted f.now.clauses log.now × (¬ EndsEmpty log.now)) }
    ensures scratch { scratch.new ≡ scratch.old }
{
    verdict_in(f, log, scratch)
}

/// The verdict on the log, as `check` gives it.
pub fn verdict_in(f: &Cnf, log: &Log, scratch: &mut Scratch) -> Verdict
    requires formula { f.now.vars ≤ scratch.old }
    requires log { All (λ s. HasVarsUpTo scratch.old s.clause) log.now }
    ensures fits { Fits f.now.clauses log.now result }
    ensures scratch { scratch.new ≡ scratch.old }
{
    verdict_of(f, log, &mut scratch.assumed)
}

/// The formula entails the clause of each step of an accepted log, so no valuation satisfies a formula that
/// has a refutation.
pub fn accepted_is_entailed()
    ensures entailed { (clauses : List (List Lit)) (steps : List Step) → IsAccepted clauses steps → EachEntailed clauses steps }
    ensures refuted { (clauses : List (List Lit)) (steps : List Step) → IsRefutation clauses steps → (v : ℕ → Bool) → ¬ Satisfies v clauses }
{}

fn verdict_of(f: &Cnf, log: &Log, assumed: &mut Assumptions) -> Verdict
    requires none { assumed.old.falses ≡ [] }
    requires formula { f.now.vars ≤ assumed.old.vars }
    requires log { All (λ s. HasVarsUpTo assumed.old.vars s.clause) log.now }
    ensures fits { Fits f.now.clauses log.now result }
    ensures assumed { assumed.new ≡ assumed.old }
{
    let _ = f.vars(); // for the proof
    let steps = log.steps();
    for (i, step) in steps.iter().enumerate() {
        if let Some(hint) = first_failure(f, &steps[..i], step, assumed) {
            return Verdict::Refused {
                step: i as u32 + 1,
                hint,
            };
        }
    }
    match steps.last() {
        Some(step) if step.clause.lits().is_empty() => Verdict::Accepted,
        _ => Verdict::NoEmptyClause,
    }
}

// The hint at which a step fails first, if it is no chain.
fn first_failure(f: &Cnf, earlier: &[Step], step: &Step, assumed: &mut Assumptions) -> Option<u32>
    requires none { assumed.old.falses ≡ [] }
    requires members { All (HasVarsUpTo assumed.old.vars) (members_of f.now.clauses earlier.now) }
    requires step { HasVarsUpTo assumed.old.vars step.now.clause }
    ensures failure { MatchOption result (IsChain (members_of f.now.clauses earlier.now) step.now.clause step.now.hints) (FailsAt (members_of f.now.clauses earlier.now) step.now.clause step.now.hints) }
    ensures assumed { assumed.new ≡ assumed.old }
{
    assumed.assume_all(step.clause.lits());
    let failure = failing_hint(f, earlier, step.hints.numbers(), assumed);
    assumed.clear();
    failure
}

// The hint at which a step fails first whose literals are false, if it is no chain.
fn failing_hint(f: &Cnf, earlier: &[Step], hints: &[u32], assumed: &mut Assumptions) -> Option<u32>
    requires members { All (HasVarsUpTo assumed.old.vars) (members_of f.now.clauses earlier.now) }
    requires few { length assumed.old.falses ≤ 2 ^ 31 }
    ensures failure { MatchOption result (IsChain (members_of f.now.clauses earlier.now) assumed.old.falses hints.now) (FailsAt (members_of f.now.clauses earlier.now) assumed.old.falses hints.now) }
    ensures vars { assumed.new.vars ≡ assumed.old.vars }
{
    for (i, hint) in hints.iter().enumerate() {
        let is_last = i + 1 == hints.len();
        match sight_of(f, earlier, *hint, assumed) {
            Sight::Falsified if is_last => return None,
            Sight::Unit(l) if !is_last => assumed.assume(l.negation()),
            _ => return Some(i as u32 + 1),
        }
    }
    Some(0)
}

// What the clause is that a hint names; a hint that names none is no help.
fn sight_of(f: &Cnf, earlier: &[Step], hint: u32, assumed: &Assumptions) -> Sight
    requires { All (HasVarsUpTo assumed.now.vars) (members_of f.now.clauses earlier.now) }
    ensures sight { HintIs (members_of f.now.clauses earlier.now) assumed.now.falses hint result }
    ensures in_range { (l : Lit) → result ≡ Sight.Unit l → l.var ≤ assumed.now.vars }
{
    match member(f, earlier, hint) {
        None => Sight::Neither,
        Some(clause) => assumed.look(clause.lits()),
    }
}

fn member<'a>(f: &'a Cnf, earlier: &'a [Step], number: u32) -> Option<&'a Clause>
    ensures { MatchOption result ((c : List Lit) → ¬ Names (members_of f.now.clauses earlier.now) number c) (λ c. Names (members_of f.now.clauses earlier.now) number c.now) }
{
    if number == 0 {
        return None;
    }
    if number <= f.len() {
        return Some(f.clause(number));
    }
    let index = (number - 1 - f.len()) as usize;
    match earlier.get(index) {
        None => None,
        Some(step) => Some(&step.clause),
    }
}
