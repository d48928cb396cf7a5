// What a session answers, as numbers.
use cnf_core::Clause;
use refutation_check::{Log, Part, Step};
use rel_formula::Scenario;
use session_rules::{EndProof, Refusal, Reply, WorkDone};
use std::alloc::{AllocError, Global};

fn push_numbers(out: &mut Vec<u32>, numbers: &[u32]) -> Result<(), AllocError> {
    out.extend_from_slice(numbers)
}

// The numbers of each cell, and 90 after each scenario.
pub fn push_scenarios(out: &mut Vec<u32>, scenarios: &[Scenario]) -> Result<(), AllocError> {
    for scenario in scenarios {
        push_numbers(out, scenario.numbers())?;
        push_numbers(out, &[90])?;
    }
    Ok(())
}

fn push_clause(out: &mut Vec<u32>, clause: &Clause) -> Result<(), AllocError> {
    for lit in clause.lits() {
        out.push(lit.var)?;
    }
    Ok(())
}

// The variables and the hints of a step, and 91 after them.
fn push_step(out: &mut Vec<u32>, step: &Step) -> Result<(), AllocError> {
    push_clause(out, &step.clause)?;
    push_numbers(out, step.hints.numbers())?;
    push_numbers(out, &[91])
}

fn push_log(out: &mut Vec<u32>, log: &Log) -> Result<(), AllocError> {
    for step in log.steps() {
        push_step(out, step)?;
    }
    Ok(())
}

fn push_proof(out: &mut Vec<u32>, proof: &EndProof) -> Result<(), AllocError> {
    push_numbers(out, &[proof.imported()])?;
    push_scenarios(out, proof.blocked())?;
    push_log(out, proof.pool())?;
    push_log(out, proof.log())
}

fn push_part(out: &mut Vec<u32>, part: &Part) -> Result<(), AllocError> {
    for place in 0..part.local_len() {
        push_clause(out, part.local(place))?;
    }
    push_log(out, part.log())
}

fn push_work(out: &mut Vec<u32>, work: &WorkDone) -> Result<(), AllocError> {
    push_numbers(out, &[work.budget])?;
    for part in work.parts.parts() {
        push_part(out, part)?;
    }
    push_scenarios(out, work.copies.scenarios())
}

// The place of the refusal in its list.
fn place_of_refusal(refusal: &Refusal) -> u32 {
    match refusal {
        Refusal::NoScenario => 1,
        Refusal::UnknownTuple => 2,
        Refusal::Present => 3,
        Refusal::NoInstance(_) => 4,
        Refusal::Bottom => 5,
        Refusal::Deep => 6,
        Refusal::Spent(_) => 7,
        Refusal::NoEnd => 8,
    }
}

// What the refusal holds.
fn push_refusal(out: &mut Vec<u32>, refusal: &Refusal) -> Result<(), AllocError> {
    push_numbers(out, &[place_of_refusal(refusal)])?;
    match refusal {
        Refusal::NoInstance(proof) => push_proof(out, proof),
        Refusal::Spent(work) => push_work(out, work),
        _ => Ok(()),
    }
}

// The place of the reply in its list.
fn place_of_reply(reply: &Reply) -> u32 {
    match reply {
        Reply::Shown { .. } => 1,
        Reply::End { .. } => 2,
        Reply::Offers { .. } => 3,
        Reply::Augmented { .. } => 4,
        Reply::Back => 5,
        Reply::BudgetSet(_) => 6,
        Reply::All { .. } => 7,
        Reply::Partly { .. } => 8,
        Reply::Proof { .. } => 9,
        Reply::Refused(_) => 10,
        Reply::Memory => 11,
    }
}

// The number that the reply has.
fn push_own_number(out: &mut Vec<u32>, reply: &Reply) -> Result<(), AllocError> {
    match reply {
        Reply::Shown { number, .. } | Reply::End { number, .. } => push_numbers(out, &[*number]),
        Reply::BudgetSet(budget) => push_numbers(out, &[*budget]),
        Reply::Partly { first, .. } => push_numbers(out, &[*first]),
        _ => Ok(()),
    }
}

// What the reply holds beside a number.
fn push_parts(out: &mut Vec<u32>, reply: &Reply) -> Result<(), AllocError> {
    match reply {
        Reply::Shown { scenario, .. } => push_numbers(out, scenario.numbers()),
        Reply::Offers { cells } => push_numbers(out, cells.numbers()),
        Reply::Augmented { floor } => push_numbers(out, floor.numbers()),
        Reply::All { scenarios } => push_scenarios(out, scenarios.scenarios()),
        Reply::Partly { scenarios, .. } => push_scenarios(out, scenarios.scenarios()),
        Reply::End { proof, .. } => push_proof(out, proof),
        Reply::Proof { proof } => push_proof(out, proof),
        Reply::Refused(refusal) => push_refusal(out, refusal),
        Reply::Back | Reply::BudgetSet(_) | Reply::Memory => Ok(()),
    }
}

/// The place of the reply in its list, and what it holds.
pub fn push_reply(out: &mut Vec<u32>, reply: &Reply) -> Result<(), AllocError> {
    push_numbers(out, &[place_of_reply(reply)])?;
    push_own_number(out, reply)?;
    push_parts(out, reply)
}

/// The place of the reply in its list, and what it holds.
pub fn numbers_of(alloc: Global, reply: &Reply) -> Result<Vec<u32>, AllocError> {
    let mut out = Vec::new(alloc);
    push_reply(&mut out, reply)?;
    Ok(out)
}
