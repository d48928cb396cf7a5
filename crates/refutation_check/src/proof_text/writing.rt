// Writing proof texts.
ghost use Rattle.std.specs.Prelude.{◌≡◌, ◌≤◌, ◌++◌, All, IfOk, OnOk, codes, length};
ghost use Rattle.std.specs.List.{flat_map};
ghost use Rattle.refutation_check.specs.Chain.{members_of};
ghost use Rattle.refutation_check.specs.ProofText.{IsProofText, largest_in};
ghost use Rattle.refutation_check.specs.WrittenProof.{number_text, literal_text, clause_text, step_text, proof_text, HasHintsInRange};

use crate::log::{Log, Step};
use cnf_core::{Clause, Cnf, Lit};
use itoa::Buffer;
use std::alloc::{AllocError, Global};

fn push_number(out: &mut Vec<u8>, number: u32) -> Result<(), AllocError>
    ensures { OnOk result (out.new.items ≡ out.old.items ++ number_text number) }
{
    let mut buffer = Buffer::new();
    out.extend_from_slice(buffer.format(number).as_bytes())?;
    out.extend_from_slice(b" ")?;
    Ok(())
}

fn push_literal(out: &mut Vec<u8>, l: Lit) -> Result<(), AllocError>
    ensures { OnOk result (out.new.items ≡ out.old.items ++ literal_text l) }
{
    if l.positive {
        return push_number(out, l.var);
    }
    out.extend_from_slice(b"-")?;
    push_number(out, l.var)
}

fn push_literals(out: &mut Vec<u8>, lits: &[Lit]) -> Result<(), AllocError>
    ensures { OnOk result (out.new.items ≡ out.old.items ++ flat_map literal_text lits.now) }
{
    let mut rest = lits;
    'each: while let [l, tail @ ..] = rest {
        push_literal(out, *l)?;
        rest = tail;
    }
    Ok(())
}

fn push_hints(out: &mut Vec<u8>, hints: &[u32]) -> Result<(), AllocError>
    ensures { OnOk result (out.new.items ≡ out.old.items ++ flat_map number_text hints.now) }
{
    let mut rest = hints;
    'each: while let [hint, tail @ ..] = rest {
        push_number(out, *hint)?;
        rest = tail;
    }
    Ok(())
}

fn push_clause(out: &mut Vec<u8>, clause: &Clause) -> Result<(), AllocError>
    ensures { OnOk result (out.new.items ≡ out.old.items ++ clause_text clause.now) }
{
    out.extend_from_slice(b"c ")?;
    push_literals(out, clause.lits())?;
    out.extend_from_slice(b"0\n")?;
    Ok(())
}

fn push_step(out: &mut Vec<u8>, step: &Step) -> Result<(), AllocError>
    ensures { OnOk result (out.new.items ≡ out.old.items ++ step_text step.now) }
{
    out.extend_from_slice(b"s ")?;
    push_literals(out, step.clause.lits())?;
    out.extend_from_slice(b"0 ")?;
    push_hints(out, step.hints.numbers())?;
    out.extend_from_slice(b"0\n")?;
    Ok(())
}

fn push_clauses(out: &mut Vec<u8>, f: &Cnf) -> Result<(), AllocError>
    ensures { OnOk result (out.new.items ≡ out.old.items ++ flat_map clause_text f.now.clauses) }
{
    for number in 0..f.len() {
        push_clause(out, f.clause(number + 1))?;
    }
    Ok(())
}

fn push_steps(out: &mut Vec<u8>, steps: &[Step]) -> Result<(), AllocError>
    ensures { OnOk result (out.new.items ≡ out.old.items ++ flat_map step_text steps.now) }
{
    let mut rest = steps;
    'each: while let [step, tail @ ..] = rest {
        push_step(out, step)?;
        rest = tail;
    }
    Ok(())
}

/// Writes a formula and a log as a proof text: the literals in rising order of variables, one space between words, no
/// empty line. Each hint is from 1 to 2,147,483,647. Within the limit of bytes the text says the same clauses and steps;
/// its number of variables is the largest in them, or 0.
pub fn write_proof(alloc: Global, f: &Cnf, log: &Log) -> Result<Vec<u8>, AllocError>
    requires { HasHintsInRange log.now }
    ensures written { IfOk result (λ text. text.items ≡ proof_text f.now.clauses log.now) }
    ensures proof { IfOk result (λ text. length text.items ≤ 268435456
        → IsProofText text.items (record { vars = largest_in (members_of f.now.clauses log.now); clauses = f.now.clauses }) log.now) }
{
    let _ = f.vars(); // for the proof
    let steps = log.steps();
    let mut text = Vec::new(alloc);
    push_clauses(&mut text, f)?;
    push_steps(&mut text, steps)?;
    Ok(text)
}
