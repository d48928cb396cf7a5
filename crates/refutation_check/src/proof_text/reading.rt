// Reading proof texts.
ghost use Rattle.std.specs.Prelude.{◌≡◌, ◌<◌, ◌≤◌, ◌+◌, ◌^◌, ◌∷◌, [], List, All, IfOk, IfErr, IfSome, IfNone, OnOk, MatchResult, length, max};
ghost use Rattle.std.specs.List.{prefix_len};
ghost use Rattle.std.specs.Str.Lines.{lines, strip_carriage_return};
ghost use Rattle.cnf_core.specs.Formula.{Formula};
ghost use Rattle.cnf_core.specs.Literal.{HasVarsUpTo};
ghost use Rattle.refutation_check.specs.declared.log.Step.{Step};
ghost use Rattle.refutation_check.specs.ProofText.{words_in, largest_of, IsProofText};
ghost use Rattle.refutation_check.specs.ProofFault.{HasFault};
ghost use Rattle.refutation_check.specs.Scanned.{is_in_line};
ghost use Rattle.refutation_check.specs.WrittenProof.{HasHintsInRange};
ghost use Rattle.refutation_check.specs.Progress.{progress_of, IsNumberFault, IsReadAs, AddsClause, AddsStep, IsClauseFault, AddsLine, IsLineFault, IsProgress};

use crate::log::{Hints, Log, Step};
use crate::proof_text::fault::ProofFault;
use crate::proof_text::line::{Form, are_small, form_of};
use cnf_core::{Clause, Cnf, Lit};
use std::alloc::Global;

/// At most so many bytes are a proof text.
pub const MOST_BYTES: usize = 268_435_456;

// What was read so far, and room for the literals and hints of a line.
#[derive(Debug, Drop)]
struct Reading {
    clauses: Vec<Clause>,
    log: Log,
    vars: u32,
    lits: Vec<Lit>,
    numbers: Vec<u32>,
}

// Without the one carriage return at the end, if there is one.
fn without_return(line: &[u8]) -> &[u8]
    ensures { result.now ≡ strip_carriage_return line.now }
{
    match line {
        [front @ .., b'\r'] => front,
        _ => line,
    }
}

// The number of bytes before the first line feed.
fn line_len(bytes: &[u8]) -> usize
    ensures value { result ≡ prefix_len is_in_line bytes.now }
    ensures within { result ≤ length bytes.now }
{
    let mut len = 0;
    let mut rest = bytes;
    'each: while let [b, tail @ ..] = rest {
        if *b == b'\n' {
            return len;
        }
        len += 1;
        rest = tail;
    }
    len
}

// The last line, which has no line feed, and nothing behind it.
fn last_line(bytes: &[u8]) -> Option<(&[u8], &[u8])>
    ensures none { IfNone result (bytes.now ≡ []) }
    ensures line { IfSome result (λ found. (found.0.now ≡ bytes.now) × (found.1.now ≡ []) × (0 < length bytes.now)) }
{
    if bytes.is_empty() {
        return None;
    }
    Some((bytes, &[]))
}

// The first line, and what stands behind it.
fn next_line(bytes: &[u8]) -> Option<(&[u8], &[u8])>
    ensures none { IfNone result (bytes.now ≡ []) }
    ensures line { IfSome result (λ found. lines bytes.now ≡ found.0.now ∷ lines found.1.now) }
    ensures shorter { IfSome result (λ found. length found.1.now < length bytes.now) }
{
    let len = line_len(bytes);
    if len == bytes.len() {
        return last_line(bytes);
    }
    Some((without_return(&bytes[..len]), &bytes[len + 1..]))
}

// The largest variable of the literals, or this number where it is larger.
fn largest(number: u32, lits: &[Lit]) -> u32
    ensures { result ≡ max number (largest_of lits.now) }
{
    let mut most = number;
    let mut rest = lits;
    'each: while let [l, tail @ ..] = rest {
        most = most.max(l.var);
        rest = tail;
    }
    most
}

// The clause of a line's literals, where no number is too large.
fn clause_of(alloc: Global, lits: &[Lit], numbers: &[u32], line: u32) -> Result<Clause, ProofFault>
    requires { All (λ l. 1 ≤ l.var) lits.now }
    ensures clause { IfOk result (IsReadAs lits.now numbers.now) }
    ensures fault { IfErr result (IsNumberFault lits.now numbers.now line) }
{
    if !are_small(lits, numbers) {
        return Err(ProofFault::NumberTooLarge { line });
    }
    match Clause::of(alloc, lits)? {
        Some(clause) => Ok(clause),
        None => Err(ProofFault::Tautology { line }),
    }
}

impl Reading {
    // Adds the clause of the literals.
    fn add_clause(&mut self, alloc: Global, line: u32) -> Result<(), ProofFault>
        requires { All (λ l. 1 ≤ l.var) self.old.lits.items }
        ensures clause { OnOk result (AddsClause self.old.lits.items (progress_of self.old) (progress_of self.new)) }
        ensures fault { IfErr result (IsClauseFault self.old.log self.old.lits.items line) }
    {
        if !self.log.steps().is_empty() {
            return Err(ProofFault::BadLine { line });
        }
        let clause = clause_of(alloc, &self.lits, &[], line)?;
        self.vars = largest(self.vars, clause.lits());
        self.clauses.push(clause)?;
        Ok(())
    }

    // Adds the step of the literals and the hints.
    fn add_step(&mut self, alloc: Global, line: u32) -> Result<(), ProofFault>
        requires lits { All (λ l. 1 ≤ l.var) self.old.lits.items }
        requires room { length self.old.log + 1 < 2 ^ 30 }
        ensures step { OnOk result (AddsStep self.old.lits.items self.old.numbers.items (progress_of self.old) (progress_of self.new)) }
        ensures fault { IfErr result (IsNumberFault self.old.lits.items self.old.numbers.items line) }
    {
        let clause = clause_of(alloc, &self.lits, &self.numbers, line)?;
        let hints = Hints::of(Vec::from_slice(alloc, &self.numbers)?);
        self.vars = largest(self.vars, clause.lits());
        self.log.push(Step { clause, hints })?;
        Ok(())
    }

    // Adds what a line says.
    fn add(&mut self, alloc: Global, text: &[u8], line: u32) -> Result<(), ProofFault>
        requires { length self.old.log + 1 < 2 ^ 30 }
        ensures line { OnOk result (AddsLine (words_in text.now) (progress_of self.old) (progress_of self.new)) }
        ensures fault { IfErr result (IsLineFault self.old.log (words_in text.now) line) }
    {
        self.lits.clear();
        self.numbers.clear();
        match form_of(text, &mut self.lits, &mut self.numbers)? {
            Form::Blank => Ok(()),
            Form::Clause => self.add_clause(alloc, line),
            Form::Step => self.add_step(alloc, line),
            Form::Other => Err(ProofFault::BadLine { line }),
        }
    }
}

fn read_lines(alloc: Global, bytes: &[u8]) -> Result<Reading, ProofFault>
    requires { length bytes.now ≤ 268435456 }
    ensures read { IfOk result (λ reading. IsProgress (lines bytes.now) (progress_of reading)) }
    ensures few { IfOk result (λ reading. length reading.clauses.items < 2 ^ 30) }
    ensures fault { IfErr result (HasFault bytes.now) }
{
    let mut reading = Reading {
        clauses: Vec::new(alloc),
        log: Log::new(alloc),
        vars: 0,
        lits: Vec::new(alloc),
        numbers: Vec::new(alloc),
    };
    let mut number = 0;
    let mut rest = bytes;
    'each: while let Some((line, behind)) = next_line(rest) {
        number += 1;
        reading.add(alloc, line, number)?;
        rest = behind;
    }
    Ok(reading)
}

fn read_whole(alloc: Global, bytes: &[u8]) -> Result<(Cnf, Log), ProofFault>
    ensures proof { IfOk result (λ read. IsProofText bytes.now read.0 read.1) }
    ensures fault { IfErr result (HasFault bytes.now) }
{
    if bytes.len() > MOST_BYTES {
        return Err(ProofFault::TooLong);
    }
    let reading = read_lines(alloc, bytes)?;
    let Reading {
        clauses,
        log,
        vars,
        ..
    } = reading;
    Ok((Cnf::of(vars, clauses), log))
}

/// Reads a proof text: the formula and the log that it says, or its first fault. The formula's number of variables is
/// the largest variable in the text, or 0.
pub fn read_proof(alloc: Global, bytes: &[u8]) -> Result<(Cnf, Log), ProofFault>
    ensures proof { IfOk result (λ read. IsProofText bytes.now read.0 read.1) }
    ensures fault { IfErr result (HasFault bytes.now) }

    // What the text says is read, unless memory runs out.
    ensures only { (f : Formula) (log : List Step) → IsProofText bytes.now f log
        → MatchResult result (λ read. (read.0 ≡ f) × (read.1 ≡ log)) (λ fault. fault ≡ ProofFault.Memory) }

    // It can be checked with room for the formula's variables, and written again.
    ensures vars { IfOk result (λ read. All (λ s. HasVarsUpTo read.0.vars s.clause) read.1) }
    ensures hints { IfOk result (λ read. HasHintsInRange read.1) }
{
    read_whole(alloc, bytes)
}
