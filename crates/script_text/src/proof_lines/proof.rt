// The formula, the log and the lines of a proof.
ghost use Rattle.std.specs.Prelude.{◌≡◌, ◌+◌, length, All, IfOk};
ghost use Rattle.refutation_check.specs.Chain.{IsRefutation};
ghost use Rattle.refutation_check.specs.WrittenProof.{HasHintsInRange};
ghost use Rattle.rel_formula.specs.Instance.{AreCells};
ghost use Rattle.session_rules.specs.Proofs.{Proves};
ghost use Rattle.script_text.specs.Proofs.Printed as spec;

use crate::proof_lines::formula::formula_with;
use crate::proof_lines::laws::refutations_are_accepted;
use crate::proof_lines::local::locals_for;
use crate::proof_lines::steps::steps_of;
use cnf_core::Cnf;
use refutation_check::{Log, write_proof};
use rel_formula::Scenario;
use session_rules::{EndProof, ProofKind};
use std::alloc::{AllocError, Global};
use translation::Translation;

/// The formula of a proof and its log, which refutes it.
///
/// The formula is the clauses of the translation; at an end those of the swaps that are free of the floor; for each cell of
/// the floor that it is there; and at an end for each blocked scenario that some cell of it is absent. The log is the
/// imported steps, with room made for these clauses, and then the proof's own. Where the proof is that no instance contains
/// a floor, the floor is this one. Floor and blocked scenarios are of the problem's cells. The error comes only for want of
/// memory.
pub fn proof_of(
    alloc: Global,
    translation: &Translation,
    floor: &Scenario,
    kind: ProofKind,
    proof: &EndProof,
) -> Result<(Cnf, Log), AllocError>
    requires floor { AreCells translation.now.problem floor.now }
    requires blocked { All (AreCells translation.now.problem) proof.now.blocked }
    requires proves { Proves translation.now floor.now kind proof.now }
    ensures formula { IfOk result (λ made. made.0 ≡ spec.formula_of_proof translation.now floor.now kind proof.now) }
    ensures log { IfOk result (λ made. made.1 ≡ spec.log_of_proof translation.now floor.now kind proof.now) }
    ensures refutation { IfOk result (λ made. IsRefutation made.0.clauses made.1) }
    ensures hints { IfOk result (λ made. HasHintsInRange made.1) }
{
    let _ = proof.imported(); // for the proof
    let problem = translation.problem();
    let _ = problem.relations(); // for the proof
    let local = locals_for(alloc, translation, floor, kind, proof.blocked())?;
    let _ = floor.numbers(); // for the proof
    let clauses = local.as_slice();
    let formula = formula_with(alloc, translation, clauses)?;
    let base = translation.cnf().len();
    let log = steps_of(alloc, proof, base, clauses.len() as u32)?;
    Ok((formula, log))
}

/// The lines of a proof, and how many they are.
#[derive(Drop)]
pub struct ProofText {
    pub lines: u64,
    pub text: Vec<u8>,
}

/// The lines of a proof. Where they are no longer than a proof text may be, 268,435,456 bytes, the command `check` accepts
/// them. Floor and blocked scenarios are of the problem's cells. The error comes only for want of memory.
pub fn text_of_proof(
    alloc: Global,
    translation: &Translation,
    floor: &Scenario,
    kind: ProofKind,
    proof: &EndProof,
) -> Result<ProofText, AllocError>
    requires floor { AreCells translation.now.problem floor.now }
    requires blocked { All (AreCells translation.now.problem) proof.now.blocked }
    requires proves { Proves translation.now floor.now kind proof.now }
    ensures text { IfOk result (λ made. made.text.items ≡ spec.text_of_proof translation.now floor.now kind proof.now) }
    ensures lines { IfOk result (λ made. made.lines ≡ length (spec.clauses_of_proof translation.now floor.now kind proof.now) + length (spec.log_of_proof translation.now floor.now kind proof.now)) }
    ensures checkable { IfOk result (λ _. spec.IsCheckable translation.now floor.now kind proof.now) }
{
    refutations_are_accepted();
    let (formula, log) = proof_of(alloc, translation, floor, kind, proof)?;
    let _ = formula.vars(); // for the proof
    let lines = u64::from(formula.len()) + log.steps().len() as u64;
    let text = write_proof(alloc, &formula, &log)?;
    Ok(ProofText { lines, text })
}
