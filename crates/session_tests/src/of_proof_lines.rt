// That the lines of a proof that a search made are accepted.
ghost use Rattle.std.specs.Prelude.{[], All, IfOk};
ghost use Rattle.rel_formula.specs.Instance.{AreCells};
ghost use Rattle.session_rules.specs.Proofs.{Proves};

use crate::large_sets::translated;
use refutation_check::{Log, Scratch, Verdict, check, read_proof};
use rel_formula::Scenario;
use script_text::proof_lines::laws::covered_scenarios_are_cells;
use script_text::proof_lines::text_of_proof;
use session_rules::{EndProof, ProofKind};
use session_state::search_rounds::{Found, KeptTrails, NextAt, StepCount, next_at};
use std::alloc::Global;
use std::test::Fail;
use translation::Translation;

// The proof that nothing is to be shown.
fn ended(alloc: Global, made: &Translation) -> Result<EndProof, Fail>
    ensures blocked { IfOk result (λ proof. All (AreCells made.now.problem) proof.blocked) }
    ensures proves { IfOk result (λ proof. Proves made.now [] ProofKind.End proof) }
{
    covered_scenarios_are_cells();
    let pool = Log::new(alloc);
    let floor = Scenario::new(alloc);
    let mut kept = KeptTrails::new(alloc);
    let mut count = StepCount::new();
    let next = next_at(
        alloc,
        made,
        &pool,
        &floor,
        &[],
        &[],
        1000,
        &mut kept,
        &mut count,
    )?;
    let NextAt {
        found,
        parts: _,
        copies: _,
    } = next;
    match found {
        Found::Ended { proof } => Ok(proof),
        _ => Err("no end")?,
    }
}

// The verdict on the lines of a proof, and whether these are as many as is said.
fn verdict_on(
    alloc: Global,
    made: &Translation,
    floor: &Scenario,
    proof: &EndProof,
) -> Result<(Verdict, bool), Fail>
    requires floor { AreCells made.now.problem floor.now }
    requires blocked { All (AreCells made.now.problem) proof.now.blocked }
    requires proves { Proves made.now floor.now ProofKind.End proof.now }
{
    let printed = text_of_proof(alloc, made, floor, ProofKind::End, proof)?;
    let lines = printed.text.iter().filter(|byte| **byte == b'\n').count();
    let verdict = checked(alloc, printed.text.as_slice())?;
    Ok((verdict, lines as u64 == printed.lines))
}

// The verdict on a proof text.
fn checked(alloc: Global, text: &[u8]) -> Result<Verdict, Fail> {
    match read_proof(alloc, text) {
        Ok((formula, log)) => {
            let mut scratch = Scratch::for_vars(alloc, formula.vars())?;
            Ok(check(&formula, &log, &mut scratch))
        }
        Err(_) => Err("no proof text")?,
    }
}

#[test]
fn lines_of_a_proof_are_accepted(rt: HostRuntime) -> Result<(), Fail> {
    let alloc = rt.alloc();
    let made = translated(alloc, &[0, 1])?;
    let proof = ended(alloc, &made)?;
    let floor = Scenario::new(alloc);
    let told = verdict_on(alloc, &made, &floor, &proof)?;
    assert_eq!(rt; told, (Verdict::Accepted, true));
    Ok(())
}
