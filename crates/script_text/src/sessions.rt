// The text of a session whose replies may print proofs.
ghost use Rattle.std.specs.Prelude.{◌≡◌, ◌≤◌, ◌+◌, ◌++◌, ℕ, List, length, codes, decimal, All, IfOk};
ghost use Rattle.std.specs.List.{AllZip};
ghost use Rattle.rel_formula.specs.Instance.{AreCells};
ghost use Rattle.session_rules.specs.Proofs.{Proves};
ghost use Rattle.script_text.specs.Limits.{most_output};
ghost use Rattle.script_text.specs.Proofs.Printed as spec;
ghost use Rattle.script_text.specs.Printed.{printed, all_printed};
ghost use Rattle.script_text.specs.Replies.{NamesCellsOf, PrintsRightProof, PrintsCheckableProof, IsReplyText, IsSessionText};

use crate::answer_lines::push_answer;
use crate::limits::fits_output;
use crate::numbers::push_number_line;
use crate::proof_lines::text_of_proof;
use rel_formula::Scenario;
use session_rules::{EndProof, ProofKind, Reply, Transcript};
use std::alloc::{AllocError, Global};
use translation::Translation;

/// The text of a session: its name and the lines of its replies, each at its floor. Floors, and the cells that replies name,
/// are the problem's. Each proof that is asked for is one of the end of its floor over the translation; `check` accepts the
/// lines of each that is no longer than a proof text may be. The error comes only for want of memory, which is told too where
/// the text would be longer than an output may be.
pub fn session_text(
    alloc: Global,
    name: &str,
    translation: &Translation,
    transcript: &Transcript,
) -> Result<Vec<u8>, AllocError>
    requires floors { All (AreCells translation.now.problem) transcript.now.floors }
    requires cells { All (NamesCellsOf translation.now.problem) transcript.now.replies }
    requires proofs { AllZip (PrintsRightProof translation.now) transcript.now.floors transcript.now.replies }
    ensures text { IfOk result (λ text. IsSessionText translation.now.problem name.now (all_printed translation.now transcript.now.floors transcript.now.replies) text.items) }
    ensures checkable { IfOk result (λ _. AllZip (PrintsCheckableProof translation.now) transcript.now.floors transcript.now.replies) }
    ensures fits { IfOk result (λ text. length text.items ≤ most_output) }
{
    let floors = transcript.floors.scenarios();
    let replies = transcript.replies.replies();
    let text = text_at(alloc, name, translation, floors, replies)?;
    fits_output(text.len(), 0)?;
    Ok(text)
}

// The text of a session with these replies, each at the floor of its place.
fn text_at(
    alloc: Global,
    name: &str,
    translation: &Translation,
    floors: &[Scenario],
    replies: &[Reply],
) -> Result<Vec<u8>, AllocError>
    requires floors { All (AreCells translation.now.problem) floors.now }
    requires cells { All (NamesCellsOf translation.now.problem) replies.now }
    requires proofs { AllZip (PrintsRightProof translation.now) floors.now replies.now }
    ensures text { IfOk result (λ text. IsSessionText translation.now.problem name.now (all_printed translation.now floors.now replies.now) text.items) }
    ensures checkable { IfOk result (λ _. AllZip (PrintsCheckableProof translation.now) floors.now replies.now) }
{
    let mut out = Vec::new(alloc);
    push_name(&mut out, name)?;
    for (place, reply) in replies.iter().enumerate() {
        push_reply_at(alloc, &mut out, translation, &floors[place], reply)?;
        fits_output(out.len(), 0)?;
    }
    Ok(out)
}

// Adds the line with the session's name.
fn push_name(out: &mut Vec<u8>, name: &str) -> Result<(), AllocError>
    ensures { IfOk result (λ _. out.new.items ≡ out.old.items ++ (codes "== " ++ name.now ++ codes "\n")) }
{
    out.extend_from_slice(b"== ")?;
    out.extend_from_slice(name.as_bytes())?;
    out.extend_from_slice(b"\n")?;
    Ok(())
}

/// Adds the lines of a reply at its floor. Floor, and the cells that the reply names, are the problem's. A proof that is
/// asked for is one of the end of the floor over the translation; `check` accepts its lines where they are no longer than a
/// proof text may be. The error comes only for want of memory.
pub fn push_reply_at(
    alloc: Global,
    out: &mut Vec<u8>,
    translation: &Translation,
    floor: &Scenario,
    reply: &Reply,
) -> Result<(), AllocError>
    requires floor { AreCells translation.now.problem floor.now }
    requires cells { NamesCellsOf translation.now.problem reply.now }
    requires proof { PrintsRightProof translation.now floor.now reply.now }
    ensures lines { IfOk result (λ _. (text : List ℕ) × IsReplyText translation.now.problem (printed translation.now floor.now reply.now) text × (out.new.items ≡ out.old.items ++ text)) }
    ensures checkable { IfOk result (λ _. PrintsCheckableProof translation.now floor.now reply.now) }
{
    match reply {
        Reply::Proof { proof } => Ok(push_proof(alloc, out, translation, floor, proof)?),
        _ => Ok(push_answer(alloc, out, translation.problem(), reply)?),
    }
}

// Adds the lines of a proof of the end of a floor, and how many they are.
fn push_proof(
    alloc: Global,
    out: &mut Vec<u8>,
    translation: &Translation,
    floor: &Scenario,
    proof: &EndProof,
) -> Result<(), AllocError>
    requires floor { AreCells translation.now.problem floor.now }
    requires blocked { All (AreCells translation.now.problem) proof.now.blocked }
    requires proves { Proves translation.now floor.now ProofKind.End proof.now }
    ensures text { IfOk result (λ _. out.new.items ≡ out.old.items ++ (codes "proof "
        ++ decimal (length (spec.clauses_of_proof translation.now floor.now ProofKind.End proof.now) + length (spec.log_of_proof translation.now floor.now ProofKind.End proof.now))
        ++ codes "\n" ++ spec.text_of_proof translation.now floor.now ProofKind.End proof.now)) }
    ensures checkable { IfOk result (λ _. spec.IsCheckable translation.now floor.now ProofKind.End proof.now) }
{
    let lines = text_of_proof(alloc, translation, floor, ProofKind::End, proof)?;
    push_number_line(out, b"proof ", lines.lines)?;
    fits_output(out.len(), lines.text.len())?;
    out.extend_from_slice(&lines.text)?;
    Ok(())
}
