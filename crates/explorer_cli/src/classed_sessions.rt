// The text of a session whose list at the bottom floor is told by classes of renamings.
ghost use Rattle.std.specs.Prelude.{◌≡◌, ◌≤◌, ◌++◌, ℕ, List, length, codes, All, IfOk};
ghost use Rattle.std.specs.List.{AllZip};
ghost use Rattle.rel_formula.specs.Instance.{AreCells};
ghost use Rattle.rel_formula.specs.Renaming.{IsSymmetric};
ghost use Rattle.script_text.specs.Limits.{most_output};
ghost use Rattle.script_text.specs.Printed.{printed, all_printed};
ghost use Rattle.script_text.specs.Replies.{NamesCellsOf, PrintsRightProof, PrintsCheckableProof};
ghost use Rattle.explorer_cli.specs.Classes.{IsListByClass, IsClassedReply, IsClassedSession};

use rel_formula::{Problem, Scenario};
use renaming_classes::classes;
use script_text::{fits_output, push_number_line, push_numbered, push_reply_at};
use session_rules::{Reply, Transcript};
use std::alloc::{AllocError, Global};
use translation::Translation;

/// The text of a session: its name and the lines of its replies, each at its floor, where a list that ends the bottom floor is told
/// by classes. Floors, and the cells that replies name, are the problem's. Each proof that is asked for is one of the end of its
/// floor over the translation; `check` accepts the lines of each that is no longer than a proof text may be. The error comes only
/// for want of memory, which is told too where the text would be longer than an output may be.
pub fn classed_text(
    alloc: Global,
    name: &str,
    translation: &Translation,
    transcript: &Transcript,
) -> Result<Vec<u8>, AllocError>
    requires floors { All (AreCells translation.now.problem) transcript.now.floors }
    requires cells { All (NamesCellsOf translation.now.problem) transcript.now.replies }
    requires proofs { AllZip (PrintsRightProof translation.now) transcript.now.floors transcript.now.replies }
    ensures text { IfOk result (λ text. IsClassedSession translation.now.problem name.now transcript.now.floors (all_printed translation.now transcript.now.floors transcript.now.replies) text.items) }
    ensures checkable { IfOk result (λ _. AllZip (PrintsCheckableProof translation.now) transcript.now.floors transcript.now.replies) }
    ensures fits { IfOk result (λ text. length text.items ≤ most_output) }
{
    let floors = transcript.floors.scenarios();
    let replies = transcript.replies.replies();
    let text = text_at(alloc, name, translation, floors, replies)?;
    fits_output(text.len(), 0)?;
    Ok(text)
}

// The text of a session with these replies, each at the floor of its place.
fn text_at(
    alloc: Global,
    name: &str,
    translation: &Translation,
    floors: &[Scenario],
    replies: &[Reply],
) -> Result<Vec<u8>, AllocError>
    requires floors { All (AreCells translation.now.problem) floors.now }
    requires cells { All (NamesCellsOf translation.now.problem) replies.now }
    requires proofs { AllZip (PrintsRightProof translation.now) floors.now replies.now }
    ensures text { IfOk result (λ text. IsClassedSession translation.now.problem name.now floors.now (all_printed translation.now floors.now replies.now) text.items) }
    ensures checkable { IfOk result (λ _. AllZip (PrintsCheckableProof translation.now) floors.now replies.now) }
{
    let mut out = Vec::new(alloc);
    push_name(&mut out, name)?;
    for (place, reply) in replies.iter().enumerate() {
        push_told(alloc, &mut out, translation, &floors[place], reply)?;
        fits_output(out.len(), 0)?;
    }
    Ok(out)
}

// Adds the line with the session's name.
fn push_name(out: &mut Vec<u8>, name: &str) -> Result<(), AllocError>
    ensures { IfOk result (λ _. out.new.items ≡ out.old.items ++ (codes "== " ++ name.now ++ codes "\n")) }
{
    out.extend_from_slice(b"== ")?;
    out.extend_from_slice(name.as_bytes())?;
    out.extend_from_slice(b"\n")?;
    Ok(())
}

// Adds the lines of a reply at its floor.
fn push_told(
    alloc: Global,
    out: &mut Vec<u8>,
    translation: &Translation,
    floor: &Scenario,
    reply: &Reply,
) -> Result<(), AllocError>
    requires floor { AreCells translation.now.problem floor.now }
    requires cells { NamesCellsOf translation.now.problem reply.now }
    requires proof { PrintsRightProof translation.now floor.now reply.now }
    ensures lines { IfOk result (λ _. (text : List ℕ) × IsClassedReply translation.now.problem floor.now (printed translation.now floor.now reply.now) text × (out.new.items ≡ out.old.items ++ text)) }
    ensures checkable { IfOk result (λ _. PrintsCheckableProof translation.now floor.now reply.now) }
{
    if !floor.is_empty() {
        return Ok(push_reply_at(alloc, out, translation, floor, reply)?);
    }
    match reply {
        Reply::All { scenarios } => {
            Ok(push_classes(alloc, out, translation.problem(), scenarios.scenarios())?)
        }
        _ => Ok(push_reply_at(alloc, out, translation, floor, reply)?),
    }
}

// Adds the lines of a list by classes, and how many these are.
fn push_classes(
    alloc: Global,
    out: &mut Vec<u8>,
    problem: &Problem,
    scenarios: &[Scenario],
) -> Result<(), AllocError>
    requires symmetric { IsSymmetric problem.now }
    requires cells { All (AreCells problem.now) scenarios.now }
    ensures { IfOk result (λ _. (text : List ℕ) × IsListByClass problem.now scenarios.now text × (out.new.items ≡ out.old.items ++ text)) }
{
    let members = classes(alloc, problem, scenarios)?;
    push_numbered(alloc, out, problem, b"class ", 1, &members)?;
    push_number_line(out, b"classes ", members.len() as u64)?;
    Ok(())
}
