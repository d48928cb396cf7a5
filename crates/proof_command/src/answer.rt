// What is answered to the bytes of a proof text.
ghost use Rattle.std.specs.Prelude.{◌≡◌, ◌≢◌, ◌⊎◌, ◌++◌, codes, decimal, IfOk};
ghost use Rattle.proof_command.specs.Answer.{verdict_status, verdict_line, refused_line, fault_line, line_fault, IsAnswerTo};

use itoa::Buffer;
use outside_io::Status;
use refutation_check::{ProofFault, Verdict, read_proof, verdict_on};
use std::alloc::{AllocError, Global};

/// A status, and the text that is written under it.
#[derive(Drop)]
pub struct Answer {
    pub status: Status,
    pub text: Vec<u8>,
}

/// The answer to the bytes of a proof text.
pub fn answer_to(alloc: Global, bytes: &[u8]) -> Result<Answer, AllocError>
    ensures answer { IfOk result (λ a. IsAnswerTo bytes.now a.status a.text.items) }
    ensures status { IfOk result (λ a. (a.status ≡ Status.Done) ⊎ (a.status ≡ Status.NotAccepted) ⊎ (a.status ≡ Status.InputRefused)) }
{
    match read_proof(alloc, bytes) {
        Ok((formula, log)) => {
            let verdict = verdict_on(alloc, &formula, &log)?;
            let text = verdict_line(alloc, verdict)?;
            Ok(Answer {
                status: status_of(verdict),
                text,
            })
        }
        Err(fault) => Ok(Answer {
            status: Status::InputRefused,
            text: fault_line(alloc, fault)?,
        }),
    }
}

fn status_of(verdict: Verdict) -> Status
    ensures { result ≡ verdict_status verdict }
{
    match verdict {
        Verdict::Accepted => Status::Done,
        Verdict::Refused { .. } | Verdict::NoEmptyClause => Status::NotAccepted,
    }
}

fn push_number(text: &mut Vec<u8>, number: u32) -> Result<(), AllocError>
    ensures { IfOk result (λ _. text.new.items ≡ text.old.items ++ decimal number) }
{
    let mut buffer = Buffer::new();
    text.extend_from_slice(buffer.format(number).as_bytes())?;
    Ok(())
}

// The verdict's line.
fn verdict_line(alloc: Global, verdict: Verdict) -> Result<Vec<u8>, AllocError>
    ensures { IfOk result (λ text. text.items ≡ verdict_line verdict) }
{
    match verdict {
        Verdict::Accepted => Ok(Vec::from_slice(alloc, b"accepted\n")?),
        Verdict::NoEmptyClause => Ok(Vec::from_slice(alloc, b"no empty clause\n")?),
        Verdict::Refused { step, hint } => Ok(refused_line(alloc, step, hint)?),
    }
}

fn refused_line(alloc: Global, step: u32, hint: u32) -> Result<Vec<u8>, AllocError>
    ensures { IfOk result (λ text. text.items ≡ refused_line step hint) }
{
    let mut text = Vec::from_slice(alloc, b"refused step ")?;
    push_number(&mut text, step)?;
    text.extend_from_slice(b" hint ")?;
    push_number(&mut text, hint)?;
    text.extend_from_slice(b"\n")?;
    Ok(text)
}

// The line that tells a fault.
fn fault_line(alloc: Global, fault: ProofFault) -> Result<Vec<u8>, AllocError>
    ensures { IfOk result (λ text. (text.items ≡ fault_line fault) × (fault ≢ ProofFault.Memory)) }
{
    match fault {
        ProofFault::TooLong => Ok(Vec::from_slice(alloc, b"fault proof too_long\n")?),
        ProofFault::BadLine { line } => Ok(line_fault(alloc, line, b" bad_line\n")?),
        ProofFault::NumberTooLarge { line } => {
            Ok(line_fault(alloc, line, b" number_too_large\n")?)
        }
        ProofFault::Tautology { line } => Ok(line_fault(alloc, line, b" tautology\n")?),
        ProofFault::Memory => Err(AllocError),
    }
}

fn line_fault(alloc: Global, line: u32, kind: &[u8]) -> Result<Vec<u8>, AllocError>
    ensures { IfOk result (λ text. text.items ≡ line_fault line kind.now) }
{
    let mut text = Vec::from_slice(alloc, b"fault proof line ")?;
    push_number(&mut text, line)?;
    text.extend_from_slice(kind)?;
    Ok(text)
}
