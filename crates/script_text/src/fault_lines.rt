// The lines that refuse scripts.
ghost use Rattle.std.specs.Prelude.{◌≡◌, ◌≢◌, IfOk};
ghost use Rattle.script_format.specs.declared.fault.ScriptFault.TheVariants.{Memory as NoMemory};
ghost use Rattle.script_text.specs.Faults.{script_line, line_words, fault_words};

use crate::numbers::push_number;
use script_format::ScriptFault;
use std::alloc::{AllocError, Global};

/// The line that refuses a script, with the words that say why.
pub fn script_line(alloc: Global, words: &[u8]) -> Result<Vec<u8>, AllocError>
    ensures { IfOk result (λ text. text.items ≡ script_line words.now) }
{
    let mut text = Vec::from_slice(alloc, b"fault script ")?;
    text.extend_from_slice(words)?;
    text.extend_from_slice(b"\n")?;
    Ok(text)
}

/// The line that tells a fault of a script; want of memory is an error.
pub fn fault_line(alloc: Global, fault: ScriptFault) -> Result<Vec<u8>, AllocError>
    ensures { IfOk result (λ text. (text.items ≡ script_line (fault_words fault)) × (fault ≢ NoMemory)) }
{
    let words = fault_words(alloc, fault)?;
    Ok(script_line(alloc, &words)?)
}

fn fault_words(alloc: Global, fault: ScriptFault) -> Result<Vec<u8>, AllocError>
    ensures { IfOk result (λ words. (words.items ≡ fault_words fault) × (fault ≢ NoMemory)) }
{
    match fault {
        ScriptFault::TooLong => Ok(Vec::from_slice(alloc, b"too_long")?),
        ScriptFault::NotText => Ok(Vec::from_slice(alloc, b"not_text")?),
        ScriptFault::BadDirective { line } => Ok(line_words(alloc, line, b"bad_directive")?),
        ScriptFault::StrayText { line } => Ok(line_words(alloc, line, b"stray_text")?),
        ScriptFault::UnknownModel { line } => Ok(line_words(alloc, line, b"unknown_model")?),
        ScriptFault::UnknownSession { line } => Ok(line_words(alloc, line, b"unknown_session")?),
        ScriptFault::Twice { line } => Ok(line_words(alloc, line, b"twice")?),
        ScriptFault::BadNumber { line } => Ok(line_words(alloc, line, b"bad_number")?),
        ScriptFault::TooMany { line } => Ok(line_words(alloc, line, b"too_many")?),
        ScriptFault::Memory => Err(AllocError),
    }
}

// The line's number, and what is wrong with it.
fn line_words(alloc: Global, line: u32, kind: &[u8]) -> Result<Vec<u8>, AllocError>
    ensures { IfOk result (λ words. words.items ≡ line_words line kind.now) }
{
    let mut words = Vec::from_slice(alloc, b"line ")?;
    push_number(&mut words, u64::from(line))?;
    words.extend_from_slice(b" ")?;
    words.extend_from_slice(kind)?;
    Ok(words)
}
