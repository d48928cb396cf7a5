// Reading proof texts, and checking what was read.
ghost use Rattle.std.specs.Prelude.{◌≤◌};

use itoa::Buffer;
use refutation_check::{Scratch, Verdict, check, read_proof};
use std::alloc::{AllocError, Global};

/// Reads the text of so many clauses and a tenth as many steps, and gives its number of bytes.
pub fn read(alloc: Global, clauses: u32) -> Result<Option<u32>, AllocError> {
    let text = text_of(alloc, few(clauses))?;
    match read_proof(alloc, &text) {
        Ok((formula, log)) => {
            if formula.len() == few(clauses) && log.steps().len() > 0 {
                return Ok(Some(bytes_of(&text)));
            }
            Ok(None)
        }
        Err(_) => Ok(None),
    }
}

/// Makes the text alone, and gives its number of bytes.
pub fn made(alloc: Global, clauses: u32) -> Result<Option<u32>, AllocError> {
    let text = text_of(alloc, few(clauses))?;
    Ok(Some(bytes_of(&text)))
}

/// Reads the same text, checks it, and gives its number of bytes where each step is a chain.
pub fn checked(alloc: Global, clauses: u32) -> Result<Option<u32>, AllocError> {
    let text = text_of(alloc, few(clauses))?;
    let Ok((formula, log)) = read_proof(alloc, &text) else {
        return Ok(None);
    };
    let mut scratch = Scratch::for_vars(alloc, formula.vars())?;
    match check(&formula, &log, &mut scratch) {
        Verdict::NoEmptyClause => Ok(Some(bytes_of(&text))),
        Verdict::Accepted | Verdict::Refused { .. } => Ok(None),
    }
}

// As many clauses, or five millions.
fn few(clauses: u32) -> u32
    ensures { result ≤ 5000000 }
{
    if clauses < 5_000_000 {
        clauses
    } else {
        5_000_000
    }
}

// Adds a number and a space.
fn push_number(text: &mut Vec<u8>, number: u32) -> Result<(), AllocError> {
    let mut buffer = Buffer::new();
    text.extend_from_slice(buffer.format(number).as_bytes())?;
    text.extend_from_slice(b" ")?;
    Ok(())
}

// The text: each variable implies the next one, and each of some the tenth behind it.
fn text_of(alloc: Global, clauses: u32) -> Result<Vec<u8>, AllocError>
    requires { clauses ≤ 5000000 }
{
    let mut text = Vec::new(alloc);
    for i in 0..clauses {
        text.extend_from_slice(b"c -")?;
        push_number(&mut text, i + 1)?;
        push_number(&mut text, i + 2)?;
        text.extend_from_slice(b"0\n")?;
    }
    for i in 0..clauses / 10 {
        push_step(&mut text, i * 10 + 1)?;
    }
    Ok(text)
}

// The step that a variable implies the tenth behind it.
fn push_step(text: &mut Vec<u8>, first: u32) -> Result<(), AllocError> {
    text.extend_from_slice(b"s -")?;
    push_number(text, first)?;
    push_number(text, first.wrapping_add(10))?;
    text.extend_from_slice(b"0 ")?;
    for k in 0..10 {
        push_number(text, first.wrapping_add(k))?;
    }
    text.extend_from_slice(b"0\n")?;
    Ok(())
}

// The number of a text's bytes.
fn bytes_of(text: &[u8]) -> u32 {
    u32::try_from(text.len()).unwrap_or(u32::MAX)
}
