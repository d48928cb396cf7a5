// A place, and what is wrong there.
ghost use Rattle.std.specs.Prelude.{◌≡◌, ◌++◌, decimal, IfOk};
ghost use Rattle.model_texts.specs.Words.Words as words;

use alloy_lex::Place;
use itoa::Buffer;
use std::alloc::{AllocError, Global};

/// Adds a number in decimal.
pub fn push_number(out: &mut Vec<u8>, number: u32) -> Result<(), AllocError>
    ensures { IfOk result (λ _. out.new.items ≡ out.old.items ++ decimal number) }
{
    let mut buffer = Buffer::new();
    out.extend_from_slice(buffer.format(number).as_bytes())?;
    Ok(())
}

// Adds a place.
fn push_place(out: &mut Vec<u8>, place: Place) -> Result<(), AllocError>
    ensures { IfOk result (λ _. out.new.items ≡ out.old.items ++ words.place_text place) }
{
    push_number(out, place.line)?;
    out.extend_from_slice(b":")?;
    push_number(out, place.column)?;
    Ok(())
}

/// A place, and what is wrong there.
pub fn placed(alloc: Global, place: Place, kind: &[u8]) -> Result<Vec<u8>, AllocError>
    ensures { IfOk result (λ told. told.items ≡ words.placed place kind.now) }
{
    let mut told = Vec::new(alloc);
    push_place(&mut told, place)?;
    told.extend_from_slice(b" ")?;
    told.extend_from_slice(kind)?;
    Ok(told)
}
