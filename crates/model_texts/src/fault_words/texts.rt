// What is told of a fault of a text or of its tokens.
ghost use Rattle.std.specs.Prelude.{◌≡◌, ◌++◌, codes, IfOk};
ghost use Rattle.alloy_lex.specs.declared.token.LexFault.TheVariants as lex;
ghost use Rattle.alloy_parse.specs.declared.fault.ParseFault.TheVariants as parse;
ghost use Rattle.model_texts.specs.Words.Words as words;

use crate::fault_words::placed::placed;
use alloy_lex::{LexFault, Place};
use alloy_parse::ParseFault;
use std::alloc::{AllocError, Global};

/// What is told of a fault of a text; want of memory is an error.
pub fn lex_words(alloc: Global, fault: LexFault) -> Result<Vec<u8>, AllocError>
    ensures words { IfOk result (λ told. told.items ≡ words.lex_words fault) }
    ensures told { IfOk result (λ _. fault ≡ lex.Memory → ⊥) }
{
    match fault {
        LexFault::BadCharacter { place } => Ok(placed(alloc, place, b"bad_character")?),
        LexFault::OpenComment { place } => Ok(placed(alloc, place, b"open_comment")?),
        LexFault::NumberTooLarge { place } => Ok(placed(alloc, place, b"number_too_large")?),
        LexFault::Memory => Err(AllocError),
    }
}

/// What is told of a fault of tokens; want of memory is an error.
pub fn parse_words(alloc: Global, fault: &ParseFault) -> Result<Vec<u8>, AllocError>
    ensures words { IfOk result (λ told. told.items ≡ words.parse_words fault.now) }
    ensures told { IfOk result (λ _. fault.now ≡ parse.Memory → ⊥) }
{
    match fault {
        ParseFault::Unexpected { place } => Ok(placed(alloc, *place, b"unexpected")?),
        ParseFault::EndOfText { place } => Ok(placed(alloc, *place, b"end_of_text")?),
        ParseFault::Unsupported { place, word } => Ok(unsupported(alloc, *place, word.text())?),
        ParseFault::TooDeep { place } => Ok(placed(alloc, *place, b"too_deep")?),
        ParseFault::Memory => Err(AllocError),
    }
}

// A place, and the word that the language refuses there.
fn unsupported(alloc: Global, place: Place, word: &str) -> Result<Vec<u8>, AllocError>
    ensures { IfOk result (λ told. told.items ≡ words.placed place (codes "unsupported " ++ word.now)) }
{
    let mut told = placed(alloc, place, b"unsupported ")?;
    told.extend_from_slice(word.as_bytes())?;
    Ok(told)
}
