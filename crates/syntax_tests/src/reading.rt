// Whether a text is a model's, or why not.
use alloy_lex::{Place, lex};
use alloy_parse::{ParseFault, parse};
use std::alloc::Global;
use std::process::Abort;
use std::test::Fail;

fn placed(alloc: Global, place: Place, kind: &str, word: &str) -> Result<String, Fail> {
    Ok(format!(in alloc; "{}:{} {kind}{word}", place.line, place.column)?)
}

fn fault_line(alloc: Global, fault: &ParseFault) -> Result<String, Fail> {
    match fault {
        ParseFault::Unexpected { place } => placed(alloc, *place, "unexpected", ""),
        ParseFault::EndOfText { place } => placed(alloc, *place, "end_of_text", ""),
        ParseFault::Unsupported { place, word } => {
            placed(alloc, *place, "unsupported ", word.text())
        }
        ParseFault::TooDeep { place } => placed(alloc, *place, "too_deep", ""),
        ParseFault::Memory => Ok(String::from_str(alloc, "0:0 memory")?),
    }
}

/// What a text is: `model`, or its fault with the place.
pub fn told(alloc: Global, text: &str) -> Result<String, Fail> {
    if text.len() > 1_048_576 {
        return Ok(String::from_str(alloc, "too long")?);
    }
    let Ok(tokens) = lex(alloc, text) else {
        return Ok(String::from_str(alloc, "no tokens")?);
    };
    match parse(alloc, &tokens) {
        Ok(_) => Ok(String::from_str(alloc, "model")?),
        Err(fault) => fault_line(alloc, &fault),
    }
}

/// What each text of the rows is.
pub fn tells(rt: &impl Abort, alloc: Global, rows: &[(&str, &str)]) -> Result<(), Fail> {
    for (text, expected) in rows {
        let found = told(alloc, text)?;
        assert_eq!(*rt; found.as_str(), *expected, "{text}");
    }
    Ok(())
}
