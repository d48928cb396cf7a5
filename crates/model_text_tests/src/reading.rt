// What a text is, in words.
use model_texts::typed_texts::{ModelText, read_model};
use std::alloc::{AllocError, Global};
use std::process::Abort;
use std::test::Fail;

/// What the text of a model is: `model`, or what is told of its fault; `too long` where it isn't read.
pub fn told(alloc: Global, text: &str) -> Result<String, AllocError> {
    if text.len() > 1_048_576 {
        return Ok(String::from_str(alloc, "too long")?);
    }
    match read_model(alloc, text)? {
        ModelText::Typed(_) => Ok(String::from_str(alloc, "model")?),
        ModelText::Faulty(words) => Ok(String::from_utf8_lossy(alloc, &words)?),
    }
}

/// What each text of the rows is.
pub fn tells(rt: &impl Abort, alloc: Global, rows: &[(&str, &str)]) -> Result<(), Fail> {
    for (text, want) in rows {
        let found = told(alloc, text)?;
        assert_eq!(*rt; found.as_str(), *want, "{text}");
    }
    Ok(())
}
