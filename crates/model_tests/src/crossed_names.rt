// Texts of one paragraph of signatures.
use std::alloc::{AllocError, Global};

// A text, and a word so many times.
fn repeated(alloc: Global, first: &str, word: &str, times: usize) -> Result<String, AllocError> {
    let mut text = String::from_str(alloc, first)?;
    push_times(&mut text, word, times)?;
    Ok(text)
}

fn push_times(text: &mut String, word: &str, times: usize) -> Result<(), AllocError> {
    for _ in 0..times {
        text.push_str(word)?;
    }
    Ok(())
}

/// `sig A, A, .. { f..: A }`, with so many signatures behind the first one, and behind `f` so many times the word.
pub fn crossed(alloc: Global, more: usize, word: &str, times: usize) -> Result<String, AllocError> {
    let mut text = repeated(alloc, "sig A", ", A", more)?;
    text.push_str(" { f")?;
    push_times(&mut text, word, times)?;
    text.push_str(": A }")?;
    Ok(text)
}
