// Lines of a script and their words.
ghost use Rattle.std.specs.Prelude.{◌≡◌, ◌==◌, ◌<◌, map, IfOk};
ghost use Rattle.std.specs.List.{slice_split};
ghost use Rattle.std.specs.Str.Lines.{lines};
ghost use Rattle.script_format.specs.Words.{words_in, is_directive, is_idle};

use std::alloc::{AllocError, Global};

/// The lines of a text.
pub fn lines_of<'a>(alloc: Global, text: &'a str) -> Result<Vec<&'a str>, AllocError>
    ensures { IfOk result (λ found. map (λ line. line.now) found.items ≡ lines text.now) }
{
    text.lines().collect(alloc)
}

/// The words of a line, which are separated by spaces.
pub fn words_of<'a>(alloc: Global, line: &'a str) -> Result<Vec<&'a str>, AllocError>
    ensures { IfOk result (λ words. map (λ word. word.now) words.items ≡ words_in line.now) }
{
    line.split(' ')
        .filter(|word| !word.is_empty())
        .collect(alloc)
}

/// The parts of a text between the marks, which are an ASCII character.
pub fn parts_of<'a>(alloc: Global, text: &'a str, mark: char) -> Result<Vec<&'a str>, AllocError>
    requires { mark < 128 }
    ensures { IfOk result (λ parts. map (λ part. part.now) parts.items ≡ slice_split (λ b. b == mark) text.now) }
{
    text.split(mark).collect(alloc)
}

/// Whether a line is a directive: it begins with `==`.
pub fn is_directive(line: &str) -> bool
    ensures { result ≡ is_directive line.now }
{
    let bytes = line.as_bytes();
    bytes.len() >= 2 && bytes[0] == b'=' && bytes[1] == b'='
}

/// Whether a line outside models has no effect: it begins with `#`, or has no words.
pub fn is_idle(alloc: Global, line: &str) -> Result<bool, AllocError>
    ensures { IfOk result (λ idle. idle ≡ is_idle line.now) }
{
    let words = words_of(alloc, line)?;
    let bytes = line.as_bytes();
    Ok(words.is_empty() || (!bytes.is_empty() && bytes[0] == b'#'))
}
