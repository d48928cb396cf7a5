// Names of a script, and names of the language.
ghost use Rattle.std.specs.Prelude.{◌≡◌, map, IfOk};
ghost use Rattle.std.specs.List.{list_all};
ghost use Rattle.script_format.specs.Words.{is_letter, is_digit, is_name_byte, is_name};
ghost use Rattle.script_format.specs.Tuples.{is_language_byte, is_language_name, are_two_names, is_sort_name, is_relation_name};

use crate::words::parts_of;
use std::alloc::{AllocError, Global};

fn is_letter(byte: u8) -> bool
    ensures { result ≡ is_letter byte }
{
    (b'A' <= byte && byte <= b'Z') || (b'a' <= byte && byte <= b'z')
}

pub fn is_digit(byte: u8) -> bool
    ensures { result ≡ is_digit byte }
{
    b'0' <= byte && byte <= b'9'
}

fn is_name_byte(byte: u8) -> bool
    ensures { result ≡ is_name_byte byte }
{
    is_letter(byte) || is_digit(byte) || byte == b'_'
}

fn are_name_bytes(bytes: &[u8]) -> bool
    ensures { result ≡ list_all is_name_byte bytes.now }
{
    let mut rest = bytes;
    'each: while let [byte, tail @ ..] = rest {
        if !is_name_byte(*byte) {
            return false;
        }
        rest = tail;
    }
    true
}

/// Whether a word is the name of a model or a session: 1 to 32 ASCII letters, digits and `_`, beginning with a letter.
pub fn is_name(word: &str) -> bool
    ensures { result ≡ is_name word.now }
{
    match word.as_bytes() {
        [first, others @ ..] => is_letter(*first) && are_name_bytes(others) && others.len() < 32,
        [] => false,
    }
}

fn is_language_byte(byte: u8) -> bool
    ensures { result ≡ is_language_byte byte }
{
    is_name_byte(byte) || byte == b'\''
}

fn are_language_bytes(bytes: &[u8]) -> bool
    ensures { result ≡ list_all is_language_byte bytes.now }
{
    let mut rest = bytes;
    'each: while let [byte, tail @ ..] = rest {
        if !is_language_byte(*byte) {
            return false;
        }
        rest = tail;
    }
    true
}

// Whether a word has the form of a name of the language.
fn is_language_name(word: &str) -> bool
    ensures { result ≡ is_language_name word.now }
{
    match word.as_bytes() {
        [first, others @ ..] => is_letter(*first) && are_language_bytes(others),
        [] => false,
    }
}

// Whether the parts are two names.
fn are_two_names(parts: &[&str]) -> bool
    ensures { result ≡ are_two_names (map (λ part. part.now) parts.now) }
{
    match parts {
        [first, second] => is_language_name(first) && is_language_name(second),
        _ => false,
    }
}

/// Whether a word may name a top-level signature: a name, or a path of two names.
pub fn is_sort_name(alloc: Global, word: &str) -> Result<bool, AllocError>
    ensures { IfOk result (λ is. is ≡ is_sort_name word.now) }
{
    let path = parts_of(alloc, word, '/')?;
    Ok(is_language_name(word) || are_two_names(&path))
}

/// Whether a word may name a relation: a name, a path, or the names of a signature and its field with a dot.
pub fn is_relation_name(alloc: Global, word: &str) -> Result<bool, AllocError>
    ensures { IfOk result (λ is. is ≡ is_relation_name word.now) }
{
    let is_sort = is_sort_name(alloc, word)?;
    let field = parts_of(alloc, word, '.')?;
    Ok(is_sort || are_two_names(&field))
}
