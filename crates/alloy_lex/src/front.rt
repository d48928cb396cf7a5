// What stands at the front of a text.
ghost use Rattle.std.specs.Prelude.{◌≡◌, ℕ, ◌+◌, ◌<◌, ◌≤◌, length, take, drop, slice_index, nat_le, IsTrue, IfSome, Some, None, if◌then◌else◌};
ghost use Rattle.std.specs.List.{prefix_len};
ghost use Rattle.std.specs.Str.{IsAscii};
ghost use Rattle.alloy_lex.specs.Words.{is_word, symbol_len};
ghost use Rattle.alloy_lex.specs.Fronts.{is_space, is_letter, is_digit, is_name_byte, is_in_line, comment_len, number_from, comment_front, second_len, name_front, number_front, symbol_front, front_of};
ghost use Rattle.alloy_lex.specs.Taken.{IsTaken};

use crate::spelling::{is_word, symbol_of};
use crate::token::TokenKind;

/// What stands at the front of a text, with the number of its bytes: a space or a comment, a token, or a fault.
#[derive(Clone, Copy, Debug, PartialEq, Eq)]
pub enum Front {
    Blank(usize),
    Token(TokenKind, usize),
    BadCharacter,
    OpenComment,
    NumberTooLarge,
}

fn is_space(b: u8) -> bool
    ensures { result ≡ is_space b }
{
    b == b' ' || b == b'\t' || b == b'\r' || b == b'\n'
}

fn is_letter(b: u8) -> bool
    ensures { result ≡ is_letter b }
{
    (b'A' <= b && b <= b'Z') || (b'a' <= b && b <= b'z')
}

fn is_digit(b: u8) -> bool
    ensures { result ≡ is_digit b }
{
    b'0' <= b && b <= b'9'
}

fn is_name_byte(b: u8) -> bool
    ensures { result ≡ is_name_byte b }
{
    is_letter(b) || is_digit(b) || b == b'_' || b == b'\''
}

// The byte there, or 0 past the end.
fn byte_at(bytes: &[u8], i: usize) -> u8
    ensures value { result ≡ slice_index bytes.now i }
    ensures within { 0 < result → i < length bytes.now }
{
    if i < bytes.len() { bytes[i] } else { 0 }
}

fn line_len(bytes: &[u8]) -> usize
    ensures value { result ≡ prefix_len is_in_line bytes.now }
    ensures within { result ≤ length bytes.now }
{
    let mut n = 0;
    let mut rest = bytes;
    'each: while let [b, tail @ ..] = rest {
        if *b == b'\n' {
            return n;
        }
        n += 1;
        rest = tail;
    }
    n
}

fn name_len(bytes: &[u8]) -> usize
    ensures value { result ≡ prefix_len is_name_byte bytes.now }
    ensures within { result ≤ length bytes.now }
{
    let mut n = 0;
    let mut rest = bytes;
    'each: while let [b, tail @ ..] = rest {
        if !is_name_byte(*b) {
            return n;
        }
        n += 1;
        rest = tail;
    }
    n
}

fn digits_len(bytes: &[u8]) -> usize
    ensures value { result ≡ prefix_len is_digit bytes.now }
    ensures within { result ≤ length bytes.now }
{
    let mut n = 0;
    let mut rest = bytes;
    'each: while let [b, tail @ ..] = rest {
        if !is_digit(*b) {
            return n;
        }
        n += 1;
        rest = tail;
    }
    n
}

// Past the next `*/`.
#[tactic(auto, unfolding(crate::specs::Fronts::comment_len))]
fn comment_len(bytes: &[u8]) -> Option<usize>
    ensures value { result ≡ comment_len bytes.now }
    ensures within { IfSome result (λ n. n ≤ length bytes.now) }
{
    let mut n = 0;
    let mut rest = bytes;
    'each: while let [b, tail @ ..] = rest {
        if *b == b'*' && byte_at(tail, 0) == b'/' {
            return Some(n + 2);
        }
        n += 1;
        rest = tail;
    }
    None
}

// Behind `/*`.
fn comment(bytes: &[u8]) -> Front
    requires { 2 ≤ length bytes.now }
    ensures value { result ≡ comment_front (comment_len (drop 2 bytes.now)) }
    ensures taken { IsTaken result bytes.now }
{
    match comment_len(&bytes[2..]) {
        None => Front::OpenComment,
        Some(n) => Front::Blank(n + 2),
    }
}

// The number that the digits spell is at most a thousand.
#[tactic(auto, using(crate::proofs::Runs::too_large), unfolding(crate::specs::Fronts::number_from))]
fn is_small(digits: &[u8]) -> bool
    ensures { result ≡ nat_le (number_from 0 digits.now) 1000 }
{
    let mut value = 0_u32;
    let mut rest = digits;
    'each: while let [d, tail @ ..] = rest {
        value = value * 10 + u32::from(d.saturating_sub(b'0'));
        if value > 1000 {
            return false;
        }
        rest = tail;
    }
    true
}

// The text that ASCII bytes spell.
#[tactic(auto, using(crate::proofs::Runs::text_of_ascii))]
pub fn ascii_text(bytes: &[u8]) -> &str
    requires { IsAscii bytes.now }
    ensures { result.now ≡ bytes.now }
{
    unsafe { std::str::from_utf8_unchecked(bytes) }
}

#[tactic(auto, using(crate::proofs::Runs::name_is_ascii, crate::proofs::Runs::name_has_some, crate::proofs::Runs::path_is_ascii))]
fn name(bytes: &[u8]) -> Front
    requires { IsTrue (is_letter (slice_index bytes.now 0)) }
    ensures value { result ≡ name_front bytes.now (prefix_len is_name_byte bytes.now) }
    ensures taken { IsTaken result bytes.now }
{
    let n = name_len(bytes);
    let (run, rest) = bytes.split_at(n);
    if is_word(ascii_text(run)) {
        return Front::Token(TokenKind::Word, n);
    }
    let more = second_len(rest);
    if more == 0 {
        Front::Token(TokenKind::Name, n)
    } else {
        Front::Token(TokenKind::Path, n + more)
    }
}

// How many bytes a slash and a name take that stand there; 0 where they don't.
#[tactic(auto, using(crate::proofs::Runs::name_is_ascii), unfolding(crate::specs::Fronts::second_len))]
fn second_len(bytes: &[u8]) -> usize
    ensures value { result ≡ second_len bytes.now }
    ensures within { result ≤ length bytes.now }
{
    if byte_at(bytes, 0) != b'/' || !is_letter(byte_at(bytes, 1)) {
        return 0;
    }
    let rest = &bytes[1..];
    let n = name_len(rest);
    if is_word(ascii_text(&rest[..n])) {
        0
    } else {
        n + 1
    }
}

#[tactic(auto, using(crate::proofs::Runs::number_is_ascii, crate::proofs::Runs::number_has_some))]
fn number(bytes: &[u8]) -> Front
    requires { IsTrue (is_digit (slice_index bytes.now 0)) }
    ensures value { result ≡ number_front bytes.now (prefix_len is_digit bytes.now) }
    ensures taken { IsTaken result bytes.now }
{
    let n = digits_len(bytes);
    if is_small(&bytes[..n]) {
        Front::Token(TokenKind::Number, n)
    } else {
        Front::NumberTooLarge
    }
}

#[tactic(auto, using(crate::proofs::Fronts::first_three, crate::proofs::Fronts::symbol_fits, crate::proofs::Fronts::symbol_is_ascii))]
fn symbol(bytes: &[u8]) -> Front
    ensures value { result ≡ symbol_front (symbol_len bytes.now) }
    ensures taken { IsTaken result bytes.now }
{
    let n = symbol_of(byte_at(bytes, 0), byte_at(bytes, 1), byte_at(bytes, 2));
    if n == 0 {
        Front::BadCharacter
    } else {
        Front::Token(TokenKind::Symbol, n)
    }
}

/// What stands at the front of a text that has a byte.
#[tactic(auto, unfolding(crate::specs::Fronts::front_of))]
pub fn front_of(bytes: &[u8]) -> Front
    requires { 0 < length bytes.now }
    ensures value { result ≡ front_of bytes.now }
    ensures taken { IsTaken result bytes.now }
{
    let a = byte_at(bytes, 0);
    let b = byte_at(bytes, 1);
    if is_space(a) {
        Front::Blank(1)
    } else if (a == b'/' && b == b'/') || (a == b'-' && b == b'-') {
        Front::Blank(line_len(&bytes[2..]) + 2)
    } else if a == b'/' && b == b'*' {
        comment(bytes)
    } else if is_letter(a) {
        name(bytes)
    } else if is_digit(a) {
        number(bytes)
    } else {
        symbol(bytes)
    }
}
