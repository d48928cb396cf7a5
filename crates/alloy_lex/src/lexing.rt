// From the bytes of a text to its tokens, or to its first fault.
ghost use Rattle.std.specs.Prelude.{◌≡◌, ℕ, ◌+◌, ◌<◌, ◌≤◌, ◌^◌, length, IfOk, IfErr};
ghost use Rattle.std.specs.Str.{IsAscii};
ghost use Rattle.alloy_lex.specs.Tokens.{after_byte, after_bytes, passed, token_at, step_of, tokens_of, IsFaultOf, Gives};
ghost use Rattle.alloy_lex.specs.Reading.{AreSized};

use crate::front::{Front, ascii_text, front_of};
use crate::token::{LexFault, Place, Spelling, Token, TokenKind};
use std::alloc::Global;

/// How far a text was read: the bytes that were passed, and the place of what follows.
#[derive(Clone, Copy, Debug, PartialEq, Eq)]
pub struct Spot {
    pub start: usize,
    pub place: Place,
}

// One byte more: a line feed, a byte within a character, or the first of one.
fn after_byte(place: Place, b: u8) -> Place
    requires line { place.line < 2 ^ 30 }
    requires column { place.column < 2 ^ 30 }
    ensures value { result ≡ after_byte place b }
    ensures line { result.line ≤ place.line + 1 }
    ensures column { result.column ≤ place.column + 1 }
{
    if b == b'\n' {
        Place {
            line: place.line + 1,
            column: 1,
        }
    } else if 128 <= b && b < 192 {
        place
    } else {
        Place {
            line: place.line,
            column: place.column + 1,
        }
    }
}

// The place behind these bytes.
#[tactic(auto, unfolding(crate::specs::Tokens::after_bytes))]
fn after_bytes(place: Place, bytes: &[u8]) -> Place
    requires line { place.line + length bytes.now < 2 ^ 29 }
    requires column { place.column + length bytes.now < 2 ^ 29 }
    ensures value { result ≡ after_bytes place bytes.now }
    ensures line { result.line ≤ place.line + length bytes.now }
    ensures column { result.column ≤ place.column + length bytes.now }
{
    let mut at = place;
    let mut rest = bytes;
    'each: while let [b, tail @ ..] = rest {
        at = after_byte(at, *b);
        rest = tail;
    }
    at
}

fn passed(at: Spot, bytes: &[u8]) -> Spot
    requires start { at.start + length bytes.now < 2 ^ 29 }
    requires line { at.place.line + length bytes.now < 2 ^ 29 }
    requires column { at.place.column + length bytes.now < 2 ^ 29 }
    ensures value { result ≡ passed at bytes.now }
    ensures start { result.start ≡ at.start + length bytes.now }
    ensures line { result.place.line ≤ at.place.line + length bytes.now }
    ensures column { result.place.column ≤ at.place.column + length bytes.now }
{
    Spot {
        start: at.start + bytes.len(),
        place: after_bytes(at.place, bytes),
    }
}

fn token_at<'a>(kind: TokenKind, at: Spot, bytes: &'a [u8]) -> Token<'a>
    requires ascii { IsAscii bytes.now }
    requires small { at.start + length bytes.now < 2 ^ 29 }
    ensures { result ≡ token_at kind at bytes.now }
{
    Token {
        kind,
        start: at.start as u32,
        place: at.place,
        text: Spelling::of(ascii_text(bytes)),
    }
}

// One token, or a space or a comment, and where the text goes on.
#[tactic(auto, unfolding(crate::specs::Tokens::step_of))]
fn step<'a>(at: Spot, bytes: &'a [u8]) -> Result<(Option<Token<'a>>, Spot, &'a [u8]), LexFault>
    requires some { 0 < length bytes.now }
    requires start { at.start + length bytes.now < 2 ^ 29 }
    requires line { at.place.line + length bytes.now < 2 ^ 29 }
    requires column { at.place.column + length bytes.now < 2 ^ 29 }
    ensures value { Gives (λ x. (x.0, x.1, x.2.now)) result (step_of at bytes.now) }
    ensures shorter { IfOk result (λ x. length x.2.now < length bytes.now) }
    ensures start { IfOk result (λ x. x.1.start + length x.2.now ≡ at.start + length bytes.now) }
    ensures line { IfOk result (λ x. x.1.place.line + length x.2.now ≤ at.place.line + length bytes.now) }
    ensures column { IfOk result (λ x. x.1.place.column + length x.2.now ≤ at.place.column + length bytes.now) }
{
    match front_of(bytes) {
        Front::Blank(n) => {
            let (blank, rest) = bytes.split_at(n);
            Ok((None, passed(at, blank), rest))
        }
        Front::Token(kind, n) => {
            let (text, rest) = bytes.split_at(n);
            Ok((Some(token_at(kind, at, text)), passed(at, text), rest))
        }
        Front::BadCharacter => Err(LexFault::BadCharacter { place: at.place }),
        Front::OpenComment => Err(LexFault::OpenComment { place: at.place }),
        Front::NumberTooLarge => Err(LexFault::NumberTooLarge { place: at.place }),
    }
}

/// The tokens of a text, or its first fault.
pub fn lex<'a>(alloc: Global, text: &'a str) -> Result<Vec<Token<'a>>, LexFault>
    requires { length text.now ≤ 1048576 }
    ensures tokens { IfOk result (λ v. tokens_of text.now ≡ Ok v.items) }
    ensures faults { IfErr result (λ e. IsFaultOf e (tokens_of text.now)) }
    ensures sized { IfOk result (λ v. AreSized v.items) }
    ensures few { IfOk result (λ v. length v.items ≤ length text.now) }
{
    let mut tokens = Vec::new(alloc);
    let mut at = Spot {
        start: 0,
        place: Place { line: 1, column: 1 },
    };
    let mut rest = text.as_bytes();
    'each: while !rest.is_empty() {
        let (found, next, behind) = step(at, rest)?;
        if let Some(token) = found {
            tokens.push(token)?;
        }
        at = next;
        rest = behind;
    }
    Ok(tokens)
}
